// Answers that say where undefined arose: made from an operation's answer, packed into one word, and with the place left out again.
ghost use Rattle.std.specs.Prelude.{◌≡◌, ◌≤◌, ◌<◌};
ghost use Rattle.ocl.specs.Evaluation.{most_steps};
ghost use Rattle.sheet.specs.Sizes.{most_nodes};
ghost use Rattle.evaluation.specs.Traces.{place_of, arisen, earlier_of, word_of, answer_in, Packs, without_place};

use crate::Traced;
use memory::words::wide;
use outcomes::Ended;

// The place of node n, which began at this step.
pub fn place_of(n: usize, step: u64) -> u64
    requires { (n < most_nodes) × (step ≤ most_steps) }
    ensures { result ≡ place_of n step }
{
    n as u64 + memory::PLACE_STEP * step
}

// What an operation answered; if that is undefined, it arose at this place.
pub fn arose(e: Ended, place: u64) -> Traced
    ensures { result ≡ arisen e place }
{
    match e {
        Ended::Value { len, steps } => Traced::Value { len, steps },
        Ended::Undef { steps } => Traced::Undef { steps, place },
        Ended::Stuck => Traced::Stuck,
        Ended::Stop { number, steps } => Traced::Stop { number, steps },
    }
}

// Of two places the first, unless it is 0, which is none.
pub fn earlier(first: u64, second: u64) -> u64
    ensures { result ≡ earlier_of first second }
{
    if first == 0 { second } else { first }
}

// Two bits for the variant, eight for the length or the number, twenty for the steps, which never pass 1,000,000, and thirty for
// the place, whose step is one of them.
fn word_of(variant: u64, small: u64, steps: u64, place: u64) -> u64
    requires { variant < 4 }
    ensures { result ≡ word_of variant small steps place }
{
    variant
        + 4 * (small % 256)
        + 1024 * (steps % 1_048_576)
        + 1_073_741_824 * (place % 1_073_741_824)
}

// The answer as one word.
pub fn pack(e: Traced) -> u64
    ensures { Packs e result }
{
    match e {
        Traced::Value { len, steps } => word_of(0, len as u64, steps, 0),
        Traced::Undef { steps, place } => word_of(1, 0, steps, place),
        Traced::Stuck => 2,
        Traced::Stop { number, steps } => word_of(3, number, steps, 0),
    }
}

// The answer that a word stands for.
pub fn unpack(w: u64) -> Traced
    ensures { result ≡ answer_in w }
{
    let steps = w / 1024 % 1_048_576;
    let small = w / 4 % 256;
    match w % 4 {
        0 => Traced::Value {
            len: wide(small),
            steps,
        },
        1 => Traced::Undef {
            steps,
            place: w / 1_073_741_824,
        },
        2 => Traced::Stuck,
        _ => Traced::Stop {
            number: small,
            steps,
        },
    }
}

// The answer without the place.
pub fn untraced(e: Traced) -> Ended
    ensures { result ≡ without_place e }
{
    match e {
        Traced::Value { len, steps } => Ended::Value { len, steps },
        Traced::Undef { steps, place: _ } => Ended::Undef { steps },
        Traced::Stuck => Ended::Stuck,
        Traced::Stop { number, steps } => Ended::Stop { number, steps },
    }
}
