// The evaluation of one rule of a text for an object.
ghost use Rattle.std.specs.Prelude.{true, ◌+◌, ◌≤◌, ◌<◌, length, get_or};
ghost use Rattle.memory.specs.Map as memory;
ghost use Rattle.sheet.specs.Sizes.{least_output, least_words};
ghost use Rattle.sheet.specs.Calls.{on_accepted, evaluate_on};
ghost use Rattle.sheet.specs.Soundness.{Lent};
ghost use Rattle.tables.specs.Layout.{Kept};
ghost use Rattle.outcomes.specs.Tables.{IsA};
ghost use Rattle.rules.specs.Accepted.{KnownTyped};
ghost use Rattle.opening.specs.Parts.{Leaves, GivesFor};
ghost use Rattle.answering.specs.Outcomes.{Fitting, GivesEnded};

use memory::refusals::Refusal;
use memory::words::wide;
use opening::{Answer, no_output, open_text, written};
use outcomes::Ended;
use outcomes::lookup::is_a;
use rules::evaluated::evaluate_numbered;
use spelling::put_value;
use tables::Counts;
use text::spelling::put_byte;

// How an evaluation ended, as an answer: a value, which lies in w2 from 1 on, or `u` is put into out.
fn put_outcome(e: Ended, w2: &[u64], out: &mut [u8]) -> Answer
    requires { (least_words ≤ length w2.now) × (least_output ≤ length out.old) × Fitting w2.now e }
    ensures { GivesEnded w2.now e result out.old out.new }
{
    match e {
        Ended::Value { len, steps } => written(put_value(out, 0, w2, 1, 1 + len), steps),
        Ended::Undef { steps } => written(put_byte(out, 0, b'u'), steps),
        Ended::Stuck => no_output(100, 0),
        Ended::Stop { number, steps } => {
            Answer {
                number,
                steps,
                place: 0,
                length: 0,
            }
        }
    }
}

// Rule r for object o, which is of its context class or below. The rule has a type, and its marks are kept.
fn evaluate_typed(
    w0: &[u64],
    st: Counts,
    w1: &[u64],
    w2: &mut [u64],
    r: usize,
    o: u64,
    out: &mut [u8],
) -> Answer
    requires lent { Lent w0.now w1.now w2.old out.old × KnownTyped st w0.now w1.now w2.old }
    requires r_lt_rules { (r < st.rules) × (o < st.objects) × IsA st w0.now o (get_or w0.now (memory.contexts + r) 0) true }
    ensures { GivesFor st w0.now w1.now w2.old (λ s ts. evaluate_on s r o) result out.old out.new × Kept w2.old w2.new }
{
    let e = evaluate_numbered(w0, st, w1, w2, r, o);
    put_outcome(e, w2, out)
}

// Rule r of the accepted sheet in the words, for object o.
fn evaluate_on(
    w0: &[u64],
    st: Counts,
    w1: &[u64],
    w2: &mut [u64],
    r: u64,
    o: u64,
    out: &mut [u8],
) -> Answer
    requires { Lent w0.now w1.now w2.old out.old × KnownTyped st w0.now w1.now w2.old }
    ensures { GivesFor st w0.now w1.now w2.old (λ s ts. evaluate_on s r o) result out.old out.new × Kept w2.old w2.new }
{
    if st.rules <= r || st.objects <= o {
        return Answer::from(Refusal::NotListed.at(0));
    }
    let i = wide(r);
    let context = w0[memory::CONTEXTS + i];
    if is_a(w0, st, o, context) {
        return evaluate_typed(w0, st, w1, w2, i, o, out);
    }
    Answer::from(Refusal::OtherClass.at(0))
}

// The answer for the text, whatever the words held before; they are not wiped yet.
pub fn evaluate_answer(
    text: &[u8],
    r: u64,
    o: u64,
    w0: &mut [u64],
    w1: &mut [u64],
    w2: &mut [u64],
    out: &mut [u8],
) -> Answer
    requires { Lent w0.old w1.old w2.old out.old }
    ensures { Leaves (on_accepted text.now (λ s ts. evaluate_on s r o)) result w0.old w1.old w2.old out.old w0.new w1.new w2.new out.new }
{
    match open_text(text, w0, w1, w2) {
        Ok(st) => evaluate_on(w0, st, w1, w2, r, o, out),
        Err(refused) => Answer::from(refused),
    }
}
