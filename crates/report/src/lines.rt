// One line of the report: rule, object, outcome, steps. A rule that ended with a value left its cells at 1 in the stack.
ghost use Rattle.std.specs.Prelude.{◌≡◌, List, [], ◌∷◌, ◌++◌, ℕ, ◌+◌, ◌≤◌, length};
ghost use Rattle.ocl.specs.Operations.{Outcome, steps_of};
ghost use Rattle.sheet.specs.Text.{spell_number};
ghost use Rattle.sheet.specs.Report.{spell_outcome, report_line};
ghost use Rattle.text.specs.Written.{Puts};
ghost use Rattle.outcomes.specs.Answers.{Ends};
ghost use Rattle.report.specs.Lines.{OutcomeFits, LineFits};

use outcomes::Ended;
use spelling::put_value;
use text::spelling::{put_byte, put_bytes, put_number};

// Puts the value, `u`, or a stop's number behind `!`.
fn put_outcome(out: &mut [u8], at: usize, stack: &[u64], e: Ended) -> usize
    requires { OutcomeFits at stack.now e (length out.old) }
    ensures { (x : Outcome) → Ends 1 stack.now x e → Puts at (spell_outcome x) out.old out.new result }
{
    match e {
        Ended::Value { len, steps: _ } => put_value(out, at, stack, 1, 1 + len),
        Ended::Undef { steps: _ } => put_byte(out, at, b'u'),
        Ended::Stuck => put_bytes(out, at, b"!100"),
        Ended::Stop { number, steps: _ } => {
            let digits = put_byte(out, at, b'!');
            put_number(out, digits, number)
        }
    }
}

// The steps that an evaluation returns.
pub fn steps_of(e: Ended) -> u64
    ensures { (stack : List ℕ) (x : Outcome) → Ends 1 stack x e → result ≡ steps_of x }
{
    match e {
        Ended::Value { len: _, steps } => steps,
        Ended::Undef { steps } => steps,
        Ended::Stuck => 0,
        Ended::Stop { number: _, steps } => steps,
    }
}

// Puts a number and a space.
pub fn put_column(out: &mut [u8], at: usize, n: u64) -> usize
    requires { at + length (spell_number n) + 1 ≤ length out.old }
    ensures { Puts at (spell_number n ++ (32 ∷ [])) out.old out.new result }
{
    let blank = put_number(out, at, n);
    put_byte(out, blank, b' ')
}

// Puts a space, the steps, and the line feed.
pub fn put_steps(out: &mut [u8], at: usize, steps: u64) -> usize
    requires { at + length (spell_number steps) + 2 ≤ length out.old }
    ensures { Puts at (32 ∷ spell_number steps ++ (10 ∷ [])) out.old out.new result }
{
    let digits = put_byte(out, at, b' ');
    let end = put_number(out, digits, steps);
    put_byte(out, end, b'\n')
}

// Puts the line of a rule and an object.
pub fn put_line(out: &mut [u8], at: usize, rule: u64, object: u64, stack: &[u64], e: Ended) -> usize
    requires { LineFits at rule object stack.now e (length out.old) }
    ensures { (x : Outcome) → Ends 1 stack.now x e → Puts at (report_line rule object x) out.old out.new result }
{
    let second = put_column(out, at, rule);
    let third = put_column(out, second, object);
    let last = put_outcome(out, third, stack, e);
    put_steps(out, last, steps_of(e))
}
