// The forms on two numbers of either kind: both are widened and one binary64 operation decides (document 02, F-8).
ghost use Rattle.std.specs.Prelude.{◌+◌, ◌≤◌, ◌<◌, length};
ghost use Rattle.floats.specs.Meanings.{SoundResult, operation_of};
ghost use Rattle.operations.specs.Operations.{AnyMark, OfTwo, of_numbers, Settled};

use floats::cells::{cell_of, number_of};
use floats::numbers::calculate;
use floats::{NoNumber, Number};
use outcomes::Ended;
use outcomes::answers::put_cell;
use values::cells::{NUMBER, sort_of};

// What an operation came to, as an answer: a result goes to sp, and over the range is stop 19.
fn settled(c: Result<Number, NoNumber>, stack: &mut [u64], sp: usize, steps: u64) -> Ended
    requires { SoundResult c × (sp < length stack.old) }
    ensures { Settled c sp steps stack.old stack.new result }
{
    match c {
        Ok(number) => put_cell(stack, sp, cell_of(number), steps),
        Err(NoNumber::Undefined) => Ended::Undef { steps },
        Err(NoNumber::OverRange) => Ended::Stop { number: 19, steps },
    }
}

// `plus` (0), `minus` (1), `times` (2), `over` (3)
pub fn operation(op: u64, stack: &mut [u64], sp: usize, la: usize, lb: usize, steps: u64) -> Ended
    requires { (1 ≤ la) × (1 ≤ lb) × (sp + la + lb ≤ length stack.old) }
    ensures { OfTwo AnyMark (of_numbers (operation_of op)) sp la lb steps stack.old stack.new result }
{
    let x = stack[sp];
    let y = stack[sp + la];
    if sort_of(x) != NUMBER || sort_of(y) != NUMBER {
        return Ended::Stuck;
    }
    settled(calculate(op, number_of(x), number_of(y)), stack, sp, steps)
}
