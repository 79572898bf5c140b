// The forms on two Integers, the first at sp and the second la words after it: each is read in its word and goes back into one.
ghost use Rattle.std.specs.Prelude.{◌+◌, ◌≤◌, ◌<◌, length};
ghost use Rattle.ocl.specs.Operations.{arithmetic as arithmeticOf, division as divisionBy};
ghost use Rattle.values.specs.Integers.{arith_of, division_of};
ghost use Rattle.operations.specs.Operations.{AnyMark, OfTwo, of_integers, Calculated};

use floats::NoNumber;
use floats::cells::{integer_cell, integer_in};
use floats::numbers::END;
use outcomes::Ended;
use outcomes::answers::put_cell;
use values::arith::{calculate, divide};

// What arithmetic came to, as an answer: a result goes to sp, and over the range is stop 19.
fn calculated(c: Result<u64, NoNumber>, stack: &mut [u64], sp: usize, steps: u64) -> Ended
    requires { sp < length stack.old }
    ensures { Calculated c sp steps stack.old stack.new result }
{
    match c {
        Ok(n) => put_cell(stack, sp, integer_cell(n % END), steps),
        Err(NoNumber::Undefined) => Ended::Undef { steps },
        Err(NoNumber::OverRange) => Ended::Stop { number: 19, steps },
    }
}

// `plus` (0), `minus` (1), `times` (2)
pub fn arithmetic(op: u64, stack: &mut [u64], sp: usize, la: usize, lb: usize, steps: u64) -> Ended
    requires { (1 ≤ la) × (1 ≤ lb) × (sp + la + lb ≤ length stack.old) }
    ensures { OfTwo AnyMark (of_integers (arithmeticOf (arith_of op))) sp la lb steps stack.old stack.new result }
{
    let Some(x) = integer_in(stack[sp]) else {
        return Ended::Stuck;
    };
    let Some(y) = integer_in(stack[sp + la]) else {
        return Ended::Stuck;
    };
    calculated(calculate(op, x, y), stack, sp, steps)
}

// `div` (0), `mod` (1)
pub fn division(op: u64, stack: &mut [u64], sp: usize, la: usize, lb: usize, steps: u64) -> Ended
    requires { (1 ≤ la) × (1 ≤ lb) × (sp + la + lb ≤ length stack.old) }
    ensures { OfTwo AnyMark (of_integers (divisionBy (division_of op))) sp la lb steps stack.old stack.new result }
{
    let Some(x) = integer_in(stack[sp]) else {
        return Ended::Stuck;
    };
    let Some(y) = integer_in(stack[sp + la]) else {
        return Ended::Stuck;
    };
    calculated(divide(op, x, y), stack, sp, steps)
}
