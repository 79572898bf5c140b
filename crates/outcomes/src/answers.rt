// Answers with a value that was just formed on the stack, and a truth value read from a cell.
ghost use Rattle.std.specs.Prelude.{◌≡◌, ◌<◌, length};
ghost use Rattle.values.specs.Meanings.{Narrow};
ghost use Rattle.outcomes.specs.Answers.{formed_as, GivesCell, Gives, Truth};

use crate::Ended;
use values::Simple;
use values::cells::{cell_of, payload_of, sort_of};

// Puts the cell of a simple value at sp, which is then the answer.
pub fn put_cell(stack: &mut [u64], sp: usize, cell: u64, steps: u64) -> Ended
    requires { sp < length stack.old }
    ensures { GivesCell cell sp steps stack.old stack.new result }
{
    stack[sp] = cell;
    Ended::Value { len: 1, steps }
}

// Puts a simple value at sp, which is then the answer.
pub fn put(stack: &mut [u64], sp: usize, s: Simple, steps: u64) -> Ended
    requires { Narrow s × (sp < length stack.old) }
    ensures { Gives s sp steps stack.old stack.new result }
{
    put_cell(stack, sp, cell_of(s), steps)
}

// The collection that was formed, or stop 17 if it would be too large.
pub fn formed(f: Option<usize>, steps: u64) -> Ended
    ensures { result ≡ formed_as f steps }
{
    match f {
        Some(len) => Ended::Value { len, steps },
        None => Ended::Stop { number: 17, steps },
    }
}

// The truth value with this first cell: 0 for false, 1 for true; 2 for any other value.
pub fn truth(cell: u64) -> u64
    ensures { Truth cell result }
{
    if sort_of(cell) == 0 {
        payload_of(cell)
    } else {
        2
    }
}
