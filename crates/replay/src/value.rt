// Whether words are the cells of a value within its limits: the words of a board may hold anything.
ghost use Rattle.replay.specs.Values.{SimpleCell, EndsAt, IsValue};

use floats::cells::word_in;
use slots::reader::DEEPEST;
use values::cells::{COLLECTIONS, LARGEST, NUMBERS, OBJECTS, TOP, member_count};

// How deep collections may stand in one another.
const DEEP: u64 = DEEPEST as u64;

// Whether the cell is that of a truth value, of a number or of one of 96 objects.
fn simple_cell(cell: u64) -> bool
    ensures { SimpleCell cell result }
{
    if cell < NUMBERS {
        return true;
    }
    if cell < OBJECTS {
        return word_in(cell) == cell;
    }
    cell - OBJECTS < memory::MOST_OBJECTS
}

// The place after the value that begins at p and has at most `deep` collections inside one another; 0 where none begins.
fn value_end(cells: &[u64], p: usize, deep: u64) -> usize
    ensures { EndsAt cells.now p deep result }
{
    if cells.len() <= p {
        return 0;
    }
    let cell = cells[p];
    if cell < COLLECTIONS {
        if simple_cell(cell) {
            return p + 1;
        }
        return 0;
    }
    if TOP <= cell || deep == 0 {
        return 0;
    }
    let n = member_count(cell);
    let mut q = p + 1;
    for _ in 0..n {
        let r = value_end(cells, q, deep - 1);
        if r == 0 {
            return 0;
        }
        q = r;
    }
    q
}

// Whether these are the cells of one value.
pub fn is_value(cells: &[u64]) -> bool
    ensures { IsValue cells.now result }
{
    if LARGEST < cells.len() {
        return false;
    }
    let end = value_end(cells, 0, DEEP);
    end != 0 && end == cells.len()
}
