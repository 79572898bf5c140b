// `collect`: the values of a row for the members of a collection. Document 02, F-4.
ghost use Rattle.std.specs.Prelude.{◌≡◌, ◌+◌, ◌≤◌, ◌<◌, length};
ghost use Rattle.ocl.specs.Forms.{of_members};
ghost use Rattle.ocl.specs.Types.{kind_code};
ghost use Rattle.ocl.specs.Values.{largest};
ghost use Rattle.sheet.specs.Sizes.{most_rows};
ghost use Rattle.nodes.specs.Marks.{kind_in};
ghost use Rattle.outcomes.specs.Tables.{Bounds, Accesses};
ghost use Rattle.operations.specs.Collect.{StandingOf, WorstOf, BringsAll};

use memory::words::larger;
use outcomes::Ended;
use outcomes::answers::formed;
use outcomes::lookup::{bring, has_row, row_slot};
use tables::Counts;
use values::cells::{LARGEST, SET, skip, sort_of};
use values::collections::assemble;

// The most cells that a collection's members may have.
const MOST: usize = LARGEST - 1;

// How the value with this first cell stands to row i: 0 if it has a value there, 1 if it has none, 2 if it is no object of the row's
// class or below.
fn standing(tables: &[u64], st: Counts, i: u64, cell: u64) -> u64
    requires { Bounds st (length tables.now) × (i < most_rows) }
    ensures { StandingOf st tables.now i cell result }
{
    if has_row(tables, st, i, cell) {
        let slot = row_slot(tables, st, i, cell);
        match slot {
            Some(_) => 0,
            None => 1,
        }
    } else {
        2
    }
}

// How the members from `from` to end stand to row i: as the one that stands worst.
fn worst(tables: &[u64], st: Counts, i: u64, stack: &[u64], from: usize, end: usize) -> u64
    requires bounds { Bounds st (length tables.now) × (i < most_rows) }
    requires from_le_end { (from ≤ end) × (end ≤ length stack.now) }
    ensures { WorstOf st tables.now i from end stack.now result }
{
    let mut all: u64 = 0;
    let mut q = from;
    while q < end {
        let r = skip(stack, q, end);
        all = larger(all, standing(tables, st, i, stack[q]));
        q = r;
    }
    all
}

// The values of row i for the objects from `from` to end, one after the other from end on; 17 where they are too many for one
// collection. An object has one cell.
fn bring_all(
    tables: &[u64],
    st: Counts,
    i: u64,
    stack: &mut [u64],
    from: usize,
    end: usize,
    steps: u64,
) -> Ended
    requires bounds { Bounds st (length tables.now) × (i < most_rows) }
    requires from_le_end { (from ≤ end) × (end + 256 ≤ length stack.old) }
    ensures { BringsAll st tables.now i from end steps stack.old stack.new result }
{
    let mut len: usize = 0;
    for q in from..end {
        let Some(j) = row_slot(tables, st, i, stack[q]) else {
            return Ended::Undef { steps };
        };
        let one = bring(tables, st, j, stack, end + len, steps);
        let Ended::Value { len: n, steps: _ } = one else {
            return one;
        };
        len += n;
        if MOST < len {
            return Ended::Stop { number: 17, steps };
        }
    }
    Ended::Value { len, steps }
}

// The kind that the node is marked with: Sequence (1) or Bag (2).
fn kind_marked(mark: u64) -> u64
    ensures { result ≡ kind_code (kind_in mark) }
{
    if mark % memory::MARK_REALS < memory::MARK_SEQUENCE {
        2
    } else {
        1
    }
}

// The values of the row that the node is marked with for the members of the len cells at sp, as a collection of the kind that it is
// marked with, in their place. A member of another kind is seen first, then one without a value, then 17.
pub fn collect(
    tables: &[u64],
    st: Counts,
    mark: u64,
    stack: &mut [u64],
    sp: usize,
    len: usize,
    steps: u64,
) -> Ended
    requires bounds { Bounds st (length tables.now) }
    requires le_len { (1 ≤ len) × (len ≤ largest) × (sp + 512 ≤ length stack.old) }
    ensures { Accesses of_members st tables.now mark sp len steps stack.old stack.new result }
{
    if sort_of(stack[sp]) < SET {
        return Ended::Stuck;
    }
    let i = mark % memory::MOST_ROWS;
    let end = sp + len;
    let all = worst(tables, st, i, stack, sp + 1, end);
    if 1 < all {
        return Ended::Stuck;
    }
    if all == 1 {
        return Ended::Undef { steps };
    }
    let brought = bring_all(tables, st, i, stack, sp + 1, end, steps);
    let Ended::Value { len: n, steps: s } = brought else {
        return brought;
    };
    formed(assemble(stack, sp, end, end + n, kind_marked(mark)), s)
}
