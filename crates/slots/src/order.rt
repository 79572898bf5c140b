// A Set's members ascend, and a Bag's do not descend. Each cell of a value begins a value, so one pass over the cells meets
// every collection, however deep it is nested.
ghost use Rattle.std.specs.Prelude.{◌≡◌, ◌<◌, length};
ghost use Rattle.slots.specs.Order.{follows, RowAt, OrderIs};

use std::cmp::Ordering;
use values::cells::{skip, sort_of};
use values::order::compare;

// Whether a member may follow another, by the collection's sort and their order.
fn may_follow(sort: u64, order: Ordering) -> bool
    ensures { result ≡ follows sort order }
{
    match sort {
        3 => order.is_lt(),
        5 => order.is_le(),
        _ => true,
    }
}

// Whether the members of the value at p are in order, if it is a Set or a Bag.
fn in_row(cells: &[u64], p: usize) -> bool
    requires { p < length cells.now }
    ensures { RowAt cells.now p result }
{
    let sort = sort_of(cells[p]);
    if may_follow(sort, Ordering::Greater) {
        return true; // no Set and no Bag: any member may follow any other
    }
    let end = skip(cells, p, cells.len());
    let mut q = p + 1;
    while q < end {
        let r = skip(cells, q, end);
        if r == end {
            return true;
        }
        let s = skip(cells, r, end);
        if !may_follow(sort, compare(cells, q, r - q, r, s - r)) {
            return false;
        }
        q = r;
    }
    true
}

// Whether the members of each Set and Bag in the value are in order.
pub fn in_order(cells: &[u64]) -> bool
    ensures { OrderIs cells.now result }
{
    for p in 0..cells.len() {
        if !in_row(cells, p) {
            return false;
        }
    }
    true
}
