// Single cells, and runs of cells.
ghost use Rattle.std.specs.Prelude.{◌≡◌, ◌⊎◌, ◌+◌, ◌*◌, ◌≤◌, ◌<◌, length};
ghost use Rattle.std.proofs.Math.Seq.{paste};
ghost use Rattle.ocl.specs.Values.{largest};
ghost use Rattle.values.specs.Cells.{kids, sort_span};
ghost use Rattle.values.specs.Meanings.{SortOf, PayloadOf, IntegerTest, SimpleOf, CellOf, Narrow, Pushes, EmptyOf, Skips, Slides, Copies, Brings};

use crate::Simple;
use floats::Number;
use floats::cells::{ABOVE, integer_cell, integer_in, number_of};
use memory::words::wide;

// The cells of truth values are below this, and those of numbers follow.
pub const NUMBERS: u64 = 2;
// From OBJECTS on a cell is its sort times this, plus a payload below it.
pub const SORT: u64 = 4_294_967_296;
// Cells of objects start here, above those of all numbers, and those of the collections follow and end before TOP.
pub const OBJECTS: u64 = ABOVE;

pub const COLLECTIONS: u64 = OBJECTS + SORT;

pub const TOP: u64 = COLLECTIONS + 3 * SORT;
// The sorts. That of truth values is 0.
pub const NUMBER: u64 = 1;

pub const OBJECT: u64 = 2;

pub const SET: u64 = 3;

pub const SEQUENCE: u64 = 4;

pub const BAG: u64 = 5;
// The most cells that a value may have.
pub const LARGEST: usize = 128;

// The sort of the value with this first cell: 0 truth value, 1 number, 2 object, 3 Set, 4 Sequence, 5 Bag.
pub fn sort_of(cell: u64) -> u64
    ensures { SortOf cell result }
{
    if cell < NUMBERS {
        0
    } else if cell < OBJECTS {
        NUMBER
    } else {
        OBJECT + (cell - OBJECTS) / SORT
    }
}

// The truth value, object number or member count in a value's first cell. For a number's cell the result means nothing.
pub fn payload_of(cell: u64) -> u64
    ensures { PayloadOf cell result }
{
    cell % SORT
}

// Whether the value with this first cell is an Integer.
pub fn is_integer(cell: u64) -> bool
    ensures { IntegerTest cell result }
{
    matches!(integer_in(cell), Some(_))
}

// The simple value with this cell. For a collection's cell the result means nothing.
pub fn simple_of(cell: u64) -> Simple
    ensures { SimpleOf cell result }
{
    let payload = payload_of(cell);
    match sort_of(cell) {
        0 => Simple::Bool { b: payload == 1 },
        NUMBER => match number_of(cell) {
            Number::Integer { biased } => Simple::Integer { biased },
            Number::Real(x) => Simple::Real(x),
        },
        _ => Simple::Object { number: payload },
    }
}

// The cell of a simple value.
pub fn cell_of(s: Simple) -> u64
    requires { Narrow s }
    ensures { CellOf s result }
{
    match s {
        Simple::Bool { b } => u64::from(b),
        Simple::Integer { biased } => integer_cell(biased),
        Simple::Real(x) => floats::cells::cell_of(Number::Real(x)),
        Simple::Object { number } => OBJECTS + number,
    }
}

// Puts a simple value at sp.
pub fn push(stack: &mut [u64], sp: usize, s: Simple)
    requires { Narrow s × (sp < length stack.old) }
    ensures { Pushes s sp stack.old stack.new }
{
    stack[sp] = cell_of(s);
}

// The first cell of an empty Set (0), Sequence (1) or Bag (2).
pub fn empty_of(kind: u64) -> u64
    requires { kind < 3 }
    ensures { EmptyOf kind result }
{
    COLLECTIONS + kind * SORT
}

// How many members the value with this first cell has.
pub fn member_count(cell: u64) -> usize
    ensures { (result ≡ kids cell) × (result < sort_span) }
{
    if cell < COLLECTIONS {
        0
    } else {
        wide(cell % SORT)
    }
}

// The place after the value at p: never past the limit, whatever the cells are.
pub fn skip(stack: &[u64], p: usize, limit: usize) -> usize
    requires { (p ≤ limit) × (limit ≤ length stack.now) }
    ensures { Skips p limit stack.now result }
{
    let mut q = p;
    let mut n: usize = 1;
    // n values are still to be passed, and each cell adds its members
    while 0 < n {
        if limit - q < n {
            return limit;
        }
        n = n - 1 + member_count(stack[q]);
        q += 1;
    }
    q
}

// Copies the len cells at `from` to `to`, which must not be above `from` unless the parts don't overlap.
pub fn slide(stack: &mut [u64], from: usize, to: usize, len: usize)
    requires len_in_bounds { (from + len ≤ length stack.old) × (to + len ≤ length stack.old) }
    requires fact { (to ≤ from) ⊎ (from + len ≤ to) }
    ensures { Slides from to len stack.old stack.new }
{
    stack.copy_within(from..from + len, to);
}

// Copies the value at p to sp.
pub fn push_copy(stack: &mut [u64], p: usize, sp: usize) -> Option<usize>
    requires { (p < sp) × (sp + largest ≤ length stack.old) }
    ensures { Copies p sp stack.old stack.new result }
{
    let len = skip(stack, p, sp) - p;
    if LARGEST < len {
        return None;
    }
    slide(stack, p, sp, len);
    Some(len)
}

// Copies the cells to `at`. It is a loop, since the archive for C would need `memmove` for `copy_from_slice`.
pub fn copy_cells(stack: &mut [u64], at: usize, cells: &[u64])
    requires { at + length cells.now ≤ length stack.old }
    ensures { stack.new ≡ paste stack.old at cells.now (length cells.now) }
{
    for i in 0..cells.len() {
        stack[at + i] = cells[i];
    }
}

// Copies the value that lies from a to e in other words to sp.
pub fn push_cells(stack: &mut [u64], sp: usize, cells: &[u64], a: usize, e: usize) -> Option<usize>
    requires { (a < e) × (e ≤ length cells.now) × (sp + largest ≤ length stack.old) }
    ensures { Brings cells.now a e sp stack.old stack.new result }
{
    let len = e - a;
    if LARGEST < len {
        return None;
    }
    copy_cells(stack, sp, &cells[a..e]);
    Some(len)
}
