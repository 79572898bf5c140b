// A field that spells a value, read from left to right. A field may be well spelled with brackets nested to any depth, so no
// stack could hold them: only the number of open collections is kept. A value within the limits has at most three open at
// once, and only such a value's cells matter.
ghost use Rattle.std.specs.Prelude.{◌≡◌, ◌+◌, ◌<◌, ◌≤◌, length, get_or};
ghost use Rattle.std.specs.Prelude.{if◌then◌else◌};
ghost use Rattle.ocl.specs.Values.{largest};
ghost use Rattle.slots.specs.Machine.{head_at, outward, beyond, Last, AddsCell, OpensCell, Raises, Wanted, ValueEnd, Live, TurnIs, ReadIs};

use crate::parts::{Part, part_at};
use memory::refusals::Misread;
use values::cells::LARGEST;

// The size that stands for every value over a limit.
const OVER: usize = LARGEST + 1;
// The most open collections of a value.
pub const DEEPEST: usize = 3;

// How many collections are open, and how many cells are written. Once the value is over a limit, the latter is more than any
// value may have, and no cell is written any more. The outermost open collection has the first cell; where the second and
// the third have theirs is remembered.
#[derive(Clone, Copy)]
pub struct Open {
    pub depth: usize,
    pub size: usize,
    pub second: usize,
    pub third: usize,
}

// After a part: what comes at `at` is a value (phase 0), a value or a bracket (1), or a comma or a bracket (2).
#[derive(Clone, Copy)]
pub enum Turn {
    On { at: usize, phase: u64, open: Open },
    Stop { read: Result<usize, Misread> },
}

// Where the cell of the inmost open collection is.
fn header(o: Open) -> usize
    ensures { result ≡ head_at o o.depth }
{
    match o.depth {
        1 => 0,
        2 => o.second,
        _ => o.third,
    }
}

// Writes one more cell, if there is room and the value stays within its size.
fn add_cell(cells: &mut [u64], o: Open, cell: u64) -> Open
    ensures { AddsCell cell cells.old o cells.new result }
{
    let n = o.size;
    if n < LARGEST && n < cells.len() {
        cells[n] = cell;
        return Open { size: n + 1, ..o };
    }
    Open { size: OVER, ..o }
}

fn pick(test: bool, x: usize, y: usize) -> usize
    ensures { result ≡ (if test then x else y) }
{
    if test { x } else { y }
}

// The cell of a collection that opens.
fn open_cell(cells: &mut [u64], o: Open, cell: u64) -> Open
    requires { o.depth < 18446744073709551615 }
    ensures { OpensCell cell cells.old o cells.new result }
{
    let n = o.size;
    let r = add_cell(cells, o, cell);
    Open {
        depth: o.depth + 1,
        size: pick(DEEPEST <= o.depth, OVER, r.size),
        second: pick(o.depth == 1, n, o.second),
        third: pick(o.depth == 2, n, o.third),
    }
}

// The inmost open collection has one member more.
fn raise(cells: &mut [u64], o: Open)
    requires { o.size ≤ largest → (head_at o o.depth < length cells.old) × (get_or cells.old (head_at o o.depth) 0 < 18446744073709551615) }
    ensures { Raises cells.old o cells.new }
{
    if LARGEST < o.size {
        return;
    }
    let h = header(o);
    cells[h] += 1;
}

// A value has ended at `at` with no collection open: the field must end there too.
fn last(f: &[u8], at: usize, o: Open) -> Result<usize, Misread>
    ensures { Last f.now at o result }
{
    if at < f.len() {
        return Err(Misread::Malformed);
    }
    if LARGEST < o.size {
        return Err(Misread::OverLimit);
    }
    Ok(o.size)
}

// A value ends at `at`.
fn ended(f: &[u8], cells: &mut [u64], at: usize, o: Open) -> Turn
    requires { ValueEnd f.now cells.old at o }
    ensures { TurnIs f.now cells.new at result }
{
    if o.depth == 0 {
        return Turn::Stop {
            read: last(f, at, o),
        };
    }
    raise(cells, o);
    Turn::On {
        at,
        phase: 2,
        open: o,
    }
}

// A bracket closes the inmost open collection.
fn closed(o: Open) -> Open
    requires { 0 < o.depth }
    ensures { result ≡ outward o }
{
    Open {
        depth: o.depth - 1,
        ..o
    }
}

// The value is over a limit from here on.
fn passed(o: Open) -> Open
    ensures { result ≡ beyond o }
{
    Open { size: OVER, ..o }
}

// A value begins at `at`.
fn begin(f: &[u8], cells: &mut [u64], at: usize, o: Open) -> Turn
    requires { Wanted f.now cells.old at o × (at < length f.now) }
    ensures { TurnIs f.now cells.new (at + 1) result }
{
    let Some(p) = part_at(f, at) else {
        return Turn::Stop {
            read: Err(Misread::Malformed),
        };
    };
    match p {
        Part::Simple { cell, end } => {
            let r = add_cell(cells, o, cell);
            ended(f, cells, end, r)
        }
        Part::Wide { end } => ended(f, cells, end, passed(o)),
        Part::Opens { cell, end } => {
            let r = open_cell(cells, o, cell);
            Turn::On {
                at: end,
                phase: 1,
                open: r,
            }
        }
    }
}

// What comes next, by the byte at `at`.
fn next_part(f: &[u8], cells: &mut [u64], at: usize, phase: u64, o: Open) -> Turn
    requires { Live f.now cells.old at phase o }
    ensures { TurnIs f.now cells.new (at + 1) result }
{
    if f.len() <= at {
        return Turn::Stop {
            read: Err(Misread::Malformed),
        };
    }
    if phase != 0 {
        if f[at] == b')' {
            return ended(f, cells, at + 1, closed(o));
        }
        if phase != 1 {
            if f[at] == b',' {
                return Turn::On {
                    at: at + 1,
                    phase: 0,
                    open: o,
                };
            }
            return Turn::Stop {
                read: Err(Misread::Malformed),
            };
        }
    }
    begin(f, cells, at, o)
}

// The value that the field spells, as cells from the first on; there is room for as many as `cells` has.
pub fn read_value(f: &[u8], cells: &mut [u64]) -> Result<usize, Misread>
    ensures { ReadIs f.now cells.new result }
{
    let mut at: usize = 0;
    let mut phase: u64 = 0;
    let mut o = Open {
        depth: 0,
        size: 0,
        second: 0,
        third: 0,
    };
    loop {
        let t = next_part(f, cells, at, phase, o);
        match t {
            Turn::On {
                at: a,
                phase: p,
                open: n,
            } => {
                at = a;
                phase = p;
                o = n;
            }
            Turn::Stop { read } => {
                return read;
            }
        }
    }
}
