// What begins at a place of a field: a value that is no collection, or a collection with its bracket.
ghost use Rattle.std.specs.Prelude.{◌≡◌, ◌+◌, ◌<◌, ◌≤◌, length};
ghost use Rattle.reals.specs.Reals.{int, real};
ghost use Rattle.sheet.specs.Text.{integer_parser, real_parser};
ghost use Rattle.slots.specs.Parts.{PartIs, ObjectIs, NumberIs, OpensIs, part_of};

use floats::spelling::REAL_BYTES;
use memory::refusals::Misread;
use text::literals::{integer_literal, real_literal};
use text::numbers::{digits_at, integer_at, integer_digits, number_at};
use values::cells::{OBJECTS, empty_of};

// A part with its cell and the place after it; Wide is a number outside its limits.
#[derive(Clone, Copy)]
pub enum Part {
    Simple { cell: u64, end: usize },
    Wide { end: usize },
    Opens { cell: u64, end: usize },
}

// The object whose digits begin at `at`.
fn object_at(f: &[u8], at: usize) -> Option<Part>
    requires { at ≤ length f.now }
    ensures { ObjectIs f.now at result }
{
    let d = digits_at(f, at);
    let o = number_at(f, at, d)?;
    let end = d.end;
    if o < memory::MOST_OBJECTS {
        return Some(Part::Simple {
            cell: OBJECTS + o,
            end,
        });
    }
    Some(Part::Wide { end })
}

// A number as a part.
fn number_part(n: Result<u64, Misread>, end: usize) -> Option<Part>
    ensures { result ≡ part_of n end }
{
    match n {
        Err(Misread::Malformed) => None,
        Err(Misread::OverLimit) => Some(Part::Wide { end }),
        Ok(cell) => Some(Part::Simple { cell, end }),
    }
}

// The Integer that begins at `at`.
fn whole_at(f: &[u8], at: usize) -> Option<Part>
    requires { at ≤ length f.now }
    ensures { NumberIs integer_parser int f.now at result }
{
    let d = integer_digits(f, at);
    let z = integer_at(f, at, d);
    let end = d.end;
    number_part(integer_literal(z), end)
}

// The Real that begins at `at`.
fn real_at(f: &[u8], at: usize) -> Option<Part>
    requires { at ≤ length f.now }
    ensures { NumberIs real_parser real f.now at result }
{
    if f.len() - at < REAL_BYTES {
        return None;
    }
    let end = at + REAL_BYTES;
    number_part(real_literal(&f[at..end]), end)
}

// The collection whose letter stands at `at`, if a bracket follows.
fn opens_at(f: &[u8], at: usize, kind: u64) -> Option<Part>
    requires { (at < length f.now) × (kind < 3) }
    ensures { OpensIs f.now at kind result }
{
    let next = at + 1;
    if next < f.len() && f[next] == b'(' {
        return Some(Part::Opens {
            cell: empty_of(kind),
            end: next + 1,
        });
    }
    None
}

// The part that begins at `at`.
pub fn part_at(f: &[u8], at: usize) -> Option<Part>
    requires { at < length f.now }
    ensures { PartIs f.now at result }
{
    match f[at] {
        b't' => Some(Part::Simple {
            cell: 1,
            end: at + 1,
        }),
        b'f' => Some(Part::Simple {
            cell: 0,
            end: at + 1,
        }),
        b'@' => object_at(f, at + 1),
        b'r' => real_at(f, at),
        b'S' => opens_at(f, at, 0),
        b'Q' => opens_at(f, at, 1),
        b'B' => opens_at(f, at, 2),
        _ => whole_at(f, at),
    }
}
