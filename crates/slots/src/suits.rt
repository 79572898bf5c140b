// Which values belong to a type, and which objects to a class.
ghost use Rattle.std.specs.Prelude.{◌<◌, ◌≤◌, length};
ghost use Rattle.slots.specs.Suits.{ObjectSuits, ObjectIn, BaseSuits, LetterSuits, BelongsAt};

use memory::words::wide;
use types::classes::class_below;
use types::order::{class_in, tag, under_outer};
use types::{Base, FlatType, letters};
use values::cells::{SET, is_integer, payload_of, skip, sort_of};

// Whether object o, if there is such an object, is of class d or below.
pub fn object_suits(parents: &[u64], objects: &[u64], o: u64, d: u64) -> bool
    ensures { ObjectSuits parents.now objects.now o d result }
{
    let at = wide(o);
    at < objects.len() && class_below(parents, objects[at], d)
}

// Whether object o, if there is such an object, belongs to the base.
fn object_in(parents: &[u64], objects: &[u64], o: u64, base: Base) -> bool
    ensures { ObjectIn parents.now objects.now o base result }
{
    match tag(base) {
        5 => object_suits(parents, objects, o, u64::from(class_in(base))),
        3 => wide(o) < objects.len(),
        _ => false,
    }
}

// Whether the value with this first cell belongs to a base.
fn base_suits(parents: &[u64], objects: &[u64], base: Base, cell: u64) -> bool
    ensures { BaseSuits parents.now objects.now base cell result }
{
    match (sort_of(cell), tag(base)) {
        (2, _) => object_in(parents, objects, payload_of(cell), base),
        (0 | 1, 3) => true,
        (0, y) => y == 1,
        (1, 2) => is_integer(cell),
        (1, y) => y == 4,
        _ => false,
    }
}

// Whether the value with this first cell is a collection of the letter's kind.
fn letter_suits(letter: u8, cell: u64) -> bool
    ensures { LetterSuits letter cell result }
{
    let sort = sort_of(cell);
    let any = letter < letters::SET || letters::BAG < letter;
    SET <= sort && (any || sort == u64::from(letter) + 1)
}

// Whether the value from p to end belongs to the type.
pub fn belongs(
    parents: &[u64],
    objects: &[u64],
    cells: &[u64],
    p: usize,
    end: usize,
    t: FlatType,
) -> bool
    requires { (p < end) × (end ≤ length cells.now) }
    ensures { BelongsAt parents.now objects.now cells.now p end t result }
{
    let cell = cells[p];
    let letter = t.outer;
    if letter == 0 {
        let b = t.base;
        return base_suits(parents, objects, b, cell);
    }
    if !letter_suits(letter, cell) {
        return false;
    }
    let inner = under_outer(t);
    let mut q = p + 1;
    while q < end {
        let r = skip(cells, q, end);
        if !belongs(parents, objects, cells, q, r, inner) {
            return false;
        }
        q = r;
    }
    true
}
