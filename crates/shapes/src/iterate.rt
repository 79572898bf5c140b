// `iter s i j T e b`, the one form with a type in it.
ghost use Rattle.std.specs.Prelude.{◌≡◌, ◌&&◌, ◌+◌, ◌≤◌, ◌<◌, length, drop};
ghost use Rattle.memory.specs.Codes as code;
ghost use Rattle.sheet.specs.Sizes.{most_classes};
ghost use Rattle.sheet.specs.Text.{fields_of};
ghost use Rattle.text.specs.Parts.{Cut};
ghost use Rattle.text.specs.Forms.{shape_by};
ghost use Rattle.types.specs.Flat.{base_class};
ghost use Rattle.shapes.specs.Forms.{FormRead};
ghost use Rattle.shapes.specs.Iterate.{classes_in, Held, TypeTold};
ghost use Rattle.shapes.specs.Built.{Iterates};

use super::Parsed;
use super::built::is_variable;
use super::forms::misspelled;
use super::numbers::number_fields;
use memory::codes::ITERATE;
use memory::refusals::Misread;
use text::parts::{Fields, field};
use types::reading::read_type;
use types::word::pack;
use types::{Base, FlatType};

// What should be a type: whether it is one, whether the type is within its limits, its word, and how many classes there must be for the
// class in it.
#[derive(Clone, Copy)]
pub struct TypeRead {
    pub spelled: bool,
    pub within: bool,
    pub word: u64,
    pub classes: u64,
}

// How many classes there must be for the class in a base.
fn classes_in(b: Base) -> u64
    requires { base_class b < most_classes }
    ensures { result ≡ classes_in b }
{
    match b {
        Base::Void => 0,
        Base::Bool => 0,
        Base::Int => 0,
        Base::Any => 0,
        Base::Real => 0,
        Base::Class(c) => u64::from(c) + 1,
    }
}

// A type that was read, or none that was, as the node table has it.
pub fn type_read(g: Result<FlatType, Misread>) -> TypeRead
    requires { Held g }
    ensures { TypeTold g result }
{
    match g {
        Err(Misread::Malformed) => TypeRead {
            spelled: false,
            within: false,
            word: 0,
            classes: 0,
        },
        Err(Misread::OverLimit) => TypeRead {
            spelled: true,
            within: false,
            word: 0,
            classes: 0,
        },
        Ok(t) => {
            let b = t.base;
            TypeRead {
                spelled: true,
                within: true,
                word: pack(t),
                classes: classes_in(b),
            }
        }
    }
}

// `iter` from s, i and j, its type, and e and b.
pub fn iterated(h: [u64; 4], of: TypeRead, t: [u64; 4], k: u64) -> Parsed
    requires { (length h ≡ 4) × (length t ≡ 4) × (of.classes ≤ most_classes + 1) }
    ensures { Iterates h of t k result }
{
    Parsed {
        spelled: true,
        words: [ITERATE, h[0], t[0], t[1], h[1], h[2], of.word, k],
        count: 3,
        within: is_variable(h[1]) && is_variable(h[2]) && of.within,
        apart: h[1] != h[2],
        classes: of.classes,
    }
}

// The form from a node line's fields.
pub fn iterate_form(line: &[u8], f: Fields, k: u64) -> Parsed
    requires { Cut line.now f × (3 ≤ f.count) }
    ensures { FormRead k (shape_by code.iterate (drop 3 (fields_of line.now))) result }
{
    if f.count != 9 {
        return misspelled();
    }
    let head = number_fields(line, f, 3, 6);
    let of = type_read(read_type(field(line, f, 6)));
    let tail = number_fields(line, f, 7, 9);
    if head.good && of.spelled && tail.good {
        iterated(head.at, of, tail.at, k)
    } else {
        misspelled()
    }
}
