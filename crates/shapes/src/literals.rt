// `int n` and `real r`: a number, which both hold by its one word.
ghost use Rattle.std.specs.Prelude.{◌≡◌, ◌≤◌, drop};
ghost use Rattle.std.proofs.Math.Option.{Option};
ghost use Rattle.laws.specs.Choice.{map_some};
ghost use Rattle.memory.specs.Codes as code;
ghost use Rattle.reals.specs.Reals.{Number};
ghost use Rattle.ocl.specs.Forms.{number};
ghost use Rattle.sheet.specs.Text.{fields_of};
ghost use Rattle.sheet.specs.Lines.{leaf};
ghost use Rattle.text.specs.Parts.{Cut};
ghost use Rattle.text.specs.Forms.{shape_by};
ghost use Rattle.text.specs.Literals.{literal_of};
ghost use Rattle.shapes.specs.Forms.{FormRead};

use super::Parsed;
use super::forms::misspelled;
use memory::codes;
use memory::refusals::Misread;
use text::literals::{integer_literal, real_literal};
use text::numbers::integer;
use text::parts::{Fields, field};

// The form of a number, if a value may hold it.
pub fn number_form(n: Result<u64, Misread>, k: u64) -> Parsed
    ensures { (o : Option Number) → n ≡ literal_of o → FormRead k (map_some (λ x. leaf (number x)) o) result }
{
    match n {
        Err(Misread::Malformed) => misspelled(),
        Err(Misread::OverLimit) => Parsed {
            spelled: true,
            words: [codes::NUMBER, 0, 0, 0, 0, 0, 0, k],
            count: 0,
            within: false,
            apart: true,
            classes: 0,
        },
        Ok(word) => Parsed {
            spelled: true,
            words: [codes::NUMBER, word, 0, 0, 0, 0, 0, k],
            count: 0,
            within: true,
            apart: true,
            classes: 0,
        },
    }
}

pub(crate) fn integer_form(line: &[u8], f: Fields, k: u64) -> Parsed
    requires { Cut line.now f × (3 ≤ f.count) }
    ensures { FormRead k (shape_by code.number (drop 3 (fields_of line.now))) result }
{
    if f.count != 4 {
        return misspelled();
    }
    number_form(integer_literal(integer(field(line, f, 3))), k)
}

pub(crate) fn real_form(line: &[u8], f: Fields, k: u64) -> Parsed
    requires { Cut line.now f × (3 ≤ f.count) }
    ensures { FormRead k (shape_by code.real (drop 3 (fields_of line.now))) result }
{
    if f.count != 4 {
        return misspelled();
    }
    number_form(real_literal(field(line, f, 3)), k)
}
