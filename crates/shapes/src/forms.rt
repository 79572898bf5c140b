// The fields after a form's word, by the form's code. Document 01, The forms and their typing.
ghost use Rattle.std.specs.Prelude.{◌≡◌, ℕ, ◌≤◌, drop};
ghost use Rattle.std.proofs.Math.Option.{none};
ghost use Rattle.memory.specs.Codes as code;
ghost use Rattle.sheet.specs.Text.{fields_of};
ghost use Rattle.text.specs.Parts.{Cut};
ghost use Rattle.text.specs.Forms.{shape_by};
ghost use Rattle.text.specs.Words.{only_byte};
ghost use Rattle.shapes.specs.Forms.{FormRead, kind_byte_code};
ghost use Rattle.shapes.specs.Built.{numbers_of};

use super::Parsed;
use super::built::{assembled, built};
use super::iterate::iterate_form;
use super::literals::{integer_form, real_form};
use super::numbers::{exactly, number_fields};
use memory::codes;
use text::parts::{Fields, field};
use text::words::letter;

// The answer for fields that spell no form.
pub fn misspelled() -> Parsed
    ensures { (n : ℕ) → FormRead n none result }
{
    Parsed {
        spelled: false,
        words: [0; 8],
        count: 0,
        within: false,
        apart: false,
        classes: 0,
    }
}

// A form that holds nothing but m numbers.
fn numbers_form(line: &[u8], f: Fields, code: u64, m: usize, k: u64) -> Parsed
    requires { Cut line.now f × (3 ≤ f.count) × (m ≡ numbers_of code) × (m ≤ 4) }
    ensures { FormRead k (shape_by code (drop 3 (fields_of line.now))) result }
{
    let n = exactly(line, f, m);
    if !n.good {
        return misspelled();
    }
    let at = n.at;
    built(code, at, k)
}

// The code of `coll` by its kind; 0 where there is no such kind.
fn kind_code(f: &[u8]) -> u64
    ensures { result ≡ kind_byte_code (only_byte f.now) }
{
    match letter(f) {
        b'S' => codes::SET,
        b'Q' => codes::SEQUENCE,
        b'B' => codes::BAG,
        _ => 0,
    }
}

// `coll k e..`
fn collection_form(line: &[u8], f: Fields, k: u64) -> Parsed
    requires { Cut line.now f × (3 ≤ f.count) }
    ensures { FormRead k (shape_by code.set (drop 3 (fields_of line.now))) result }
{
    let count = f.count;
    if count < 4 || 8 < count {
        return misspelled();
    }
    let code = kind_code(field(line, f, 3));
    if code == 0 {
        return misspelled();
    }
    let n = number_fields(line, f, 4, count);
    if !n.good {
        return misspelled();
    }
    let at = n.at;
    assembled(code, at, count - 4, k)
}

// The form with this code. This is the match with ranges over the form codes of document 01, Use these forms in these places.
pub fn read_form(line: &[u8], f: Fields, code: u64, k: u64) -> Parsed
    requires { Cut line.now f × (3 ≤ f.count) }
    ensures { FormRead k (shape_by code (drop 3 (fields_of line.now))) result }
{
    match code {
        codes::FALSE..=codes::UNDEF => numbers_form(line, f, code, 0, k),
        codes::NUMBER => integer_form(line, f, k),
        codes::SELF => numbers_form(line, f, codes::SELF, 0, k),
        codes::VAR..=codes::TO_BAG => numbers_form(line, f, code, 1, k),
        codes::CAST_TO..=codes::OR => numbers_form(line, f, code, 2, k),
        codes::FOR_ALL..=codes::EXISTS => numbers_form(line, f, code, 3, k),
        codes::SET => collection_form(line, f, k),
        codes::SEQUENCE..=codes::BAG => misspelled(),
        codes::IS_UNDEF => numbers_form(line, f, codes::IS_UNDEF, 1, k),
        codes::CONDITIONAL..=codes::LET_IN => numbers_form(line, f, code, 3, k),
        codes::OF_OBJECT..=codes::OF_MEMBERS => numbers_form(line, f, code, 2, k),
        codes::ITERATE => iterate_form(line, f, k),
        codes::CALL..=codes::OVER => numbers_form(line, f, code, 2, k),
        codes::REAL => real_form(line, f, k),
        _ => misspelled(),
    }
}
