// A form from its numbers, in the order of a node line's fields: node lines and texts have the same forms.
ghost use Rattle.std.specs.Prelude.{◌≡◌, ◌≤◌, length};
ghost use Rattle.memory.specs.Codes as code;
ghost use Rattle.sheet.specs.Limits.{is_variable};
ghost use Rattle.shapes.specs.Forms.{PlainCode, QuantifierCode, AccessCode};
ghost use Rattle.shapes.specs.Built.{class_count, Whole, Builds, Assembles};

use super::Parsed;
use memory::codes;

// Whether i is a variable's number, 1 to 15.
pub fn is_variable(i: u64) -> bool
    ensures { result ≡ is_variable i }
{
    1 <= i && i <= 15
}

// More classes than there may be.
const TOO_MANY: u64 = memory::MOST_CLASSES + 1;

// How many classes there must be for class c; more than there may be where c is over its limit.
fn class_count(c: u64) -> u64
    ensures { result ≡ class_count c }
{
    if c < memory::MOST_CLASSES {
        c + 1
    } else {
        TOO_MANY
    }
}

// A form that holds nothing but its m operands.
fn plain(code: u64, at: [u64; 4], m: usize, k: u64) -> Parsed
    requires { PlainCode code m × (length at ≡ 4) }
    ensures { Builds code at k result }
{
    Parsed {
        spelled: true,
        words: [code, at[0], at[1], at[2], 0, 0, 0, k],
        count: m,
        within: true,
        apart: true,
        classes: 0,
    }
}

// `var i`
fn variable(at: [u64; 4], k: u64) -> Parsed
    requires { length at ≡ 4 }
    ensures { Builds code.var at k result }
{
    Parsed {
        spelled: true,
        words: [codes::VAR, at[0], 0, 0, 0, 0, 0, k],
        count: 0,
        within: is_variable(at[0]),
        apart: true,
        classes: 0,
    }
}

// `all c`
fn instances(at: [u64; 4], k: u64) -> Parsed
    requires { length at ≡ 4 }
    ensures { Builds code.all at k result }
{
    Parsed {
        spelled: true,
        words: [codes::ALL, at[0], 0, 0, 0, 0, 0, k],
        count: 0,
        within: at[0] < memory::MOST_CLASSES,
        apart: true,
        classes: class_count(at[0]),
    }
}

// `as e c`
fn cast(at: [u64; 4], k: u64) -> Parsed
    requires { length at ≡ 4 }
    ensures { Builds code.cast_to at k result }
{
    Parsed {
        spelled: true,
        words: [codes::CAST_TO, at[0], at[1], 0, 0, 0, 0, k],
        count: 1,
        within: at[1] < memory::MOST_CLASSES,
        apart: true,
        classes: class_count(at[1]),
    }
}

// `attr e name` and `collect s name`
fn attribute(code: u64, at: [u64; 4], k: u64) -> Parsed
    requires { AccessCode code × (length at ≡ 4) }
    ensures { Builds code at k result }
{
    Parsed {
        spelled: true,
        words: [code, at[0], at[1], 0, 0, 0, 0, k],
        count: 1,
        within: at[1] < memory::MOST_NAMES,
        apart: true,
        classes: 0,
    }
}

// `call e n`
fn call(at: [u64; 4], k: u64) -> Parsed
    requires { length at ≡ 4 }
    ensures { Builds code.call at k result }
{
    Parsed {
        spelled: true,
        words: [codes::CALL, at[0], at[1], 0, 0, 0, 0, k],
        count: 1,
        within: at[1] < memory::MOST_DEFINITIONS,
        apart: true,
        classes: 0,
    }
}

// `let i e b`
fn let_in(at: [u64; 4], k: u64) -> Parsed
    requires { length at ≡ 4 }
    ensures { Builds code.let_in at k result }
{
    Parsed {
        spelled: true,
        words: [codes::LET_IN, at[1], at[2], at[0], 0, 0, 0, k],
        count: 2,
        within: is_variable(at[0]),
        apart: true,
        classes: 0,
    }
}

// `forAll s i b` and `exists s i b`
fn quantified(code: u64, at: [u64; 4], k: u64) -> Parsed
    requires { QuantifierCode code × (length at ≡ 4) }
    ensures { Builds code at k result }
{
    Parsed {
        spelled: true,
        words: [code, at[0], at[2], at[1], 0, 0, 0, k],
        count: 2,
        within: is_variable(at[1]),
        apart: true,
        classes: 0,
    }
}

// The answer where a code builds no form.
fn nothing() -> Parsed
    ensures { Whole result }
{
    Parsed {
        spelled: true,
        words: [0; 8],
        count: 0,
        within: false,
        apart: false,
        classes: 0,
    }
}

// The form with this code, if it holds nothing but numbers.
pub fn built(code: u64, at: [u64; 4], k: u64) -> Parsed
    requires { length at ≡ 4 }
    ensures { Builds code at k result }
{
    match code {
        codes::FALSE..=codes::UNDEF => plain(code, at, 0, k),
        codes::NUMBER => nothing(),
        codes::SELF => plain(codes::SELF, at, 0, k),
        codes::VAR => variable(at, k),
        codes::ALL => instances(at, k),
        codes::NEGATION..=codes::TO_BAG => plain(code, at, 1, k),
        codes::CAST_TO => cast(at, k),
        codes::EQUAL..=codes::OR => plain(code, at, 2, k),
        codes::FOR_ALL..=codes::EXISTS => quantified(code, at, k),
        codes::SET..=codes::BAG => nothing(),
        codes::IS_UNDEF => plain(codes::IS_UNDEF, at, 1, k),
        codes::CONDITIONAL => plain(codes::CONDITIONAL, at, 3, k),
        codes::LET_IN => let_in(at, k),
        codes::OF_OBJECT..=codes::OF_MEMBERS => attribute(code, at, k),
        codes::ITERATE => nothing(),
        codes::CALL => call(at, k),
        codes::OVER => plain(codes::OVER, at, 2, k),
        _ => nothing(),
    }
}

// A collection by the code of its kind, from its m members.
pub fn assembled(code: u64, at: [u64; 4], m: usize, k: u64) -> Parsed
    requires { (m ≤ 4) × (length at ≡ 4) }
    ensures { Assembles code at m k result }
{
    Parsed {
        spelled: true,
        words: [code, at[0], at[1], at[2], at[3], m as u64, 0, k],
        count: m,
        within: true,
        apart: true,
        classes: 0,
    }
}
