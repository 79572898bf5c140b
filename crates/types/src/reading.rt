// A field that spells a type. Letters with their brackets lead, a base follows, closing brackets end it: the letters are
// counted first, so that any nesting is read without a stack.
ghost use Rattle.std.specs.Prelude.{◌≡◌, ◌<◌};
ghost use Rattle.laws.specs.Choice.{map_some};
ghost use Rattle.ocl.specs.Types.{Class};
ghost use Rattle.sheet.specs.Spelling.{read_type};
ghost use Rattle.types.specs.Flat.{ty_of};
ghost use Rattle.types.specs.Reading.{type_field, held, base_before, number_before, byte_code, Opens, lettered_field, class_field, is, closes as closesBy, spells as spellsBy};

use super::parts::{depth, plain, wrap};
use super::{Base, FlatType, letters};
use memory::refusals::Misread;
use text::numbers::number;

// How many opening brackets stand in front, each behind another byte.
fn opens(s: &[u8]) -> usize
    ensures { Opens s.now result }
{
    for d in 0..s.len() / 2 {
        if s[d + d + 1] != b'(' {
            return d;
        }
    }
    s.len() / 2
}

// Whether s is d closing brackets.
fn closes(s: &[u8], d: usize) -> bool
    ensures { result ≡ closesBy d s.now }
{
    s.len() == d && s.iter().all(|&b| b == b')')
}

// Whether s is the word w and d closing brackets.
fn spells(s: &[u8], w: &[u8], d: usize) -> bool
    ensures { result ≡ spellsBy w.now d s.now }
{
    s.starts_with(w) && closes(&s[w.len()..], d)
}

// The class that a number spells.
pub fn class_of(n: Option<u64>) -> Result<FlatType, Misread>
    ensures { type_field result ≡ class_field n }
{
    match n {
        None => Err(Misread::Malformed),
        Some(c) => if c < memory::MOST_CLASSES {
            Ok(plain(Base::Class(c as u8)))
        } else {
            Err(Misread::OverLimit)
        },
    }
}

// What a class's number and d closing brackets spell.
fn class_before(s: &[u8], d: usize) -> Result<FlatType, Misread>
    ensures { type_field result ≡ held (map_some Class (number_before d s.now)) }
{
    if s.len() < d {
        return Err(Misread::Malformed);
    }
    let e = s.len() - d;
    if closes(&s[e..], d) {
        return class_of(number(&s[..e]));
    }
    Err(Misread::Malformed)
}

// What a base and d closing brackets spell.
fn base_before(s: &[u8], d: usize) -> Result<FlatType, Misread>
    ensures { type_field result ≡ held (base_before d s.now) }
{
    if spells(s, b"Void", d) {
        return Ok(plain(Base::Void));
    }
    if spells(s, b"Bool", d) {
        return Ok(plain(Base::Bool));
    }
    if spells(s, b"Int", d) {
        return Ok(plain(Base::Int));
    }
    if spells(s, b"Real", d) {
        return Ok(plain(Base::Real));
    }
    if spells(s, b"Any", d) {
        return Ok(plain(Base::Any));
    }
    if s.is_empty() || s[0] != b'#' {
        return Err(Misread::Malformed);
    }
    class_before(&s[1..], d)
}

// The code of a letter's byte, 0 for any other byte.
fn letter_code(b: u8) -> u8
    ensures { result ≡ byte_code b }
{
    match b {
        b'C' => letters::COLLECTION,
        b'S' => letters::SET,
        b'Q' => letters::SEQUENCE,
        b'B' => letters::BAG,
        _ => 0,
    }
}

// A letter around a type: a fourth is one too many.
fn deeper(k: u8, t: FlatType) -> Result<FlatType, Misread>
    requires { 0 < k }
    ensures { type_field result ≡ lettered_field k (is (ty_of t)) }
{
    if depth(t) < 3 {
        return Ok(wrap(k, t));
    }
    Err(Misread::OverLimit)
}

// A letter's byte around what was read.
pub fn lettered(b: u8, g: Result<FlatType, Misread>) -> Result<FlatType, Misread>
    ensures { type_field result ≡ lettered_field (byte_code b) (type_field g) }
{
    let k = letter_code(b);
    if k == 0 {
        return Err(Misread::Malformed);
    }
    deeper(k, g?)
}

// The type that a field spells. The letters are taken from the inside out.
pub fn read_type(f: &[u8]) -> Result<FlatType, Misread>
    ensures { type_field result ≡ held (read_type f.now) }
{
    let d = opens(f);
    let mut g = base_before(&f[d + d..], d);
    for j in (0..d).rev() {
        g = lettered(f[j + j], g);
    }
    g
}
