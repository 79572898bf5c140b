// Writing a type at a position: its letters with their brackets, its base, closing brackets. Each function answers the
// position after what it wrote.
ghost use Rattle.std.specs.Prelude.{◌≡◌, ◌+◌, ◌≤◌, length};
ghost use Rattle.sheet.specs.Spelling.{letter_byte, spell_type};
ghost use Rattle.text.specs.Written.{Puts};
ghost use Rattle.types.specs.Flat.{base_type, letter_of, ty_of};
ghost use Rattle.types.specs.Written.{opening, letters, brackets};

use super::parts::depth;
use super::{Base, FlatType, letters};
use text::spelling::{put_byte, put_bytes, put_number};

// A base, for which 21 bytes are always room.
fn put_base(out: &mut [u8], at: usize, b: Base) -> usize
    requires { at + 21 ≤ length out.old }
    ensures puts { Puts at (spell_type (base_type b)) out.old out.new result }
    ensures upper_bound { result ≤ at + 21 }
{
    match b {
        Base::Void => put_bytes(out, at, b"Void"),
        Base::Bool => put_bytes(out, at, b"Bool"),
        Base::Int => put_bytes(out, at, b"Int"),
        Base::Any => put_bytes(out, at, b"Any"),
        Base::Real => put_bytes(out, at, b"Real"),
        Base::Class(c) => {
            let e = put_byte(out, at, b'#');
            put_number(out, e, c as u64)
        }
    }
}

// The byte of a code's letter.
fn letter_byte(k: u8) -> u8
    ensures { result ≡ letter_byte (letter_of k) }
{
    match k {
        letters::SET => b'S',
        letters::SEQUENCE => b'Q',
        letters::BAG => b'B',
        _ => b'C',
    }
}

// Puts a letter and its bracket.
fn put_opening(out: &mut [u8], at: usize, k: u8) -> usize
    requires { at + 2 ≤ length out.old }
    ensures { Puts at (opening k) out.old out.new result }
{
    let e = put_byte(out, at, letter_byte(k));
    put_byte(out, e, b'(')
}

// Puts all letters of a type with their brackets, the outermost first.
fn put_letters(out: &mut [u8], at: usize, t: FlatType) -> usize
    requires { at + length (letters t) ≤ length out.old }
    ensures { Puts at (letters t) out.old out.new result }
{
    let o = t.outer;
    let m = t.middle;
    let i = t.inner;
    if o == 0 {
        return at;
    }
    let a = put_opening(out, at, o);
    if m == 0 {
        return a;
    }
    let b = put_opening(out, a, m);
    if i == 0 {
        return b;
    }
    put_opening(out, b, i)
}

// Puts d closing brackets.
fn put_brackets(out: &mut [u8], at: usize, d: u64) -> usize
    requires d_bound { d ≤ 3 }
    requires d_in_bounds { at + length (brackets d) ≤ length out.old }
    ensures { Puts at (brackets d) out.old out.new result }
{
    let all = [b')'; 3];
    let n = d as usize;
    put_bytes(out, at, &all[..n])
}

// Puts a type, of thirteen bytes at most: six of letters and their brackets, four of the base, three closing brackets.
pub fn put_type(out: &mut [u8], at: usize, t: FlatType) -> usize
    requires { at + 40 ≤ length out.old }
    ensures { Puts at (spell_type (ty_of t)) out.old out.new result }
{
    let d = depth(t);
    let a = put_letters(out, at, t);
    let b = t.base;
    let e = put_base(out, a, b);
    put_brackets(out, e, d)
}
