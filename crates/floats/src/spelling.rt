// A Real as `r` and the 16 lower-case hexadecimal digits of its bits.
ghost use Rattle.std.specs.Prelude.{◌≡◌, ◌%◌, ◌^◌, ◌<◌, T};
ghost use Rattle.std.specs.Float.Ieee.Scale.{finite};
ghost use Rattle.reals.specs.Bits.{from_bits};
ghost use Rattle.reals.specs.Digits.{hex_byte, hex_digit};
ghost use Rattle.reals.specs.Spelling.{finite_real};
ghost use Rattle.floats.specs.Meanings.{digit_or, spelled_of, ReadsReal, Spells};

use crate::Number;
use crate::numbers::{INFINITE, SIGN, hold};
use memory::refusals::Misread;

// How many digits the bits of a Real have, and how many bytes it takes with its letter.
const DIGITS: usize = 16;

pub const REAL_BYTES: usize = 1 + DIGITS;

// The digit that a byte is; 16 where it is none.
fn digit_of(c: u8) -> u64
    ensures { result ≡ digit_or (hex_digit c) }
{
    match c {
        48..=57 => u64::from(c - 48),
        97..=102 => u64::from(c - 87),
        _ => 16,
    }
}

// The byte of a digit.
fn byte_of(digit: u64) -> u8
    requires { digit < 16 }
    ensures { result ≡ hex_byte digit }
{
    if digit < 10 {
        48 + digit as u8
    } else {
        87 + digit as u8
    }
}

// The bits without that of the minus.
fn without_sign(bits: u64) -> u64
    ensures { result ≡ bits % 2 ^ 63 }
{
    if bits < SIGN { bits } else { bits - SIGN }
}

// The Real with these bits. A number that is held as an Integer has no such spelling.
fn real_of(bits: u64) -> Result<f64, Misread>
    ensures { result ≡ spelled_of (finite_real (from_bits bits)) }
{
    if INFINITE <= without_sign(bits) {
        return Err(Misread::OverLimit);
    }
    let x = f64::from_bits(bits);
    match hold(x) {
        Number::Integer { .. } => Err(Misread::Malformed),
        Number::Real(_) => Ok(x),
    }
}

// The Real that a text spells.
pub fn read_real(text: &[u8]) -> Result<f64, Misread>
    ensures { ReadsReal text.now result }
{
    if text.len() != REAL_BYTES || text[0] != b'r' {
        return Err(Misread::Malformed);
    }
    let mut bits = 0;
    for &c in &text[1..] {
        let d = digit_of(c);
        if d == 16 {
            return Err(Misread::Malformed);
        }
        bits = bits * 16 + d;
    }
    real_of(bits)
}

// How a Real is spelled: from the last digit to the first.
pub fn spell_real(x: f64) -> [u8; REAL_BYTES]
    requires { T (finite x) }
    ensures { Spells x result }
{
    let mut text = [b'r'; REAL_BYTES];
    let mut rest = f64::to_bits(x);
    for k in (1..REAL_BYTES).rev() {
        text[k] = byte_of(rest & 15);
        rest >>= 4;
    }
    text
}
