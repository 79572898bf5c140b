// Decimal numbers and Integers of any length, without a leading zero and without `-0`. Values saturate at a bound above every
// limit of document 01, so that they fit a word.
ghost use Rattle.std.specs.Prelude.{◌≡◌, ◌-◌, ◌≤◌, length, take, drop};
ghost use Rattle.sheet.specs.Text.{plain as plain_of};
ghost use Rattle.sheet.specs.Lines.{a_number, an_integer};
ghost use Rattle.text.specs.Numbers.{cut_num, leading, DigitsRead, whole_of, minus_at, signed, leading_integer, IntegerRead};

use crate::words::byte_kind;
use floats::numbers::ZERO;
use memory::lines;
use memory::refusals::Misread;

// Any greater number reads as this one, which is above every limit.
pub const NUMBER_CUT: u64 = 1_000_000;
// And the digits of an Integer as this one, which is out of the range.
const DIGITS_CUT: u64 = 10_000_000_000;

// A run of digits: the position after it, and the number it stands for, which saturates above every Integer of the range.
#[derive(Clone, Copy)]
pub struct Digits {
    pub end: usize,
    pub value: u64,
}

// Whether the digits from a up to e are a number: there is at least one, and no zero leads others.
fn plain(s: &[u8], a: usize, e: usize) -> bool
    requires { (a ≤ e) × (e ≤ length s.now) }
    ensures { result ≡ plain_of (take (e - a) (drop a s.now)) }
{
    a < e && (a + 1 == e || s[a] != b'0')
}

// What a digit stands for; 0 for a byte below the digits.
pub fn digit(b: u8) -> u64
    ensures { result ≡ b - 48 }
{
    u64::from(b.saturating_sub(b'0'))
}

// The digits that begin at `at`, each looked at once.
pub fn digits_at(s: &[u8], at: usize) -> Digits
    requires { at ≤ length s.now }
    ensures { DigitsRead s.now at result }
{
    let mut n = 0;
    for i in at..s.len() {
        let b = s[i];
        if byte_kind(b) != lines::DIGIT {
            return Digits { end: i, value: n };
        }
        n = (n * 10 + digit(b)).min(DIGITS_CUT);
    }
    Digits {
        end: s.len(),
        value: n,
    }
}

// The number that begins at `at`, which has these digits.
pub fn number_at(s: &[u8], at: usize, d: Digits) -> Option<u64>
    requires { DigitsRead s.now at d }
    ensures { result ≡ cut_num (leading (drop at s.now)) }
{
    if plain(s, at, d.end) {
        return Some(d.value.min(NUMBER_CUT));
    }
    None
}

// The number that a whole field spells.
pub fn number(f: &[u8]) -> Option<u64>
    ensures { result ≡ cut_num (a_number f.now) }
{
    let d = digits_at(f, 0);
    if d.end == f.len() {
        return number_at(f, 0, d);
    }
    None
}

// 1 where a minus stands at `at`, else 0.
fn minus_at(s: &[u8], at: usize) -> usize
    ensures { result ≡ minus_at (drop at s.now) }
{
    if at < s.len() && s[at] == b'-' { 1 } else { 0 }
}

// The Integer by its minus signs and what its digits stand for.
fn by_sign(minuses: usize, n: u64) -> Result<u64, Misread>
    ensures { result ≡ whole_of (signed minuses n) }
{
    if minuses == 0 {
        if n < ZERO {
            return Ok(ZERO + n);
        }
        return Err(Misread::OverLimit);
    }
    if n == 0 {
        return Err(Misread::Malformed);
    }
    if n <= ZERO {
        return Ok(ZERO - n);
    }
    Err(Misread::OverLimit)
}

// The digits behind the minus, if there is one, of what begins at `at`.
pub fn integer_digits(s: &[u8], at: usize) -> Digits
    requires { at ≤ length s.now }
    ensures { IntegerRead s.now at result }
{
    let from = at + minus_at(s, at);
    digits_at(s, from)
}

// The Integer that begins at `at`, which has these digits.
pub fn integer_at(s: &[u8], at: usize, d: Digits) -> Result<u64, Misread>
    requires { IntegerRead s.now at d }
    ensures { result ≡ whole_of (leading_integer (drop at s.now)) }
{
    let minuses = minus_at(s, at);
    let from = at + minuses;
    if plain(s, from, d.end) {
        return by_sign(minuses, d.value);
    }
    Err(Misread::Malformed)
}

// The Integer that a whole field spells.
pub fn integer(f: &[u8]) -> Result<u64, Misread>
    ensures { result ≡ whole_of (an_integer f.now) }
{
    let d = integer_digits(f, 0);
    if d.end == f.len() {
        return integer_at(f, 0, d);
    }
    Err(Misread::Malformed)
}
