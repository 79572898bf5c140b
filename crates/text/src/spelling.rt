// Writing bytes and numbers at a position. Each function answers the position after what it wrote.
ghost use Rattle.std.specs.Prelude.{[], ◌∷◌, ◌≡◌, ◌+◌, ◌*◌, ◌<◌, ◌≤◌, length, T};
ghost use Rattle.std.specs.Float.Ieee.Scale.{finite};
ghost use Rattle.sheet.specs.Text.{spell_number, spell_integer};
ghost use Rattle.laws.specs.Integers.{unbias};
ghost use Rattle.text.specs.Written.{Puts, LeadOf};
ghost use Rattle.text.specs.WrittenReals.{PutsReal};

use floats::numbers::ZERO;
use floats::spelling::spell_real;

// The powers of ten that fit a word. Copy them to a local before a loop: each use of the constant makes the table anew.
const POWERS: [u64; 20] = [
    1,
    10,
    100,
    1_000,
    10_000,
    100_000,
    1_000_000,
    10_000_000,
    100_000_000,
    1_000_000_000,
    10_000_000_000,
    100_000_000_000,
    1_000_000_000_000,
    10_000_000_000_000,
    100_000_000_000_000,
    1_000_000_000_000_000,
    10_000_000_000_000_000,
    100_000_000_000_000_000,
    1_000_000_000_000_000_000,
    10_000_000_000_000_000_000,
];

// A number's digit at a place, as a byte, and what the digits behind it stand for.
#[derive(Clone, Copy)]
pub struct Lead {
    pub digit: u8,
    pub rest: u64,
}

pub fn put_byte(out: &mut [u8], at: usize, b: u8) -> usize
    requires { at < length out.old }
    ensures { Puts at (b ∷ []) out.old out.new result }
{
    out[at] = b;
    at + 1
}

pub fn put_bytes(out: &mut [u8], at: usize, w: &[u8]) -> usize
    requires { at + length w.now ≤ length out.old }
    ensures { Puts at w.now out.old out.new result }
{
    let end = at + w.len();
    out[at..end].copy_from_slice(w);
    end
}

// How many digits n has.
fn digit_count(n: u64) -> usize
    ensures { result ≡ length (spell_number n) }
{
    let powers = POWERS;
    for k in 1..20 {
        if n < powers[k] {
            return k;
        }
    }
    20
}

// The one place where a digit is found: p, a power of ten, is subtracted from n as often as it goes (document 02, F-3).
fn leading(n: u64, p: u64) -> Lead
    requires { n < p * 10 }
    ensures { LeadOf n p result }
{
    let mut digit = b'0';
    let mut rest = n;
    // how often it goes is what is asked
    while p <= rest {
        rest -= p;
        digit += 1;
    }
    Lead { digit, rest }
}

pub fn put_number(out: &mut [u8], at: usize, n: u64) -> usize
    requires { at + length (spell_number n) ≤ length out.old }
    ensures { Puts at (spell_number n) out.old out.new result }
{
    let powers = POWERS;
    let mut e = at;
    let mut rest = n;
    for k in (0..digit_count(n)).rev() {
        let lead = leading(rest, powers[k]);
        e = put_byte(out, e, lead.digit);
        rest = lead.rest;
    }
    e
}

// The Integer that `biased` stands for: it has 2147483648 added to it.
pub fn put_integer(out: &mut [u8], at: usize, biased: u64) -> usize
    requires { at + length (spell_integer (unbias biased)) ≤ length out.old }
    ensures { Puts at (spell_integer (unbias biased)) out.old out.new result }
{
    if biased < ZERO {
        let from = put_byte(out, at, b'-');
        return put_number(out, from, ZERO - biased);
    }
    put_number(out, at, biased - ZERO)
}

pub fn put_real(out: &mut [u8], at: usize, x: f64) -> usize
    requires { T (finite x) × (at + 17 ≤ length out.old) }
    ensures { PutsReal at x out.old out.new result }
{
    let text = spell_real(x);
    put_bytes(out, at, &text)
}
