// Integers are widened without loss, one f64 operation decides, and a whole result is brought back exactly.
ghost use Rattle.std.specs.Prelude.{◌≡◌, not, ◌≤◌, ◌<◌, T};
ghost use Rattle.std.specs.Float.Ieee.{is_nan};
ghost use Rattle.std.specs.Float.Ieee.Scale.{finite};
ghost use Rattle.laws.specs.Integers.{stored_end};
ghost use Rattle.floats.specs.Meanings.{Sound, Widens, FloatOf, whole_at, Holds, Settles, Calculates, operation_of};

use crate::{NoNumber, Number};

// 0 as it is stored, counted from -2147483648; and the end of all Integers so stored.
pub const ZERO: u64 = 2_147_483_648;

pub const END: u64 = 4_294_967_296;
// The bit of a minus.
pub const SIGN: u64 = 9_223_372_036_854_775_808;
// The bits of 1, of 2^31 and of the infinity.
pub const ONE: u64 = 4_607_182_418_800_017_408;

pub const RANGE: u64 = 4_746_794_007_248_502_784;

pub const INFINITE: u64 = 9_218_868_437_227_405_312;
// The first digit of a significand, which the bits leave out.
const FIRST: u64 = 4_503_599_627_370_496;

// An Integer as an f64.
fn widen(biased: u64) -> f64
    requires { biased < stored_end }
    ensures { Widens biased result }
{
    if biased < ZERO {
        -((ZERO - biased) as f64)
    } else {
        (biased - ZERO) as f64
    }
}

// A number as an f64.
pub fn float_of(n: Number) -> f64
    requires { Sound n }
    ensures { FloatOf n result }
{
    match n {
        Number::Integer { biased } => widen(biased),
        Number::Real(x) => x,
    }
}

// The whole number with these bits, which have no sign and are at most those of 2^31: every binary digit after the point is 0.
pub fn whole(bits: u64) -> Option<u64>
    requires { bits ≤ 4746794007248502784 }
    ensures { result ≡ whole_at bits }
{
    if bits == 0 {
        return Some(0);
    }
    if bits < ONE {
        return None;
    }
    let after = 1075 - (bits >> 52);
    let digits = FIRST + bits % FIRST;
    let n = digits >> after;
    if n << after == digits { Some(n) } else { None }
}

// A finite f64 as a value holds it: a whole number in the range of Integers as that Integer, minus zero as 0.
pub fn hold(x: f64) -> Number
    requires { T (finite x) }
    ensures { Holds x result }
{
    let bits = f64::to_bits(x);
    if bits < SIGN {
        if bits < RANGE {
            if let Some(n) = whole(bits) {
                return Number::Integer { biased: ZERO + n };
            }
        }
    } else {
        let size = bits - SIGN;
        if size <= RANGE {
            if let Some(n) = whole(size) {
                return Number::Integer { biased: ZERO - n };
            }
        }
    }
    Number::Real(x)
}

// What an f64 operation gave: an infinity is over the range.
fn settle(x: f64) -> Result<Number, NoNumber>
    requires { T (not (is_nan x)) }
    ensures { Settles x result }
{
    let bits = f64::to_bits(x);
    if bits == INFINITE || bits == SIGN + INFINITE {
        return Err(NoNumber::OverRange);
    }
    Ok(hold(x))
}

// The operations, by their numbers.
const PLUS: u64 = 0;

const MINUS: u64 = 1;

const TIMES: u64 = 2;

pub const OVER: u64 = 3;

// The operation with the number op, always as Reals.
pub fn calculate(op: u64, a: Number, b: Number) -> Result<Number, NoNumber>
    requires { Sound a × Sound b }
    ensures { Calculates (operation_of op) a b result }
{
    let x = float_of(a);
    let y = float_of(b);
    match op {
        PLUS => settle(x + y),
        MINUS => settle(x - y),
        TIMES => settle(x * y),
        _ => {
            if y == 0.0 {
                Err(NoNumber::Undefined)
            } else {
                settle(x / y)
            }
        }
    }
}
