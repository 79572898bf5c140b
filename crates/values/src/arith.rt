// Integers, each counted from -2147483648, so that all numbers here are unsigned. A result outside -2147483648 to
// 2147483647 is over the range; one with a zero divisor is undefined.
ghost use Rattle.std.specs.Prelude.{◌≡◌, ◌≤◌, ◌<◌};
ghost use Rattle.laws.specs.Integers.{integer_end, stored_end};
ghost use Rattle.ocl.specs.Forms.{Arith, Division};
ghost use Rattle.ocl.specs.Operations.{ranged};
ghost use Rattle.values.specs.Integers.{Calculates, Divides, arith_of, division_of, num_of, side, distance as distance_of, alike as alikeOf};

use floats::NoNumber;
use floats::numbers::{END, ZERO};

pub fn plus(a: u64, b: u64) -> Result<u64, NoNumber>
    requires { (a < stored_end) × (b < stored_end) }
    ensures { Calculates Arith.plus a b result }
{
    match (a + b).checked_sub(ZERO) {
        Some(n) if n < END => Ok(n),
        _ => Err(NoNumber::OverRange),
    }
}

pub fn minus(a: u64, b: u64) -> Result<u64, NoNumber>
    requires { (a < stored_end) × (b < stored_end) }
    ensures { Calculates Arith.minus a b result }
{
    match (a + ZERO).checked_sub(b) {
        Some(n) if n < END => Ok(n),
        _ => Err(NoNumber::OverRange),
    }
}

// How far an Integer is from 0.
fn distance(a: u64) -> u64
    ensures { result ≡ distance_of a }
{
    a.abs_diff(ZERO)
}

// Whether both are below 0, or neither is.
fn alike(a: u64, b: u64) -> bool
    ensures { result ≡ alikeOf a b }
{
    (a < ZERO) == (b < ZERO)
}

// The Integer at distance d from 0, above or below it.
fn toward(up: bool, d: u64) -> Result<u64, NoNumber>
    requires { d ≤ integer_end }
    ensures { result ≡ num_of (ranged (side up d)) }
{
    if up {
        if d < ZERO {
            Ok(ZERO + d)
        } else {
            Err(NoNumber::OverRange)
        }
    } else {
        Ok(ZERO - d)
    }
}

pub fn times(a: u64, b: u64) -> Result<u64, NoNumber>
    requires { (a < stored_end) × (b < stored_end) }
    ensures { Calculates Arith.times a b result }
{
    let p = distance(a) * distance(b);
    if ZERO < p {
        return Err(NoNumber::OverRange);
    }
    toward(alike(a, b), p)
}

// Cut toward zero: the distances are divided. Only -2147483648 by -1 leaves the range.
pub fn div(a: u64, b: u64) -> Result<u64, NoNumber>
    requires { (a < stored_end) × (b < stored_end) }
    ensures { Divides Division.div a b result }
{
    if b == ZERO {
        return Err(NoNumber::Undefined);
    }
    toward(alike(a, b), distance(a) / distance(b))
}

// What `div` leaves, on the dividend's side of 0.
pub fn modulo(a: u64, b: u64) -> Result<u64, NoNumber>
    requires { (a < stored_end) × (b < stored_end) }
    ensures { Divides Division.modulo a b result }
{
    if b == ZERO {
        return Err(NoNumber::Undefined);
    }
    toward(ZERO <= a, distance(a) % distance(b))
}

// The operation with the number op: 0 plus, 1 minus, 2 times.
pub fn calculate(op: u64, a: u64, b: u64) -> Result<u64, NoNumber>
    requires { (a < stored_end) × (b < stored_end) }
    ensures { Calculates (arith_of op) a b result }
{
    match op {
        0 => plus(a, b),
        1 => minus(a, b),
        _ => times(a, b),
    }
}

// The division with the number op: 0 div, 1 mod.
pub fn divide(op: u64, a: u64, b: u64) -> Result<u64, NoNumber>
    requires { (a < stored_end) × (b < stored_end) }
    ensures { Divides (division_of op) a b result }
{
    match op {
        0 => div(a, b),
        _ => modulo(a, b),
    }
}
