// A number as one word (reals/specs/Words.antt): words are in the order of their numbers.
ghost use Rattle.std.specs.Prelude.{◌≡◌, ◌<◌};
ghost use Rattle.laws.specs.Integers.{stored_end};
ghost use Rattle.reals.specs.Words.{cell, number_in};
ghost use Rattle.floats.specs.Meanings.{Sound, NumberOf, CellOf, IntegerIn, IntegerCell};

use crate::Number;
use crate::numbers::{INFINITE, RANGE, SIGN, ZERO, float_of, hold, whole};

// The words of numbers lie between these two, which the infinities would have.
pub const BELOW: u64 = SIGN - INFINITE;

pub const ABOVE: u64 = SIGN + INFINITE;

// The number with this word; 0 for a word that is no number's.
pub fn number_of(word: u64) -> Number
    ensures { NumberOf word result }
{
    if word <= BELOW || ABOVE <= word {
        return Number::Integer { biased: ZERO };
    }
    if word < SIGN {
        hold(f64::from_bits(SIGN + (SIGN - word)))
    } else {
        hold(f64::from_bits(word - SIGN))
    }
}

// The word itself where it is a number's, and otherwise the word of 0.
pub fn word_in(word: u64) -> u64
    ensures { result ≡ cell (number_in word) }
{
    if word <= BELOW || ABOVE <= word {
        return SIGN;
    }
    word
}

// The word of a number.
pub fn cell_of(n: Number) -> u64
    requires { Sound n }
    ensures { CellOf n result }
{
    let bits = f64::to_bits(float_of(n));
    if bits < SIGN {
        SIGN + bits
    } else {
        SIGN - (bits - SIGN)
    }
}

// The Integer with this word, where its number is one: found in the bits, without an f64.
pub fn integer_in(word: u64) -> Option<u64>
    ensures { IntegerIn word result }
{
    if word < SIGN {
        let size = SIGN - word;
        if size <= RANGE {
            if let Some(n) = whole(size) {
                return Some(ZERO - n);
            }
        }
    } else {
        let size = word - SIGN;
        if size < RANGE {
            if let Some(n) = whole(size) {
                return Some(ZERO + n);
            }
        }
    }
    None
}

// The word of an Integer.
pub fn integer_cell(biased: u64) -> u64
    requires { biased < stored_end }
    ensures { IntegerCell biased result }
{
    if biased < ZERO {
        SIGN - f64::to_bits((ZERO - biased) as f64)
    } else {
        SIGN + f64::to_bits((biased - ZERO) as f64)
    }
}
