// A type as one word, to stand in a table.
ghost use Rattle.std.specs.Prelude.{◌≡◌};
ghost use Rattle.types.specs.Flat.{ty_of};
ghost use Rattle.types.specs.Word.{base_in, type_in, ThreeBits};

use super::order::{class_in, tag};
use super::{Base, FlatType, letters};

// C's code, as a word.
const COLLECTION: u64 = letters::COLLECTION as u64;

// A code in three bits; one that does not fit counts as C.
fn three_bits(k: u8) -> u64
    ensures { ThreeBits k result }
{
    if k < 8 { u64::from(k) } else { COLLECTION }
}

// The type as a word.
pub fn pack(t: FlatType) -> u64
    ensures { type_in result ≡ ty_of t }
{
    let b = t.base;
    let n = tag(b) + class_in(b) as u64;
    let o = three_bits(t.outer);
    let m = three_bits(t.middle);
    let i = three_bits(t.inner);
    o + 8 * m + 64 * i + 512 * n
}

// The base with this number in a type's word.
fn base_in(n: u64) -> Base
    ensures { result ≡ base_in n }
{
    match n {
        0 => Base::Void,
        1 => Base::Bool,
        2 => Base::Int,
        3 => Base::Any,
        4 => Base::Real,
        _ => Base::Class(((n - 5) % 256) as u8),
    }
}

// The type that a word stands for.
pub fn unpack(w: u64) -> FlatType
    ensures { ty_of result ≡ type_in w }
{
    let b = base_in(w / 512);
    FlatType {
        base: b,
        outer: (w % 8) as u8,
        middle: (w / 8 % 8) as u8,
        inner: (w / 64 % 8) as u8,
    }
}
