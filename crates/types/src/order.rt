// Subtype and common type: bases first, then code by code from the inside out.
ghost use Rattle.std.specs.Prelude.{◌≡◌, ◌&&◌, ◌<◌, eqb};
ghost use Rattle.std.proofs.Math.Option.{some};
ghost use Rattle.ocl.specs.Types.{Parents, letter_subtype, letter_join, subtype as below, join as join_of};
ghost use Rattle.types.specs.Flat.{parents_in, base_type, base_tag, base_class, letter_of, ty_of, under, bare, joined_type, JoinsOneMore, level as level_of};

use super::classes::{class_below, common_class};
use super::{Base, FlatType, letters};

// A number for each case of a base: 0 for Void, 5 for a class.
pub fn tag(b: Base) -> u64
    ensures { result ≡ base_tag b }
{
    match b {
        Base::Void => 0,
        Base::Bool => 1,
        Base::Int => 2,
        Base::Any => 3,
        Base::Real => 4,
        Base::Class(_) => 5,
    }
}

// The class in a base, 0 where there is none.
pub fn class_in(b: Base) -> u8
    ensures { result ≡ base_class b }
{
    match b {
        Base::Class(c) => c,
        _ => 0,
    }
}

// Whether x is Int's tag and y that of Real, the one base above Int but Any.
fn widens(x: u64, y: u64) -> bool
    ensures { result ≡ (eqb x 2 && eqb y 4) }
{
    x == 2 && y == 4
}

// Whether base a is b or below it.
fn base_below(parents: &[u64], a: Base, b: Base) -> bool
    ensures { result ≡ below (parents_in parents.now) (base_type a) (base_type b) }
{
    let x = tag(a);
    let y = tag(b);
    if x == 0 || y == 3 {
        return true;
    }
    if x == 5 {
        if y == 5 {
            return class_below(parents, class_in(a) as u64, class_in(b) as u64);
        }
        return false;
    }
    widens(x, y) || x == y
}

// Two bases always have a common type.
fn base_join(parents: &[u64], a: Base, b: Base) -> Base
    ensures { some (base_type result) ≡ join_of (parents_in parents.now) (base_type a) (base_type b) }
{
    let x = tag(a);
    let y = tag(b);
    if x == 0 {
        return b;
    }
    if y == 0 {
        return a;
    }
    if x == 5 {
        if y == 5 {
            return common_class(parents, class_in(a), class_in(b));
        }
        return Base::Any;
    }
    if widens(x, y) {
        return b;
    }
    if widens(y, x) {
        return a;
    }
    if x == y {
        return a;
    }
    Base::Any
}

// Whether the letter of code k is that of l, or l's is C.
fn letter_below(k: u8, l: u8) -> bool
    ensures { result ≡ letter_subtype (letter_of k) (letter_of l) }
{
    if l < letters::SET || letters::BAG < l {
        return true;
    }
    k == l
}

// The same letter, else C.
fn letter_join(k: u8, l: u8) -> u8
    requires { 0 < k }
    ensures { (0 < result) × (letter_of result ≡ letter_join (letter_of k) (letter_of l)) }
{
    if k == l { k } else { letters::COLLECTION }
}

// One level of the subtype test: codes k and l, the first type's base by its tag.
fn level(tag: u64, k: u8, l: u8, ends: bool, more: bool) -> bool
    ensures { result ≡ level_of tag k l ends more }
{
    if k == 0 {
        if l == 0 {
            return ends;
        }
        return tag == 0;
    }
    if l == 0 {
        return false; // a collection is below no base, not even Any
    }
    letter_below(k, l) && more
}

// Whether a is below b.
pub fn subtype(parents: &[u64], a: FlatType, b: FlatType) -> bool
    ensures { result ≡ below (parents_in parents.now) (ty_of a) (ty_of b) }
{
    let p = a.base;
    let q = b.base;
    let v = tag(p);
    let e = base_below(parents, p, q);
    let third = level(v, a.inner, b.inner, e, e);
    let second = level(v, a.middle, b.middle, e, third);
    level(v, a.outer, b.outer, e, second)
}

// What stands under the outermost code.
pub fn under_outer(t: FlatType) -> FlatType
    ensures { result ≡ under t }
{
    FlatType {
        outer: t.middle,
        middle: t.inner,
        inner: 0,
        ..t
    }
}

// A type with no letter.
pub fn no_letter(b: Base) -> FlatType
    ensures { result ≡ bare b }
{
    FlatType {
        base: b,
        outer: 0,
        middle: 0,
        inner: 0,
    }
}

// One level of the common type: e is that of the bases, `inner` that of what stands under a's and b's outermost codes.
fn join_level(e: Base, a: FlatType, b: FlatType, inner: Option<FlatType>) -> Option<FlatType>
    ensures { (parent : Parents) → JoinsOneMore parent e a b inner result }
{
    let k = a.outer;
    let l = b.outer;
    if k == 0 {
        if l == 0 {
            return Some(no_letter(e));
        }
        let p = a.base;
        if tag(p) == 0 {
            return Some(b);
        }
        return None;
    }
    if l == 0 {
        let q = b.base;
        if tag(q) == 0 {
            return Some(a);
        }
        return None;
    }
    let Some(t) = inner else {
        return inner;
    };
    Some(FlatType {
        outer: letter_join(k, l),
        middle: t.outer,
        inner: t.middle,
        ..t
    })
}

// The common type of a and b.
pub fn join(parents: &[u64], a: FlatType, b: FlatType) -> Option<FlatType>
    ensures { joined_type result ≡ join_of (parents_in parents.now) (ty_of a) (ty_of b) }
{
    let p = a.base;
    let q = b.base;
    let e = base_join(parents, p, q);
    let a2 = under_outer(a);
    let b2 = under_outer(b);
    let third = join_level(e, under_outer(a2), under_outer(b2), Some(no_letter(e)));
    let second = join_level(e, a2, b2, third);
    join_level(e, a, b, second)
}
