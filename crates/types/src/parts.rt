// The parts of a type, and types made of parts.
ghost use Rattle.std.specs.Prelude.{◌≡◌, ◌≤◌, ◌<◌};
ghost use Rattle.ocl.specs.Types.{around, exactly, set, Class, depth as depth_of};
ghost use Rattle.types.specs.Flat.{base_type, letter_of, ty_of};
ghost use Rattle.types.specs.Parts.{outer_code, member_type, class_of, class_number, is_any as isAnyType};

use super::order::{no_letter, under_outer};
use super::{Base, FlatType, letters};

// How many letters stand around the base.
pub fn depth(t: FlatType) -> u64
    ensures { result ≡ depth_of (ty_of t) }
{
    if t.outer == 0 {
        return 0;
    }
    if t.middle == 0 {
        return 1;
    }
    if t.inner == 0 {
        return 2;
    }
    3
}

// The code of the outermost letter, 0 where the type is no collection.
pub fn outer_code(t: FlatType) -> u8
    ensures { result ≡ outer_code (ty_of t) }
{
    if letters::BAG < t.outer {
        letters::COLLECTION
    } else {
        t.outer
    }
}

// The member type of a collection; any other type is returned as it is.
pub fn member_type(t: FlatType) -> FlatType
    ensures { ty_of result ≡ member_type (ty_of t) }
{
    if t.outer == 0 { t } else { under_outer(t) }
}

// A letter around a type that has room for it.
pub fn wrap(code: u8, t: FlatType) -> FlatType
    requires code_nonzero { 0 < code }
    requires t_bound { depth_of (ty_of t) ≤ 2 }
    ensures { ty_of result ≡ around (letter_of code) (ty_of t) }
{
    FlatType {
        outer: code,
        middle: t.outer,
        inner: t.middle,
        ..t
    }
}

// A base alone, as `plain(Base::Bool)`.
pub fn plain(b: Base) -> FlatType
    ensures { ty_of result ≡ base_type b }
{
    no_letter(b)
}

// The type of all objects of class c.
pub fn set_of_class(c: u8) -> FlatType
    ensures { ty_of result ≡ around (exactly set) (Class c) }
{
    FlatType {
        outer: letters::SET,
        ..no_letter(Base::Class(c))
    }
}

// The class, if the type is one. Void is none, and neither is a collection of a class.
pub fn is_class(t: FlatType) -> Option<u64>
    ensures { class_number result ≡ class_of (ty_of t) }
{
    if t.outer != 0 {
        return None;
    }
    match t.base {
        Base::Class(c) => Some(u64::from(c)),
        _ => None,
    }
}

pub fn is_any(t: FlatType) -> bool
    ensures { result ≡ isAnyType (ty_of t) }
{
    t.outer == 0 && matches!(t.base, Base::Any)
}
