// The classes: word c of `parents` is 0, or one more than the parent of class c.
ghost use Rattle.std.specs.Prelude.{◌≡◌};
ghost use Rattle.ocl.specs.Types.{class, simple, simple_subtype, simple_join};
ghost use Rattle.types.specs.Flat.{parent_word, parents_in, base_type};

use super::Base;
use memory::words::wide;

// One more than the parent of class c, or 0. A parent that is not a smaller class counts as none, so every climb ends.
pub fn parent(parents: &[u64], c: u64) -> u64
    ensures { result ≡ parent_word parents.now c }
{
    match parents.get(wide(c)) {
        Some(&q) if q <= c => q,
        _ => 0,
    }
}

// Whether class c is d or below it.
pub fn class_below(parents: &[u64], c: u64, d: u64) -> bool
    ensures { result ≡ simple_subtype (parents_in parents.now) (class c) (class d) }
{
    let mut x = c;
    // up from parent to parent
    while x != d {
        let p = parent(parents, x);
        if p == 0 {
            return false;
        }
        x = p - 1;
    }
    true
}

// The nearest class that c and d are both below, else Any.
pub fn common_class(parents: &[u64], c: u8, d: u8) -> Base
    ensures { base_type result ≡ simple (simple_join (parents_in parents.now) (class c) (class d)) }
{
    let mut x = c;
    // up from parent to parent
    loop {
        if class_below(parents, d as u64, x as u64) {
            return Base::Class(x);
        }
        let p = parent(parents, x as u64);
        if p == 0 {
            return Base::Any;
        }
        x = (p - 1) as u8;
    }
}
