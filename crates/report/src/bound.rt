// How long the lines can be, by the rules' types, which wait in w2, and the objects of their classes: the report's, or those that say where
// undefined came from.
ghost use Rattle.std.specs.Prelude.{◌≡◌, ◌≤◌, length};
ghost use Rattle.sheet.specs.Sizes.{least_words};
ghost use Rattle.types.specs.Flat.{ty_of};
ghost use Rattle.outcomes.specs.Tables.{Bounds};
ghost use Rattle.rules.specs.Width.{width as width_of};
ghost use Rattle.report.specs.Bound.{CountsObjects, line_width, BoundsLines, BoundsAll};

use floats::spelling::REAL_BYTES;
use memory::words::wide;
use outcomes::lookup::is_a;
use tables::Counts;
use types::word::unpack;
use types::{Base, FlatType};

// A value of size 128 takes at most so many bytes (rules/specs/Width.antt).
const MOST_WIDTH: usize = 2304;
// What a line has beside its outcome, and all of a line that says where undefined came from.
const BESIDE_OUTCOME: usize = 15;

const ORIGIN_WIDTH: usize = 20;

// How many bytes a value of the type, or a stop, can take in a line.
fn width(t: FlatType) -> usize
    ensures { result ≡ width_of (ty_of t) }
{
    if t.outer != 0 {
        return MOST_WIDTH;
    }
    let b = t.base;
    match b {
        Base::Void => 3,
        Base::Bool => 3,
        Base::Int => 11,
        Base::Real => REAL_BYTES,
        Base::Any => MOST_WIDTH,
        Base::Class(_) => 3,
    }
}

// How many bytes a line can take, for a rule of the type.
fn line_width(t: FlatType, origins: bool) -> usize
    ensures { result ≡ line_width origins (ty_of t) }
{
    if origins {
        return ORIGIN_WIDTH;
    }
    BESIDE_OUTCOME + width(t)
}

// How many objects are of class c or below.
fn count_objects(w0: &[u64], st: Counts, c: u64) -> usize
    requires { Bounds st (length w0.now) }
    ensures { CountsObjects st w0.now c result }
{
    (0..st.objects).filter(|o| is_a(w0, st, *o, c)).count()
}

// How many bytes the lines of a rule with context c and type t can take.
fn lines_bound(w0: &[u64], st: Counts, c: u64, t: FlatType, origins: bool) -> usize
    requires { Bounds st (length w0.now) }
    ensures { BoundsLines origins st w0.now c (ty_of t) result }
{
    let n = count_objects(w0, st, c);
    n * line_width(t, origins)
}

// How many bytes the lines of all rules can take.
pub fn all_bound(w0: &[u64], st: Counts, w2: &[u64], origins: bool) -> usize
    requires { Bounds st (length w0.now) × (least_words ≤ length w2.now) }
    ensures { BoundsAll origins st w0.now w2.now result }
{
    let mut bound = 0;
    for r in 0..wide(st.rules) {
        bound += lines_bound(
            w0,
            st,
            w0[memory::CONTEXTS + r],
            unpack(w2[memory::RULE_TYPES + r]),
            origins,
        );
    }
    bound
}
