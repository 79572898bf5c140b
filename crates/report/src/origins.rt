// One line that says where undefined came from: rule, object, and the line and the step of the node at which it arose. A verdict that is not
// undefined has none. Document 02, F-11.
ghost use Rattle.std.specs.Prelude.{◌≤◌, length};
ghost use Rattle.sheet.specs.Sizes.{least_words};
ghost use Rattle.sheet.specs.Origin.{place_line};
ghost use Rattle.text.specs.Written.{Puts};
ghost use Rattle.evaluation.specs.Traces.{SmallTraced};
ghost use Rattle.report.specs.Lines.{PlaceFits, origin_by, OriginFits};

use crate::lines::{put_column, put_steps};
use crate::places::{place_line, place_step};
use evaluation::Traced;
use text::spelling::put_number;

// Puts the line itself.
fn put_place(out: &mut [u8], at: usize, rule: u64, object: u64, line: u64, step: u64) -> usize
    requires { PlaceFits at rule object line step (length out.old) }
    ensures { Puts at (place_line rule object line step) out.old out.new result }
{
    let second = put_column(out, at, rule);
    let third = put_column(out, second, object);
    let last = put_number(out, third, line);
    put_steps(out, last, step)
}

// Puts the line of a verdict, if that is undefined.
pub fn put_origin(out: &mut [u8], at: usize, rule: u64, object: u64, w1: &[u64], t: Traced) -> usize
    requires least_words_in_bounds { (least_words ≤ length w1.now) × SmallTraced t }
    requires origin_fits { OriginFits at rule object w1.now t (length out.old) }
    ensures { Puts at (origin_by rule object w1.now t) out.old out.new result }
{
    match t {
        Traced::Value { len: _, steps: _ } => at,
        Traced::Undef { steps: _, place } => {
            let line = place_line(w1, place);
            put_place(out, at, rule, object, line, place_step(place))
        }
        Traced::Stuck => at,
        Traced::Stop {
            number: _,
            steps: _,
        } => at,
    }
}
