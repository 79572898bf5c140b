// The evaluation of the rule with a number for an object, on a sheet whose marks are kept in w1.
ghost use Rattle.std.specs.Prelude.{◌≤◌, ◌<◌, length};
ghost use Rattle.sheet.specs.Sizes.{least_words};
ghost use Rattle.values.specs.Cells.{sort_span};
ghost use Rattle.rules.specs.Accepted.{Known};
ghost use Rattle.rules.specs.Numbered.{EvaluatesNumbered, TracesNumbered};

use evaluation::Traced;
use evaluation::answers::untraced;
use evaluation::rule::trace_rule;
use memory::words::wide;
use outcomes::Ended;
use tables::Counts;

// Rule r for object o: a value's cells lie in w2 from 1 on. Undefined comes with its place, the node at which it arose and the step at
// which that node began, as one word.
pub fn trace_numbered(
    w0: &[u64],
    st: Counts,
    w1: &[u64],
    w2: &mut [u64],
    r: usize,
    o: u64,
) -> Traced
    requires least_words_in_bounds { (least_words ≤ length w0.now) × (least_words ≤ length w1.now) × (least_words ≤ length w2.old) }
    requires known { Known st w0.now w1.now × (r < st.rules) × (o < sort_span) }
    ensures { TracesNumbered st w0.now w1.now r o w2.old w2.new result }
{
    let root = wide(w0[memory::ROOTS + r]);
    let stack = &mut w2[..memory::LEAST_WORDS];
    trace_rule(w0, st, w1, stack, root, o)
}

// The same without where undefined arose.
pub fn evaluate_numbered(
    w0: &[u64],
    st: Counts,
    w1: &[u64],
    w2: &mut [u64],
    r: usize,
    o: u64,
) -> Ended
    requires least_words_in_bounds { (least_words ≤ length w0.now) × (least_words ≤ length w1.now) × (least_words ≤ length w2.old) }
    requires known { Known st w0.now w1.now × (r < st.rules) × (o < sort_span) }
    ensures { EvaluatesNumbered st w0.now w1.now r o w2.old w2.new result }
{
    untraced(trace_numbered(w0, st, w1, w2, r, o))
}
