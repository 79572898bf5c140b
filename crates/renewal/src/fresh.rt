// The lines of the rules that are evaluated again, put into a buffer one behind the other, and their steps. Lines that have no room any more
// are only counted: they go into the last bytes of the buffer, one over the other.
ghost use Rattle.std.specs.Prelude.{◌≡◌, ◌-◌, ◌<◌, ◌≤◌, min, length};
ghost use Rattle.ocl.specs.Evaluation.{most_steps};
ghost use Rattle.sheet.specs.Sizes.{least_output, least_words, most_rules};
ghost use Rattle.rows.specs.Bits.{bit};
ghost use Rattle.renewal.specs.Fresh.{KnownAccepted, SomeRule, line_for, all_lines, object_step, all_steps, AddsFresh, told_lines, told_steps, FreshAll};

use memory::words::wide;
use outcomes::lookup::is_a;
use report::lines::{put_line, steps_of};
use rows::seen::has_bit;
use rules::evaluated::evaluate_numbered;
use tables::Counts;

// The bytes and the steps so far.
#[derive(Clone, Copy)]
pub struct Sums {
    pub bytes: usize,
    pub steps: u64,
}

// Where the next line goes: behind so many bytes, or at the last place that has room for a line, if that comes first.
fn line_place(bytes: usize, room: usize) -> usize
    requires { least_output ≤ room }
    ensures { result ≡ min bytes (room - least_output) }
{
    bytes.min(room - memory::LEAST_OUTPUT)
}

// Adds the line and the steps of rule r for object o, if it is of the rule's class or below.
pub fn fresh_line(
    w0: &[u64],
    st: Counts,
    w1: &[u64],
    w2: &mut [u64],
    r: usize,
    o: u64,
    buf: &mut [u8],
    sums: Sums,
) -> Sums
    requires least_words_in_bounds { (least_words ≤ length w0.now) × (least_words ≤ length w1.now) × (least_words ≤ length w2.old) × SomeRule st w0.now w1.now r × (o < st.objects) }
    requires least_output_in_bounds { (least_output ≤ length buf.old) × (sums.bytes ≤ 20000000) × (sums.steps ≤ 10000000000) }
    ensures { AddsFresh (line_for r o) (object_step o) 2319 most_steps st w0.now w1.now r sums w2.old w2.new buf.old buf.new result }
{
    if is_a(w0, st, o, w0[memory::CONTEXTS + r]) {
        let e = evaluate_numbered(w0, st, w1, w2, r, o);
        let at = line_place(sums.bytes, buf.len());
        let end = put_line(buf, at, r as u64, o, w2, e);
        return Sums {
            bytes: sums.bytes + (end - at),
            steps: sums.steps + steps_of(e),
        };
    }
    sums
}

// The same for all objects.
fn fresh_lines(
    w0: &[u64],
    st: Counts,
    w1: &[u64],
    w2: &mut [u64],
    r: usize,
    buf: &mut [u8],
    was: Sums,
) -> Sums
    requires least_words_in_bounds { (least_words ≤ length w0.now) × (least_words ≤ length w1.now) × (least_words ≤ length w2.old) × SomeRule st w0.now w1.now r }
    requires least_output_in_bounds { (least_output ≤ length buf.old) × (was.bytes ≤ 14247936) × (was.steps ≤ 6144000000) }
    ensures { AddsFresh (all_lines r) all_steps 222624 96000000 st w0.now w1.now r was w2.old w2.new buf.old buf.new result }
{
    let mut sums = was;
    for o in 0..st.objects {
        sums = fresh_line(w0, st, w1, w2, r, o, buf, sums);
    }
    sums
}

// The same, if rule r is among those that the word names.
fn told_lines(
    w0: &[u64],
    st: Counts,
    w1: &[u64],
    w2: &mut [u64],
    touched: u64,
    r: usize,
    buf: &mut [u8],
    was: Sums,
) -> Sums
    requires least_words_in_bounds { (least_words ≤ length w0.now) × (least_words ≤ length w1.now) × (least_words ≤ length w2.old) × SomeRule st w0.now w1.now r × (r < most_rules) }
    requires least_output_in_bounds { (least_output ≤ length buf.old) × (was.bytes ≤ 14247936) × (was.steps ≤ 6144000000) }
    ensures { AddsFresh (told_lines (bit touched) r) (told_steps (bit touched) r) 222624 96000000 st w0.now w1.now r was w2.old w2.new buf.old buf.new result }
{
    if has_bit(touched, r as u64) {
        return fresh_lines(w0, st, w1, w2, r, buf, was);
    }
    was
}

// The same for all rules that the word names. Where the lines of each end is put into `ends`; a rule that is not named adds none.
pub fn fresh_rules(
    w0: &[u64],
    st: Counts,
    w1: &[u64],
    w2: &mut [u64],
    touched: u64,
    buf: &mut [u8],
    ends: &mut [u64],
) -> Sums
    requires least_words_in_bounds { (least_words ≤ length w0.now) × (least_words ≤ length w1.now) × (least_words ≤ length w2.old) × KnownAccepted st w0.now w1.now }
    requires least_output_in_bounds { (least_output ≤ length buf.old) × (most_rules ≤ length ends.old) }
    ensures { FreshAll st w0.now w1.now touched w2.old w2.new buf.old buf.new ends.old ends.new result }
{
    let rules = wide(st.rules);
    let mut sums = Sums { bytes: 0, steps: 0 };
    for r in 0..rules {
        sums = told_lines(w0, st, w1, w2, touched, r, buf, sums);
        ends[r] = sums.bytes as u64;
    }
    sums
}
