// The lines of an accepted sheet, rule by rule and object by object: the report's, or those that say where undefined came from (`origins`).
// Lines that are kept are put one behind the other; lines that are only counted overwrite one another, so that room for one is enough.
// `total` is the number of bytes so far.
ghost use Rattle.std.specs.Prelude.{◌≤◌, ◌<◌, length};
ghost use Rattle.sheet.specs.Sizes.{least_words};
ghost use Rattle.report.specs.Passes.{RoomForLine, PutsVerdict, object_line, all_objects, line_bound, all_bound, RoomFor, AddsLines, RoomForAll, AddsAll};

use crate::lines::put_line;
use crate::origins::put_origin;
use memory::words::wide;
use outcomes::lookup::is_a;
use rules::evaluated::{evaluate_numbered, trace_numbered};
use tables::Counts;

// Puts the line of rule r for object o, which is of the rule's class or below.
fn put_verdict(
    w0: &[u64],
    st: Counts,
    w1: &[u64],
    w2: &mut [u64],
    r: usize,
    o: u64,
    out: &mut [u8],
    at: usize,
    origins: bool,
) -> usize
    requires least_words_in_bounds { (least_words ≤ length w0.now) × (least_words ≤ length w1.now) × (least_words ≤ length w2.old) }
    requires room_for_line { RoomForLine origins st w0.now w1.now r o at (length out.old) × (o < st.objects) }
    ensures { PutsVerdict origins st w0.now w1.now r o at w2.old w2.new out.old out.new result }
{
    if origins {
        let t = trace_numbered(w0, st, w1, w2, r, o);
        return put_origin(out, at, r as u64, o, w1, t);
    }
    let e = evaluate_numbered(w0, st, w1, w2, r, o);
    put_line(out, at, r as u64, o, w2, e)
}

// Puts the line of rule r for object o, if it is of the rule's class or below.
fn object_line(
    w0: &[u64],
    st: Counts,
    w1: &[u64],
    w2: &mut [u64],
    r: usize,
    o: u64,
    out: &mut [u8],
    total: usize,
    keep: bool,
    origins: bool,
) -> usize
    requires least_words_in_bounds { (least_words ≤ length w0.now) × (least_words ≤ length w1.now) × (least_words ≤ length w2.old) }
    requires room_for { RoomFor (object_line origins r o) (line_bound origins o) st w0.now w1.now r keep total (length out.old) × (o < st.objects) }
    ensures { AddsLines (object_line origins r o) (line_bound origins o) st w0.now w1.now r keep total w2.old w2.new out.old out.new result }
{
    if is_a(w0, st, o, w0[memory::CONTEXTS + r]) {
        if keep {
            return put_verdict(w0, st, w1, w2, r, o, out, total, origins);
        }
        return total + put_verdict(w0, st, w1, w2, r, o, out, 0, origins);
    }
    total
}

// Puts the lines of rule r.
pub fn object_lines(
    w0: &[u64],
    st: Counts,
    w1: &[u64],
    w2: &mut [u64],
    r: usize,
    out: &mut [u8],
    total: usize,
    keep: bool,
    origins: bool,
) -> usize
    requires least_words_in_bounds { (least_words ≤ length w0.now) × (least_words ≤ length w1.now) × (least_words ≤ length w2.old) }
    requires room_for { RoomFor (all_objects origins r) (all_bound origins) st w0.now w1.now r keep total (length out.old) }
    ensures { AddsLines (all_objects origins r) (all_bound origins) st w0.now w1.now r keep total w2.old w2.new out.old out.new result }
{
    let mut sum = total;
    for o in 0..st.objects {
        sum = object_line(w0, st, w1, w2, r, o, out, sum, keep, origins);
    }
    sum
}

// Puts the lines of all rules.
pub fn rule_lines(
    w0: &[u64],
    st: Counts,
    w1: &[u64],
    w2: &mut [u64],
    out: &mut [u8],
    keep: bool,
    origins: bool,
) -> usize
    requires least_words_in_bounds { (least_words ≤ length w0.now) × (least_words ≤ length w1.now) × (least_words ≤ length w2.old) }
    requires room_for_all { RoomForAll origins st w0.now w1.now keep (length out.old) }
    ensures { AddsAll origins st w0.now w1.now w2.old w2.new keep out.old out.new result }
{
    let mut total = 0;
    for r in 0..wide(st.rules) {
        total = object_lines(w0, st, w1, w2, r, out, total, keep, origins);
    }
    total
}
