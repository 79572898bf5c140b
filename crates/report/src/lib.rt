// The lines of an accepted sheet into the lent output, for each rule and each object of its class or below: the report (document 01,
// Calls), or where each undefined verdict came from (document 02, F-11). It depends on `rules` for a rule's evaluation by its number and on
// `spelling` for values.
#![tactic(auto)]

pub mod bound; // how long the lines can be
pub mod lines; // one line of the report
pub mod origins; // one line that says where undefined came from
pub mod passes; // the lines of all rules, written or counted
pub mod places; // what a place names

ghost use Rattle.std.specs.Prelude.{◌≤◌, length};
ghost use Rattle.sheet.specs.Sizes.{least_output, least_words};
ghost use Rattle.rules.specs.Accepted.{KnownTyped};
ghost use Rattle.report.specs.Reports.{lines_on, report_on, origins_on, Bounded, Measures, TellsFit, Reports};

use bound::all_bound;
use passes::rule_lines;
use tables::Counts;

// The length of the lines. They are formed in bytes of their own, so that the output stays as it is.
fn measured(
    w0: &[u64],
    st: Counts,
    w1: &[u64],
    w2: &mut [u64],
    bound: usize,
    origins: bool,
) -> usize
    requires least_words_in_bounds { (least_words ≤ length w0.now) × (least_words ≤ length w1.now) × (least_words ≤ length w2.old) }
    requires bounded { Bounded origins st w0.now w1.now bound }
    ensures { Measures origins st w0.now w1.now w2.old w2.new result }
{
    let mut line = [0u8; memory::LEAST_OUTPUT];
    rule_lines(w0, st, w1, w2, &mut line, false, origins)
}

// Whether the lines fit into so many bytes. They are measured only if the bound cannot tell.
fn lines_fit(
    w0: &[u64],
    st: Counts,
    w1: &[u64],
    w2: &mut [u64],
    bound: usize,
    room: usize,
    origins: bool,
) -> bool
    requires least_words_in_bounds { (least_words ≤ length w0.now) × (least_words ≤ length w1.now) × (least_words ≤ length w2.old) }
    requires bounded { Bounded origins st w0.now w1.now bound }
    ensures { TellsFit origins st w0.now w1.now w2.old w2.new bound room result }
{
    bound <= room || measured(w0, st, w1, w2, bound, origins) <= room
}

// Writes the lines of the accepted sheet in the words. An output that is too short is left as it is.
fn sheet_lines(
    w0: &[u64],
    st: Counts,
    w1: &[u64],
    w2: &mut [u64],
    out: &mut [u8],
    origins: bool,
) -> Option<usize>
    requires least_words_in_bounds { (least_words ≤ length w0.now) × (least_words ≤ length w1.now) × (least_words ≤ length w2.old) }
    requires known_typed { KnownTyped st w0.now w1.now w2.old × (least_output ≤ length out.old) }
    ensures { Reports (lines_on origins) st w0.now w1.now w2.old w2.new out.old out.new result }
{
    let bound = all_bound(w0, st, w2, origins);
    if lines_fit(w0, st, w1, w2, bound, out.len(), origins) {
        Some(rule_lines(w0, st, w1, w2, out, true, origins))
    } else {
        None
    }
}

// Writes the report.
pub fn report_sheet(
    w0: &[u64],
    st: Counts,
    w1: &[u64],
    w2: &mut [u64],
    out: &mut [u8],
) -> Option<usize>
    requires least_words_in_bounds { (least_words ≤ length w0.now) × (least_words ≤ length w1.now) × (least_words ≤ length w2.old) }
    requires known_typed { KnownTyped st w0.now w1.now w2.old × (least_output ≤ length out.old) }
    ensures { Reports report_on st w0.now w1.now w2.old w2.new out.old out.new result }
{
    sheet_lines(w0, st, w1, w2, out, false)
}

// Writes where each undefined verdict came from.
pub fn origins_sheet(
    w0: &[u64],
    st: Counts,
    w1: &[u64],
    w2: &mut [u64],
    out: &mut [u8],
) -> Option<usize>
    requires least_words_in_bounds { (least_words ≤ length w0.now) × (least_words ≤ length w1.now) × (least_words ≤ length w2.old) }
    requires known_typed { KnownTyped st w0.now w1.now w2.old × (least_output ≤ length out.old) }
    ensures { Reports origins_on st w0.now w1.now w2.old w2.new out.old out.new result }
{
    sheet_lines(w0, st, w1, w2, out, true)
}
