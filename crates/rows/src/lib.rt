// The rows that each rule of an accepted sheet sees, and the lines that list them. Document 02, F-9. It depends on `rules` for what
// lies in the words once a sheet is accepted, and on `report` for how putting lines ends.
#![tactic(auto)]

pub mod lines; // a line for each rule
pub mod seen; // the rows of each node

ghost use Rattle.std.specs.Prelude.{◌≤◌, length};
ghost use Rattle.sheet.specs.Sizes.{least_words};
ghost use Rattle.rules.specs.Accepted.{KnownTyped};
ghost use Rattle.rows.specs.Lines.{TellsRows};

use lines::put_lines;
use seen::see_rows;
use tables::Counts;
use text::spelling::put_bytes;

// How many bytes the lines of all rules can have: 195 each.
const MOST_LINES: usize = 195 * memory::MOST_RULES as usize;

// Writes the rows of the rules of the accepted sheet in the words. The lines are formed in bytes of their own, so that an output that is too
// short is left as it is.
pub fn rows_sheet(
    w0: &[u64],
    st: Counts,
    w1: &[u64],
    w2: &mut [u64],
    out: &mut [u8],
) -> Option<usize>
    requires least_words_in_bounds { (least_words ≤ length w0.now) × (least_words ≤ length w1.now) × (least_words ≤ length w2.old) }
    requires known_typed { KnownTyped st w0.now w1.now w2.old }
    ensures { TellsRows st w0.now w1.now w2.old w2.new out.old out.new result }
{
    let mut lines = [0u8; MOST_LINES];
    see_rows(w1, w2);
    let end = put_lines(w0, st, w2, &mut lines);
    if out.len() < end {
        return None;
    }
    Some(put_bytes(out, 0, &lines[..end]))
}
