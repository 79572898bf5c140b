// The verdicts of a running board after an edit: the rules that were resolved to the edited row are evaluated again, and the others keep
// their bytes. Document 02, F-10. It depends on `rows` for the rows of each rule, on `report` for the lines of one, and on `moves` for
// bytes moved in place.
#![tactic(auto)]

pub mod again; // the lines of a rule once more
pub mod fresh; // the lines of the rules that are evaluated again, and their steps
pub mod spread; // all lines put where they belong
pub mod touched; // which rules are evaluated again

ghost use Rattle.std.specs.Prelude.{◌≤◌, ◌<◌, length};
ghost use Rattle.sheet.specs.Sizes.{least_words, most_rules, most_rows};
ghost use Rattle.moves.specs.Joined.{Standing};
ghost use Rattle.renewal.specs.Fresh.{KnownAccepted};
ghost use Rattle.renewal.specs.Renewed.{RenewsTouched, Renews};

use fresh::fresh_rules;
use memory::refusals::{Refusal, Refused};
use memory::words::wide;
use moves::ends::{can_stand, start_of};
use moves::placed::place;
use rows::seen::see_rows;
use spread::rearrange;
use tables::Counts;
use touched::touched_rules;

// How many bytes the buffer has: for fresh lines and, behind them, for one line that is only counted.
const FRESH_BYTES: usize = 16_384 + memory::LEAST_OUTPUT;

// Evaluates the rules that the word names again and puts all verdicts where they belong. Nothing is written before it is known that all
// fit.
fn renew_touched(
    w0: &[u64],
    st: Counts,
    w1: &[u64],
    w2: &mut [u64],
    touched: u64,
    ends: &[u64],
    out: &mut [u8],
    placed: &mut [u64],
) -> Result<(usize, u64), Refused>
    requires least_words_in_bounds { (least_words ≤ length w0.now) × (least_words ≤ length w1.now) × (least_words ≤ length w2.old) × KnownAccepted st w0.now w1.now }
    requires most_rules_in_bounds { (most_rules ≤ length ends.now) × (most_rules ≤ length placed.old) × Standing ends.now out.old st.rules }
    ensures { RenewsTouched st w0.now w1.now w2.old w2.new touched ends.now out.old out.new placed.old placed.new result }
{
    let mut buf = [0u8; FRESH_BYTES];
    let mut fresh = [0u64; memory::MOST_RULES as usize];
    let rules = wide(st.rules);
    let sums = fresh_rules(w0, st, w1, w2, touched, &mut buf, &mut fresh);
    if place(ends, &fresh, rules, touched, out.len(), placed) {
        rearrange(w0, st, w1, w2, touched, ends, &fresh, &buf, placed, out);
        return Ok((start_of(placed, rules), sums.steps));
    }
    Err(Refusal::SlipTooLong.at(0))
}

// Renews the verdicts after an edit of the row, where w0 has the slots after it. `ends` is where each rule's verdicts ended, and `placed`
// gets where they end now.
pub fn renew(
    w0: &[u64],
    st: Counts,
    w1: &[u64],
    w2: &mut [u64],
    row: u64,
    ends: &[u64],
    out: &mut [u8],
    placed: &mut [u64],
) -> Result<(usize, u64), Refused>
    requires least_words_in_bounds { (least_words ≤ length w0.now) × (least_words ≤ length w1.now) × (least_words ≤ length w2.old) × KnownAccepted st w0.now w1.now }
    requires row_lt_most_rows { (row < most_rows) × (most_rules ≤ length ends.now) × (most_rules ≤ length placed.old) }
    ensures { Renews st w0.now w1.now w2.old w2.new row ends.now out.old out.new placed.old placed.new result }
{
    see_rows(w1, w2);
    let touched = touched_rules(w0, st, w2, row);
    if can_stand(ends, wide(st.rules), out) {
        return renew_touched(w0, st, w1, w2, touched, ends, out, placed);
    }
    Err(Refusal::BoardFull.at(1))
}
