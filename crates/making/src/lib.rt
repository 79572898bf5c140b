// A running board made from the accepted sheet in the words: the report's lines in the verdict bytes; in the board words the slots, and where
// the lines of each rule end. Document 02, F-10. It depends on `report` for the lines and on `board_words` for the board in its words.
#![tactic(auto)]

ghost use Rattle.std.specs.Prelude.{false, ◌≤◌, length};
ghost use Rattle.sheet.specs.Sizes.{least_output, least_words, most_rules};
ghost use Rattle.board.specs.Calls.{least_board};
ghost use Rattle.tables.specs.Layout.{Fine};
ghost use Rattle.rules.specs.Accepted.{KnownTyped};
ghost use Rattle.report.specs.Passes.{RoomForAll};
ghost use Rattle.making.specs.Made.{EndsOfRules, MakesBoard};

use board_words::store_board;
use memory::words::wide;
use report::passes::object_lines;
use report::report_sheet;
use tables::Counts;

// Puts into `ends` where the lines of each rule end. They are counted once more, each formed in the bytes of `line`.
fn rule_ends(w0: &[u64], st: Counts, w1: &[u64], w2: &mut [u64], line: &mut [u8], ends: &mut [u64])
    requires least_words_in_bounds { (least_words ≤ length w0.now) × (least_words ≤ length w1.now) × (least_words ≤ length w2.old) }
    requires room_for_all { RoomForAll false st w0.now w1.now false (length line.old) × Fine st × (most_rules ≤ length ends.old) }
    ensures { EndsOfRules st w0.now w1.now w2.old w2.new ends.new }
{
    let mut total = 0;
    for r in 0..wide(st.rules) {
        total = object_lines(w0, st, w1, w2, r, line, total, false, false);
        ends[r] = total as u64;
    }
}

// Makes the board of the accepted sheet. Nothing is written where the verdicts are longer than `out`.
pub fn make_board(
    w0: &[u64],
    st: Counts,
    w1: &[u64],
    w2: &mut [u64],
    out: &mut [u8],
    words: &mut [u64],
) -> Option<usize>
    requires least_words_in_bounds { (least_words ≤ length w0.now) × (least_words ≤ length w1.now) × (least_words ≤ length w2.old) × (least_board ≤ length words.old) }
    requires known_typed { KnownTyped st w0.now w1.now w2.old × (least_output ≤ length out.old) }
    ensures { MakesBoard st w0.now w1.now w2.old w2.new out.old out.new words.old words.new result }
{
    let n = report_sheet(w0, st, w1, w2, out)?;
    let mut line = [0u8; memory::LEAST_OUTPUT];
    let mut ends = [0u64; memory::MOST_RULES as usize];
    rule_ends(w0, st, w1, w2, &mut line, &mut ends);
    store_board(w0, st, &ends, words);
    Some(n)
}
