// An edit of the running board, on the accepted sheet of its text in the words: it is judged and made on the board's slots, the rules that
// see its row are evaluated again, and the board is stored. Document 02, F-10. It depends on `replay` for the slots, on `renewal` for the
// verdicts and on `board_words` for the board's words.
#![tactic(auto)]

ghost use Rattle.std.specs.Prelude.{◌<◌, ◌≤◌, length};
ghost use Rattle.sheet.specs.Sizes.{least_words, most_rows};
ghost use Rattle.board.specs.Calls.{least_board};
ghost use Rattle.renewal.specs.Fresh.{KnownAccepted};
ghost use Rattle.editing.specs.Edited.{RenewsBoard, EditsBoard};

use board_words::store_board;
use memory::refusals::Refused;
use renewal::renew;
use replay::replay_edit;
use tables::Counts;

// Renews the verdicts, where w0 has the slots with the edit made, and stores the board. A board that no call has made counts as full.
fn renew_board(
    w0: &[u64],
    st: Counts,
    w1: &[u64],
    w2: &mut [u64],
    row: u64,
    words: &mut [u64],
    out: &mut [u8],
) -> Result<(usize, u64), Refused>
    requires least_words_in_bounds { (least_words ≤ length w0.now) × (least_words ≤ length w1.now) × (least_words ≤ length w2.old) × KnownAccepted st w0.now w1.now }
    requires row_lt_most_rows { (row < most_rows) × (least_board ≤ length words.old) }
    ensures { RenewsBoard st w0.now w1.now w2.old w2.new row words.old words.new out.old out.new result }
{
    let mut placed = [0u64; memory::MOST_RULES as usize];
    let ends = &words[memory::BOARD_ENDS..memory::BOARD_END];
    let (end, steps) = renew(w0, st, w1, w2, row, ends, out, &mut placed)?;
    store_board(w0, st, &placed, words);
    Ok((end, steps))
}

// Makes the edit that the bytes of a line spell.
pub fn edit_board(
    line: &[u8],
    w0: &mut [u64],
    st: Counts,
    w1: &[u64],
    w2: &mut [u64],
    words: &mut [u64],
    out: &mut [u8],
) -> Result<(usize, u64), Refused>
    requires least_words_in_bounds { (least_words ≤ length w0.old) × (least_words ≤ length w1.now) × (least_words ≤ length w2.old) × (least_board ≤ length words.old) }
    requires known_accepted { KnownAccepted st w0.old w1.now }
    ensures { EditsBoard line.now st w0.old w0.new w1.now w2.old w2.new words.old words.new out.old out.new result }
{
    match replay_edit(line, words, w0, st) {
        Ok((edited, row)) => renew_board(w0, edited, w1, w2, row, words, out),
        Err(refusal) => Err(refusal.at(1)),
    }
}
