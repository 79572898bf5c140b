// An edit of a running board: its line read and judged, and the board's slots with the edit made put onto the sheet in the words, each
// as its V line would be. Document 02, F-10. It depends on `slots`, which takes V lines, on `board` and `board_words` for what a board is
// and how it lies in words, and on `rules` for the accepted sheet.
#![tactic(auto)]

ghost use Rattle.std.specs.Prelude.{◌≡◌, true, List, [], ℕ, ◌<◌, ◌≤◌, length, get_or};
ghost use Rattle.sheet.specs.Sizes.{least_words};
ghost use Rattle.sheet.specs.Text.{bytes, fields_of};
ghost use Rattle.sheet.specs.Lines.{is};
ghost use Rattle.board.specs.Calls.{least_board};
ghost use Rattle.text.specs.Parts.{Cut};
ghost use Rattle.replay.specs.Slots.{Lying};
ghost use Rattle.replay.specs.Replays.{last_counts, Spelled, Replaying, EditTook, Replays};

use crate::judging::{emptied, judge, own_slot};
use crate::taking::{slot_after, slots_before, take_slots};
use memory::lines;
use memory::refusals::Refusal;
use memory::words::wide;
use tables::Counts;
use text::parts::{Fields, cut, field, find};
use text::words::{byte_kind, letter};

pub mod judging; // an edit's line by itself
pub mod taking; // the slots in a board's words
pub mod value; // cells that are a value's

// The counts of a sheet that has been read to its last block.
fn finished(st: Counts) -> Counts
    ensures { result ≡ last_counts st }
{
    Counts {
        block: lines::RULES,
        ..st
    }
}

// How many slots there may be.
const MOST_SLOTS: usize = memory::MOST_VALUES as usize;

// Takes the slots with the edit made: those before it, its own, and those after it.
fn replay(
    own: &[u8],
    f: Fields,
    key: u64,
    words: &[u64],
    w0: &mut [u64],
    st: Counts,
) -> Result<Counts, Refusal>
    requires { Cut own.now f × (is (get_or (fields_of own.now) 0 []) (bytes "V") ≡ true) × Spelled own.now × (least_board ≤ length words.now) × (least_words ≤ length w0.old) × Lying st w0.old }
    ensures { (w1 : List ℕ) → Replaying own.now key words.now st result w0.old w1 w0.new }
{
    let n = wide(words[0]);
    if MOST_SLOTS < n {
        return Err(Refusal::OverMeasure);
    }
    let p = slots_before(words, n, key);
    let a = take_slots(words, n, 0, p, w0, st)?;
    let b = own_slot(own, f, w0, a)?;
    take_slots(words, n, slot_after(words, n, p, key), n, w0, b)
}

// The edit's line, whose first field is `V`.
fn edit_slots(
    own: &[u8],
    f: Fields,
    words: &[u64],
    w0: &mut [u64],
    st: Counts,
) -> Result<(Counts, u64), Refusal>
    requires { Cut own.now f × (is (get_or (fields_of own.now) 0 []) (bytes "V") ≡ true) × (least_board ≤ length words.now) × (least_words ≤ length w0.old) × Lying st w0.old }
    ensures { (w1 : List ℕ) → EditTook own.now words.now st result w0.old w1 w0.new }
{
    let key = judge(own, f, w0, st)?;
    match replay(own, f, key, words, w0, emptied(st)) {
        Ok(su) => Ok((finished(su), key % memory::MOST_ROWS)),
        Err(_) => Err(Refusal::BoardFull),
    }
}

// The edit's line, without its line feed.
fn edit_line(
    own: &[u8],
    words: &[u64],
    w0: &mut [u64],
    st: Counts,
) -> Result<(Counts, u64), Refusal>
    requires { (least_board ≤ length words.now) × (least_words ≤ length w0.old) × Lying st w0.old }
    ensures { (w1 : List ℕ) → EditTook own.now words.now st result w0.old w1 w0.new }
{
    let f = cut(own);
    if byte_kind(letter(field(own, f, 0))) != lines::VALUE_LINE {
        return Err(Refusal::BadLine);
    }
    edit_slots(own, f, words, w0, st)
}

// The edit of a board that lies in `words`, made on the accepted sheet in w0: one line with its line feed, and nothing behind it. Whatever
// else the words hold, a sheet lies in w0 afterwards, or the edit is refused.
pub fn replay_edit(
    line: &[u8],
    words: &[u64],
    w0: &mut [u64],
    st: Counts,
) -> Result<(Counts, u64), Refusal>
    requires { (least_board ≤ length words.now) × (least_words ≤ length w0.old) × Lying st w0.old }
    ensures { (w1 : List ℕ) → Replays line.now words.now st w0.old w1 w0.new result }
{
    let e = find(line, 10);
    if line.len() <= e || e + 1 < line.len() {
        return Err(Refusal::BadLine);
    }
    edit_line(&line[..e], words, w0, st)
}
