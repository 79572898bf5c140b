// An edit of the running board of a text.
ghost use Rattle.std.specs.Prelude.{◌≡◌, ◌≤◌, length};
ghost use Rattle.sheet.specs.Calls.{Verdict};
ghost use Rattle.sheet.specs.Soundness.{Lent};
ghost use Rattle.board.specs.Calls.{least_board};
ghost use Rattle.rules.specs.Accepted.{KnownTyped};
ghost use Rattle.opening.specs.Answers.{answer_of};
ghost use Rattle.editing.specs.Edited.{SaysEdit};
ghost use Rattle.answering.specs.Editing.{EditsOn, LeavesEdit};

use editing::edit_board;
use memory::refusals::Refused;
use opening::{Answer, open_text, written};
use tables::Counts;

// How an edit ended, as an answer.
fn edit_ended(e: Result<(usize, u64), Refused>) -> Answer
    ensures { (v : Verdict) → SaysEdit e v → result ≡ answer_of v }
{
    match e {
        Ok((end, steps)) => written(end, steps),
        Err(refused) => Answer::from(refused),
    }
}

// The edit of the board in the two slices, on the accepted sheet in the words.
fn edit_on(
    edit: &[u8],
    w0: &mut [u64],
    st: Counts,
    w1: &[u64],
    w2: &mut [u64],
    words: &mut [u64],
    out: &mut [u8],
) -> Answer
    requires { Lent w0.old w1.now w2.old out.old × (least_board ≤ length words.old) × KnownTyped st w0.old w1.now w2.old }
    ensures { EditsOn edit.now st w0.old w0.new w1.now w2.old w2.new words.old words.new out.old out.new result }
{
    edit_ended(edit_board(edit, w0, st, w1, w2, words, out))
}

// The answer for the text and the edit, whatever the words held before; they are not wiped yet.
pub fn edit_answer(
    text: &[u8],
    edit: &[u8],
    w0: &mut [u64],
    w1: &mut [u64],
    w2: &mut [u64],
    words: &mut [u64],
    out: &mut [u8],
) -> Answer
    requires { Lent w0.old w1.old w2.old out.old × (least_board ≤ length words.old) }
    ensures { LeavesEdit text.now edit.now result w0.old w1.old w2.old words.old out.old w0.new w1.new w2.new words.new out.new }
{
    match open_text(text, w0, w1, w2) {
        Ok(st) => edit_on(edit, w0, st, w1, w2, words, out),
        Err(refused) => Answer::from(refused),
    }
}
