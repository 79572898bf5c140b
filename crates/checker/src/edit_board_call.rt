// The call that edits a running board. Document 02, F-10.
ghost use Rattle.board_words.proofs.Found.{layout};
ghost use Rattle.checker.specs.Boards.{AnswersEdit};

use super::make_board_call::short_board;
use answering::edit::edit_answer;
use memory::refusals::Refusal;
use opening::{Answer, wipe_all};

// Edits the running board of a sheet: 0 with all verdicts in out, the board after the edit in words and the steps of the rules that were
// evaluated again, else a refusal, which leaves both as they are. A slice of words below 8,192, or an out below 2,560 bytes, is refused
// with 1. The text is the one that the board was made of, and nobody else has touched the board: else the call only ends.
pub fn ocl_edit_board(
    text: &[u8],
    edit: &[u8],
    w0: &mut [u64],
    w1: &mut [u64],
    w2: &mut [u64],
    words: &mut [u64],
    out: &mut [u8],
) -> Answer
    ensures { AnswersEdit layout text.now edit.now result w0.old w1.old w2.old words.old out.old w0.new w1.new w2.new words.new out.new }
{
    if short_board(w0, w1, w2, words, out) {
        return Answer::from(Refusal::ShortBench.at(0));
    }
    let a = edit_answer(text, edit, w0, w1, w2, words, out);
    wipe_all(w0, w1, w2);
    a
}
