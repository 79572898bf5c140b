// The call that makes a running board. Document 02, F-10.
ghost use Rattle.std.specs.Prelude.{◌≡◌};
ghost use Rattle.board.specs.Calls.{short_board};
ghost use Rattle.board_words.proofs.Found.{layout};
ghost use Rattle.checker.specs.Boards.{AnswersMade};

use answering::make::make_answer;
use memory::refusals::Refusal;
use opening::{Answer, short_lent, wipe_all};

// Whether one of the five slices is too short.
pub fn short_board(w0: &[u64], w1: &[u64], w2: &[u64], words: &[u64], out: &[u8]) -> bool
    ensures { result ≡ short_board w0.now w1.now w2.now words.now out.now }
{
    short_lent(w0, w1, w2, out) || words.len() < memory::LEAST_BOARD
}

// Makes the running board of a sheet: 0 with all verdicts in out and the board in words, else a refusal, which leaves both as they are. A
// slice of words below 8,192, or an out below 2,560 bytes, is refused with 1.
pub fn ocl_make_board(
    text: &[u8],
    w0: &mut [u64],
    w1: &mut [u64],
    w2: &mut [u64],
    words: &mut [u64],
    out: &mut [u8],
) -> Answer
    ensures { AnswersMade layout text.now result w0.old w1.old w2.old words.old out.old w0.new w1.new w2.new words.new out.new }
{
    if short_board(w0, w1, w2, words, out) {
        return Answer::from(Refusal::ShortBench.at(0));
    }
    let a = make_answer(text, w0, w1, w2, words, out);
    wipe_all(w0, w1, w2);
    a
}
