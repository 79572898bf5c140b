// The call that writes the rows that each rule sees. Document 02, F-9.
ghost use Rattle.sheet.specs.Rows.{rows_call};
ghost use Rattle.opening.specs.Answers.{AnswersWith};

use answering::seen_rows::rows_answer;
use memory::refusals::Refusal;
use opening::{Answer, short_lent, wipe_all};

// Writes for each rule of a sheet a line with the rows that it sees: 0 with the lines in out, else a refusal, which leaves out as it is. A
// slice of words below 8,192, or an out below 2,560 bytes, is refused with 1.
pub fn ocl_rows(
    text: &[u8],
    w0: &mut [u64],
    w1: &mut [u64],
    w2: &mut [u64],
    out: &mut [u8],
) -> Answer
    ensures { AnswersWith (rows_call text.now w0.old w1.old w2.old out.old) result w0.old w1.old w2.old out.old w0.new w1.new w2.new out.new }
{
    if short_lent(w0, w1, w2, out) {
        return Answer::from(Refusal::ShortBench.at(0));
    }
    let a = rows_answer(text, w0, w1, w2, out);
    wipe_all(w0, w1, w2);
    a
}
