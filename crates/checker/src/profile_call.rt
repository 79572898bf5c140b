// The call that reads a sheet and holds it to the free-numbering profile. Document 02, F-12.
ghost use Rattle.sheet.specs.Profile.{profile_call};
ghost use Rattle.opening.specs.Answers.{AnswersWith};

use answering::free_numbering::profile_answer;
use memory::refusals::Refusal;
use opening::{Answer, short_lent, wipe_all};

// Reads a sheet and types all its rules as `ocl_read_sheet` does, and refuses with 22 what is outside the free-numbering profile. A slice
// of words below 8,192, or an out below 2,560 bytes, is refused with 1.
pub fn ocl_read_free_numbering(
    text: &[u8],
    w0: &mut [u64],
    w1: &mut [u64],
    w2: &mut [u64],
    out: &mut [u8],
) -> Answer
    ensures { AnswersWith (profile_call text.now w0.old w1.old w2.old out.old) result w0.old w1.old w2.old out.old w0.new w1.new w2.new out.new }
{
    if short_lent(w0, w1, w2, out) {
        return Answer::from(Refusal::ShortBench.at(0));
    }
    let a = profile_answer(text, w0, w1, w2, out);
    wipe_all(w0, w1, w2);
    a
}
