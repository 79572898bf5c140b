// The call that evaluates a rule for an object. Document 01, Calls.
ghost use Rattle.sheet.specs.Calls.{evaluate_call};
ghost use Rattle.opening.specs.Answers.{AnswersWith};

use answering::evaluate::evaluate_answer;
use memory::refusals::Refusal;
use opening::{Answer, short_lent, wipe_all};

// Evaluates a rule for an object: 0 with `u` or the value's spelling in out, and the steps; else a refusal or a stop. A slice of words
// below 8,192, or an out below 2,560 bytes, is refused with 1.
pub fn ocl_evaluate_rule(
    text: &[u8],
    rule: u64,
    object: u64,
    w0: &mut [u64],
    w1: &mut [u64],
    w2: &mut [u64],
    out: &mut [u8],
) -> Answer
    ensures { AnswersWith (evaluate_call text.now rule object w0.old w1.old w2.old out.old) result w0.old w1.old w2.old out.old w0.new w1.new w2.new out.new }
{
    if short_lent(w0, w1, w2, out) {
        return Answer::from(Refusal::ShortBench.at(0));
    }
    let a = evaluate_answer(text, rule, object, w0, w1, w2, out);
    wipe_all(w0, w1, w2);
    a
}
