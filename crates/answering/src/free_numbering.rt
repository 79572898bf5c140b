// The types of the rules of a text that is held to the free-numbering profile.
ghost use Rattle.sheet.specs.Profile.{profile_of};
ghost use Rattle.sheet.specs.Soundness.{Lent};
ghost use Rattle.tables.specs.Layout.{Kept};
ghost use Rattle.rules.specs.Accepted.{KnownTyped};
ghost use Rattle.opening.specs.Parts.{Leaves, GivesFor};
ghost use Rattle.answering.specs.TypeLines.{Waiting, profiled};

use super::read::put_types;
use memory::refusals::Refusal;
use memory::words::wide;
use numbering::whole::lowest_outside;
use opening::{Answer, open_text, written};
use rules::typed::line_of;
use tables::Counts;

// The types of the accepted sheet in the words, put into out; or 22 at the lowest line outside the profile.
fn profile_on(w0: &[u64], st: Counts, w1: &mut [u64], w2: &mut [u64], out: &mut [u8]) -> Answer
    requires { Lent w0.now w1.old w2.old out.old × KnownTyped st w0.now w1.old w2.old × Waiting w2.old st.rules }
    ensures { GivesFor st w0.now w1.old w2.old profiled result out.old out.new × Kept w1.old w1.new × Kept w2.old w2.new }
{
    let p = lowest_outside(w0, st, w1, w2);
    if p < memory::NODES {
        return Answer::from(Refusal::OutsideProfile.at(line_of(w1, p as u64)));
    }
    written(put_types(w2, wide(st.rules), out), 0)
}

// The answer for the text, whatever the words held before; they are not wiped yet.
pub fn profile_answer(
    text: &[u8],
    w0: &mut [u64],
    w1: &mut [u64],
    w2: &mut [u64],
    out: &mut [u8],
) -> Answer
    requires { Lent w0.old w1.old w2.old out.old }
    ensures { Leaves (profile_of text.now) result w0.old w1.old w2.old out.old w0.new w1.new w2.new out.new }
{
    match open_text(text, w0, w1, w2) {
        Ok(st) => profile_on(w0, st, w1, w2, out),
        Err(refused) => Answer::from(refused),
    }
}
