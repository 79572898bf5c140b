// The types of the rules of a text.
ghost use Rattle.std.specs.Prelude.{◌≤◌, length};
ghost use Rattle.sheet.specs.Sizes.{least_output, least_words};
ghost use Rattle.sheet.specs.Calls.{answer as answerWith, on_accepted, type_lines};
ghost use Rattle.sheet.specs.Soundness.{Lent};
ghost use Rattle.opening.specs.Parts.{Leaves};
ghost use Rattle.answering.specs.TypeLines.{Waiting, PutsTypes};

use memory::words::wide;
use opening::{Answer, open_text, written};
use text::spelling::put_byte;
use types::spelling::put_type;
use types::word::unpack;

// Puts the types that wait in w2 into out, one a line, and answers where the last line ends.
pub fn put_types(w2: &[u64], rules: usize, out: &mut [u8]) -> usize
    requires { (least_words ≤ length w2.now) × (least_output ≤ length out.old) × Waiting w2.now rules }
    ensures { PutsTypes w2.now rules out.old out.new result }
{
    let mut at: usize = 0;
    for ty in &w2[memory::RULE_TYPES..memory::RULE_TYPES + rules] {
        let end = put_type(out, at, unpack(*ty));
        at = put_byte(out, end, b'\n');
    }
    at
}

// The answer for the text, whatever the words held before; they are not wiped yet.
pub fn read_answer(
    text: &[u8],
    w0: &mut [u64],
    w1: &mut [u64],
    w2: &mut [u64],
    out: &mut [u8],
) -> Answer
    requires { Lent w0.old w1.old w2.old out.old }
    ensures { Leaves (on_accepted text.now (λ s ts. answerWith (type_lines ts))) result w0.old w1.old w2.old out.old w0.new w1.new w2.new out.new }
{
    match open_text(text, w0, w1, w2) {
        Ok(st) => written(put_types(w2, wide(st.rules), out), 0),
        Err(refused) => Answer::from(refused),
    }
}
