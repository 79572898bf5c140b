// Where each undefined verdict of a text came from.
ghost use Rattle.std.specs.Prelude.{length};
ghost use Rattle.sheet.specs.Origin.{origins_of};
ghost use Rattle.sheet.specs.Soundness.{Lent};
ghost use Rattle.tables.specs.Layout.{Kept};
ghost use Rattle.rules.specs.Accepted.{KnownTyped};
ghost use Rattle.report.specs.Reports.{origins_on};
ghost use Rattle.opening.specs.Parts.{Leaves, GivesFor};

use opening::{Answer, lines_answer, open_text};
use report::origins_sheet;
use tables::Counts;

// The lines of the accepted sheet in the words, put into out, or 18.
fn origins_on(w0: &[u64], st: Counts, w1: &[u64], w2: &mut [u64], out: &mut [u8]) -> Answer
    requires { Lent w0.now w1.now w2.old out.old × KnownTyped st w0.now w1.now w2.old }
    ensures { GivesFor st w0.now w1.now w2.old (λ s ts. origins_on s (length out.old)) result out.old out.new × Kept w2.old w2.new }
{
    lines_answer(origins_sheet(w0, st, w1, w2, out))
}

// The answer for the text, whatever the words held before; they are not wiped yet.
pub fn origins_answer(
    text: &[u8],
    w0: &mut [u64],
    w1: &mut [u64],
    w2: &mut [u64],
    out: &mut [u8],
) -> Answer
    requires { Lent w0.old w1.old w2.old out.old }
    ensures { Leaves (origins_of text.now (length out.old)) result w0.old w1.old w2.old out.old w0.new w1.new w2.new out.new }
{
    match open_text(text, w0, w1, w2) {
        Ok(st) => origins_on(w0, st, w1, w2, out),
        Err(refused) => Answer::from(refused),
    }
}
