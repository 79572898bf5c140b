// The running board of a text.
ghost use Rattle.std.specs.Prelude.{◌≤◌, length};
ghost use Rattle.sheet.specs.Soundness.{Lent};
ghost use Rattle.tables.specs.Layout.{Kept};
ghost use Rattle.rules.specs.Accepted.{KnownTyped};
ghost use Rattle.report.specs.Reports.{report_on};
ghost use Rattle.board.specs.Calls.{least_board};
ghost use Rattle.opening.specs.Parts.{GivesFor};
ghost use Rattle.answering.specs.Making.{LaysFor, LeavesMade};

use making::make_board;
use opening::{Answer, lines_answer, open_text};
use tables::Counts;

// The board of the accepted sheet in the words, put into the two slices, or 18.
fn make_on(
    w0: &[u64],
    st: Counts,
    w1: &[u64],
    w2: &mut [u64],
    words: &mut [u64],
    out: &mut [u8],
) -> Answer
    requires { Lent w0.now w1.now w2.old out.old × (least_board ≤ length words.old) × KnownTyped st w0.now w1.now w2.old }
    ensures { GivesFor st w0.now w1.now w2.old (λ s ts. report_on s (length out.old)) result out.old out.new × LaysFor st w0.now w1.now w2.old (length out.old) words.old words.new × Kept w2.old w2.new }
{
    lines_answer(make_board(w0, st, w1, w2, out, words))
}

// The answer for the text, whatever the words held before; they are not wiped yet.
pub fn make_answer(
    text: &[u8],
    w0: &mut [u64],
    w1: &mut [u64],
    w2: &mut [u64],
    words: &mut [u64],
    out: &mut [u8],
) -> Answer
    requires { Lent w0.old w1.old w2.old out.old × (least_board ≤ length words.old) }
    ensures { LeavesMade text.now result w0.old w1.old w2.old words.old out.old w0.new w1.new w2.new words.new out.new }
{
    match open_text(text, w0, w1, w2) {
        Ok(st) => make_on(w0, st, w1, w2, words, out),
        Err(refused) => Answer::from(refused),
    }
}
