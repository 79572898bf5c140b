// An X line: its text is one field, held to its brackets (4) before its grammar (20).
ghost use Rattle.std.specs.Prelude.{◌≡◌, true, [], ◌≤◌, length, get_or};
ghost use Rattle.sheet.specs.Sizes.{least_words};
ghost use Rattle.sheet.specs.Text.{bytes, fields_of};
ghost use Rattle.sheet.specs.Lines.{is};
ghost use Rattle.text.specs.Parts.{Cut};
ghost use Rattle.tables.specs.Layout.{Fine};
ghost use Rattle.texts.specs.Judging.{TookText};

use super::judging::judge;
use descent::import;
use memory::refusals::Refusal;
use tables::Counts;
use text::parts::{Fields, field};
use tokens::few_open;

// Takes line k, whose first field is `X`.
pub fn text_line(
    line: &[u8],
    f: Fields,
    w0: &[u64],
    w1: &mut [u64],
    w2: &mut [u64],
    st: Counts,
    k: u64,
) -> Result<Counts, Refusal>
    requires { Cut line.now f × (is (get_or (fields_of line.now) 0 []) (bytes "X") ≡ true) × (least_words ≤ length w0.now) × (least_words ≤ length w1.old) × (least_words ≤ length w2.old) × Fine st }
    ensures { TookText st k line.now result w0.now w1.old w2.old w1.new w2.new }
{
    if f.count != 2 {
        return Err(Refusal::BadLine);
    }
    let text = field(line, f, 1);
    if !few_open(text) {
        return Err(Refusal::OverMeasure);
    }
    let Some(nodes) = import(text, w2, k) else {
        return Err(Refusal::NotASentence);
    };
    judge(w0, w1, w2, st, nodes, k)
}
