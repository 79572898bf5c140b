// All definitions and then all rules of a sheet typed in order: a sheet is accepted only if each is typed. Document 02, F-6 and F-13.
// All marks share one table, since nodes are numbered through definitions and rules; the rules' types wait in w2 until every rule has one.
ghost use Rattle.std.specs.Prelude.{◌≡◌, ◌≤◌, length};
ghost use Rattle.sheet.specs.Sizes.{least_words};
ghost use Rattle.rules.specs.Accepted.{Known};
ghost use Rattle.rules.specs.All.{cleared_marks, DefinesAll, TypesAll, KeepsMarks, Accepts};

use crate::typed::{define_numbered, line_of, type_numbered};
use memory::refusals::Refused;
use memory::words::wide;
use tables::Counts;
use types::word::pack;

// Sets all marks in w2 to 0.
fn clear_marks(w2: &mut [u64])
    requires { least_words ≤ length w2.old }
    ensures { w2.new ≡ cleared_marks w2.old }
{
    w2[..memory::NODES].fill(0);
}

// Types each definition: its marks are added to those in w2.
fn type_definitions(w0: &[u64], st: Counts, w1: &[u64], w2: &mut [u64]) -> Result<(), Refused>
    requires least_words_in_bounds { (least_words ≤ length w0.now) × (least_words ≤ length w1.now) × (least_words ≤ length w2.old) }
    requires known { Known st w0.now w1.now }
    ensures { DefinesAll st w0.now w1.now w2.old w2.new result }
{
    for d in 0..wide(st.definitions) {
        if let Err(refused) = define_numbered(w0, st, w1, w2, d) {
            return Err(refused.refusal.at(line_of(w1, refused.place)));
        }
    }
    Ok(())
}

// Types each rule: its marks are added to those in w2, and its type is put behind them.
fn type_all(w0: &[u64], st: Counts, w1: &[u64], w2: &mut [u64]) -> Result<(), Refused>
    requires least_words_in_bounds { (least_words ≤ length w0.now) × (least_words ≤ length w1.now) × (least_words ≤ length w2.old) }
    requires known { Known st w0.now w1.now }
    ensures { TypesAll st w0.now w1.now w2.old w2.new result }
{
    for r in 0..wide(st.rules) {
        match type_numbered(w0, st, w1, w2, r) {
            Err(refused) => {
                return Err(refused.refusal.at(line_of(w1, refused.place)));
            }
            Ok(t) => {
                w2[memory::RULE_TYPES + r] = pack(t);
            }
        }
    }
    Ok(())
}

// Copies the marks that typing left in w2 to w1: evaluation needs w2 for its values. It is a loop, since the archive for C would need
// `memmove` for `copy_from_slice`.
fn keep_marks(w2: &[u64], w1: &mut [u64])
    requires { (least_words ≤ length w1.old) × (least_words ≤ length w2.now) }
    ensures { KeepsMarks w2.now w1.old w1.new }
{
    for p in 0..memory::NODES {
        w1[memory::MARKS + p] = w2[p];
    }
}

// Types the definitions and then the rules of the sheet that lies in the words, and keeps their marks.
pub fn accept(w0: &[u64], st: Counts, w1: &mut [u64], w2: &mut [u64]) -> Result<(), Refused>
    requires least_words_in_bounds { (least_words ≤ length w0.now) × (least_words ≤ length w1.old) × (least_words ≤ length w2.old) }
    requires known { Known st w0.now w1.old }
    ensures { Accepts st w0.now w1.old w2.old w1.new w2.new result }
{
    clear_marks(w2);
    type_definitions(w0, st, w1, w2)?;
    let typed = type_all(w0, st, w1, w2);
    keep_marks(w2, w1);
    typed
}
