// `C n p`: class n with its parent p, if it has one.
ghost use Rattle.std.specs.Prelude.{◌≡◌, List, ℕ, ◌≤◌, ◌<◌, length};
ghost use Rattle.sheet.specs.Sizes.{least_words, most_classes};
ghost use Rattle.sheet.specs.Lines.{class_line, a_parent};
ghost use Rattle.types.specs.Flat.{parent_of};
ghost use Rattle.tables.specs.Layout.{Fine, Took};
ghost use Rattle.declarations.specs.Fields.{parent_num};
ghost use Rattle.declarations.specs.Taken.{Lettered, TookSpelled};

use memory::lines;
use memory::refusals::Refusal;
use tables::Counts;
use text::numbers::number;
use text::parts::{Fields, field};
use text::words::letter;

// A C line: the class goes into its table.
pub fn class_line(line: &[u8], f: Fields, w0: &mut [u64], st: Counts) -> Result<Counts, Refusal>
    requires { Lettered "C" line.now f × (least_words ≤ length w0.old) × Fine st }
    ensures { (w1 : List ℕ) (k : ℕ) → Took st k line.now result w0.old w1 w0.new w1 }
{
    if f.count != 3 {
        return Err(Refusal::BadLine);
    }
    let n = number(field(line, f, 1)).ok_or(Refusal::BadLine)?;
    let p = parent(field(line, f, 2)).ok_or(Refusal::BadLine)?;
    if memory::MOST_CLASSES <= n {
        return Err(Refusal::OverMeasure);
    }
    if memory::MOST_CLASSES < p {
        return Err(Refusal::OverMeasure);
    }
    put_class(w0, st, n, p)
}

// A parent field: one more than the parent, 0 for `-`.
fn parent(f: &[u8]) -> Option<u64>
    ensures { result ≡ parent_num (a_parent f.now) }
{
    if letter(f) == b'-' {
        return Some(0);
    }
    let p = number(f)?;
    Some(p + 1)
}

// Puts the class, whose number and parent are within their limits; p is one more than the parent, or 0 for none.
fn put_class(w0: &mut [u64], st: Counts, n: u64, p: u64) -> Result<Counts, Refusal>
    requires { (least_words ≤ length w0.old) × Fine st × (n < most_classes) × (p ≤ most_classes) }
    ensures { (w1 : List ℕ) (k : ℕ) → TookSpelled st k (class_line n (parent_of p)) result w0.old w1 w0.new w1 }
{
    if lines::CLASSES < st.block {
        return Err(Refusal::OutOfRow);
    }
    if n != st.classes {
        return Err(Refusal::OutOfRow);
    }
    if n < p {
        return Err(Refusal::UnknownPart);
    }
    let i = n as usize;
    w0[i] = p;
    Ok(Counts {
        classes: n + 1,
        ..st
    })
}
