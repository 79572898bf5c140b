// `O n c`: object n of class c.
ghost use Rattle.std.specs.Prelude.{List, ℕ, ◌≤◌, ◌<◌, length};
ghost use Rattle.sheet.specs.Sizes.{least_words, most_classes, most_objects};
ghost use Rattle.sheet.specs.Lines.{object_line};
ghost use Rattle.tables.specs.Layout.{Fine, Took};
ghost use Rattle.declarations.specs.Taken.{Lettered, TookSpelled};

use super::pairs::read_pair;
use memory::lines;
use memory::refusals::Refusal;
use tables::Counts;
use text::parts::Fields;

// An O line: the object goes into its table.
pub fn object_line(line: &[u8], f: Fields, w0: &mut [u64], st: Counts) -> Result<Counts, Refusal>
    requires { Lettered "O" line.now f × (least_words ≤ length w0.old) × Fine st }
    ensures { (w1 : List ℕ) (k : ℕ) → Took st k line.now result w0.old w1 w0.new w1 }
{
    let (n, c) = read_pair(line, f, memory::MOST_OBJECTS)?;
    put_object(w0, st, n, c)
}

// Puts the object, whose number and class are within their limits.
fn put_object(w0: &mut [u64], st: Counts, n: u64, c: u64) -> Result<Counts, Refusal>
    requires { (least_words ≤ length w0.old) × Fine st × (n < most_objects) × (c < most_classes) }
    ensures { (w1 : List ℕ) (k : ℕ) → TookSpelled st k (object_line n c) result w0.old w1 w0.new w1 }
{
    if lines::OBJECTS < st.block {
        return Err(Refusal::OutOfRow);
    }
    if n != st.objects {
        return Err(Refusal::OutOfRow);
    }
    if st.classes <= c {
        return Err(Refusal::UnknownPart);
    }
    let i = memory::OBJECTS + n as usize;
    w0[i] = c;
    Ok(Counts {
        block: lines::OBJECTS,
        objects: n + 1,
        ..st
    })
}
