// `A n c name T`: attribute row n of class c, with its name and its type.
ghost use Rattle.std.specs.Prelude.{◌≡◌, true, ◌&&◌, List, ℕ, ◌+◌, ◌≤◌, ◌<◌, ltb, length};
ghost use Rattle.memory.specs.Map as memory;
ghost use Rattle.sheet.specs.Sizes.{least_words, most_rows, most_names};
ghost use Rattle.sheet.specs.Lines.{row_line};
ghost use Rattle.sheet.specs.Limits.{is_class, class_below, type_within};
ghost use Rattle.types.specs.Flat.{ty_of};
ghost use Rattle.tables.specs.Layout.{tab, Fine, Took};
ghost use Rattle.declarations.specs.Fields.{named_in};
ghost use Rattle.declarations.specs.Taken.{Lettered, TookSpelled};

use memory::lines;
use memory::refusals::Refusal;
use tables::Counts;
use text::numbers::number;
use text::parts::{Fields, field};
use types::FlatType;
use types::order::{class_in, tag};
use types::reading::read_type;
use types::word::pack;

// An A line: the row goes into its tables.
pub fn row_line(line: &[u8], f: Fields, w0: &mut [u64], st: Counts) -> Result<Counts, Refusal>
    requires { Lettered "A" line.now f × (least_words ≤ length w0.old) × Fine st }
    ensures { (w1 : List ℕ) (k : ℕ) → Took st k line.now result w0.old w1 w0.new w1 }
{
    if f.count != 5 {
        return Err(Refusal::BadLine);
    }
    let n = number(field(line, f, 1)).ok_or(Refusal::BadLine)?;
    let c = number(field(line, f, 2)).ok_or(Refusal::BadLine)?;
    let name = number(field(line, f, 3)).ok_or(Refusal::BadLine)?;
    let t = read_type(field(line, f, 4))?;
    if !numbers_within(n, c, name) {
        return Err(Refusal::OverMeasure);
    }
    put_row(w0, st, n, c, name, t)
}

// Whether all three are numbers that a row, a class and a name may have.
fn numbers_within(n: u64, c: u64, name: u64) -> bool
    ensures { result ≡ (ltb n most_rows && is_class c && ltb name most_names) }
{
    n < memory::MOST_ROWS && c < memory::MOST_CLASSES && name < memory::MOST_NAMES
}

// Puts the row, whose numbers and type are within their limits.
fn put_row(
    w0: &mut [u64],
    st: Counts,
    n: u64,
    c: u64,
    name: u64,
    t: FlatType,
) -> Result<Counts, Refusal>
    requires { (least_words ≤ length w0.old) × Fine st × ((ltb n most_rows && is_class c && ltb name most_names) ≡ true) × (type_within (ty_of t) ≡ true) }
    ensures { (w1 : List ℕ) (k : ℕ) → TookSpelled st k (row_line n c name (ty_of t)) result w0.old w1 w0.new w1 }
{
    if lines::ROWS < st.block {
        return Err(Refusal::OutOfRow);
    }
    if n != st.rows {
        return Err(Refusal::OutOfRow);
    }
    let i = n as usize;
    if declares(w0, i, c, name) {
        return Err(Refusal::OutOfRow);
    }
    if st.classes <= c {
        return Err(Refusal::UnknownPart);
    }
    if !class_known(t, st.classes) {
        return Err(Refusal::UnknownPart);
    }
    w0[memory::OWNERS + i] = c;
    w0[memory::NAMES + i] = name;
    w0[memory::TYPES + i] = pack(t);
    Ok(Counts {
        block: lines::ROWS,
        rows: n + 1,
        ..st
    })
}

// Whether class c declares the name in one of the rows so far.
fn declares(w0: &[u64], rows: usize, c: u64, name: u64) -> bool
    requires { (least_words ≤ length w0.now) × (rows ≤ most_rows) }
    ensures { result ≡ named_in (tab memory.owners rows w0.now) (tab memory.names rows w0.now) c name }
{
    (0..rows).any(|i| w0[memory::OWNERS + i] == c && w0[memory::NAMES + i] == name)
}

// Whether the class inside a type, if there is one, is among the classes.
pub fn class_known(t: FlatType, classes: u64) -> bool
    ensures { result ≡ class_below classes (ty_of t) }
{
    let b = t.base;
    tag(b) != 5 || u64::from(class_in(b)) < classes
}
