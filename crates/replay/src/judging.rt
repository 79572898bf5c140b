// An edit's line judged by itself, as a V line is on a sheet without values. Document 02, F-10.
ghost use Rattle.std.specs.Prelude.{◌≡◌, true, false, List, [], ℕ, ◌≤◌, length, get_or};
ghost use Rattle.sheet.specs.Sizes.{least_words};
ghost use Rattle.sheet.specs.Text.{bytes, fields_of};
ghost use Rattle.sheet.specs.Lines.{is};
ghost use Rattle.text.specs.Parts.{Cut};
ghost use Rattle.tables.specs.Layout.{Fine};
ghost use Rattle.replay.specs.Slots.{Lying};
ghost use Rattle.replay.specs.Judging.{empty_counts, clears_line, ClearingAs, Judges, OwnTook};

use memory::lines;
use memory::refusals::Refusal;
use memory::words::wide;
use slots::line::value_line;
use slots::suits::object_suits;
use tables::Counts;
use text::numbers::number;
use text::parts::{Fields, field};

// The counts of the sheet without its values, where V lines may come.
pub fn emptied(st: Counts) -> Counts
    ensures { result ≡ empty_counts st }
{
    Counts {
        block: lines::VALUES,
        slots: 0,
        cells: 0,
        open: lines::NOTHING_OPEN,
        ..st
    }
}

// Whether the line has `-` for its value.
fn clears(line: &[u8], f: Fields) -> bool
    requires { Cut line.now f }
    ensures { result ≡ clears_line (fields_of line.now) }
{
    f.count == 4 && field(line, f, 3) == b"-".as_slice()
}

// Judges the clearing of row a for object o; both numbers are a million at most.
fn judge_cleared(w0: &[u64], st: Counts, o: u64, a: u64) -> Result<u64, Refusal>
    requires { (least_words ≤ length w0.now) × Fine st }
    ensures { (w1 : List ℕ) → ClearingAs st o a w0.now w1 result }
{
    if memory::MOST_OBJECTS <= o || memory::MOST_ROWS <= a {
        return Err(Refusal::OverMeasure);
    }
    if st.objects <= o || st.rows <= a {
        return Err(Refusal::UnknownPart);
    }
    let classes = wide(st.classes);
    let objects_end = memory::OBJECTS + wide(st.objects);
    let i = wide(a);
    if !object_suits(
        &w0[..classes],
        &w0[memory::OBJECTS..objects_end],
        o,
        w0[memory::OWNERS + i],
    ) {
        return Err(Refusal::WrongThread);
    }
    Ok(o * memory::MOST_ROWS + a)
}

// Judges a line that clears.
fn judge_clearing(line: &[u8], f: Fields, w0: &[u64], st: Counts) -> Result<u64, Refusal>
    requires { Cut line.now f × (is (get_or (fields_of line.now) 0 []) (bytes "V") ≡ true) × (clears_line (fields_of line.now) ≡ true) × (least_words ≤ length w0.now) × Fine st }
    ensures { (w1 : List ℕ) → Judges line.now st result w0.now w1 w0.now }
{
    let Some(o) = number(field(line, f, 1)) else {
        return Err(Refusal::BadLine);
    };
    let Some(a) = number(field(line, f, 2)) else {
        return Err(Refusal::BadLine);
    };
    judge_cleared(w0, st, o, a)
}

// Any other line: its value is taken as the sheet's first one, and its key is read where it then lies.
fn judge_value(line: &[u8], f: Fields, w0: &mut [u64], st: Counts) -> Result<u64, Refusal>
    requires { Cut line.now f × (is (get_or (fields_of line.now) 0 []) (bytes "V") ≡ true) × (clears_line (fields_of line.now) ≡ false) × (least_words ≤ length w0.old) × Fine st }
    ensures { (w1 : List ℕ) → Judges line.now st result w0.old w1 w0.new }
{
    value_line(line, f, w0, emptied(st))?;
    Ok(w0[memory::KEYS])
}

// Judges the edit's line, whose first field is `V`.
pub fn judge(line: &[u8], f: Fields, w0: &mut [u64], st: Counts) -> Result<u64, Refusal>
    requires { Cut line.now f × (is (get_or (fields_of line.now) 0 []) (bytes "V") ≡ true) × (least_words ≤ length w0.old) × Fine st }
    ensures { (w1 : List ℕ) → Judges line.now st result w0.old w1 w0.new }
{
    if clears(line, f) {
        return judge_clearing(line, f, w0, st);
    }
    judge_value(line, f, w0, st)
}

// Takes the edit's own slot, if it has one: a line that clears has none.
pub fn own_slot(line: &[u8], f: Fields, w0: &mut [u64], st: Counts) -> Result<Counts, Refusal>
    requires { Cut line.now f × (is (get_or (fields_of line.now) 0 []) (bytes "V") ≡ true) × (least_words ≤ length w0.old) × Lying st w0.old }
    ensures { (w1 : List ℕ) → OwnTook line.now st result w0.old w1 w0.new }
{
    if clears(line, f) {
        return Ok(st);
    }
    value_line(line, f, w0, st)
}
