// `V o a v`: the value v of row a for object o. A value's cells are written behind those of the slots so far before the line
// is judged: words behind a table's count are free, so a refusal leaves nothing to undo.
ghost use Rattle.std.specs.Prelude.{◌≡◌, true, List, [], ℕ, ◌+◌, ◌*◌, ◌<◌, ◌≤◌, length, get_or, set};
ghost use Rattle.memory.specs.Map as memory;
ghost use Rattle.sheet.specs.Sizes.{least_words, most_cells, most_objects, most_rows, most_values};
ghost use Rattle.sheet.specs.Text.{bytes, fields_of};
ghost use Rattle.sheet.specs.Lines.{is};
ghost use Rattle.sheet.specs.Refusals.{in_order, parts_known, suits};
ghost use Rattle.text.specs.Parts.{Cut};
ghost use Rattle.tables.specs.Layout.{Fine};
ghost use Rattle.slots.specs.Slots.{last_before, ReadInto, SlotAnswer, slot_counts, SlotTook, TookSlot};

use crate::objects::all_known;
use crate::order::in_order;
use crate::reader::read_value;
use crate::suits::{belongs, object_suits};
use memory::lines;
use memory::refusals::{Misread, Refusal};
use memory::words::{long, wide};
use tables::Counts;
use text::numbers::number;
use text::parts::{Fields, field};
use types::word::unpack;

// Reads the value of a field into the cells behind the first n.
fn read_into(f: &[u8], w0: &mut [u64], n: usize) -> Result<usize, Misread>
    requires { (n ≤ most_cells) × (least_words ≤ length w0.old) }
    ensures { ReadInto f.now n w0.old w0.new result }
{
    let from = memory::CELLS + n;
    read_value(f, &mut w0[from..memory::CELLS_END])
}

// Whether the key comes after that of the last of n slots.
fn after_last(w0: &[u64], n: usize, key: u64) -> bool
    requires { (n ≤ most_values) × (least_words ≤ length w0.now) }
    ensures { result ≡ last_before w0.now n key }
{
    n == 0 || w0[memory::KEYS + n - 1] < key
}

// Whether blocks, slots and members are in order.
fn slot_in_order(w0: &[u64], st: Counts, o: u64, a: u64, size: usize) -> bool
    requires { (least_words ≤ length w0.now) × Fine st × (o < most_objects) × (a < most_rows) × (st.cells + size ≤ most_cells) }
    ensures { SlotAnswer in_order st w0.now o a size result }
{
    let from = memory::CELLS + wide(st.cells);
    let to = from + size;
    st.block <= lines::VALUES
        && after_last(w0, wide(st.slots), o * memory::MOST_ROWS + a)
        && in_order(&w0[from..to])
}

// Whether the object, the row and the objects in the value are on the sheet.
fn slot_known(w0: &[u64], st: Counts, o: u64, a: u64, size: usize) -> bool
    requires { (least_words ≤ length w0.now) × Fine st × (st.cells + size ≤ most_cells) }
    ensures { SlotAnswer parts_known st w0.now o a size result }
{
    let from = memory::CELLS + wide(st.cells);
    let to = from + size;
    o < st.objects && a < st.rows && all_known(&w0[from..to], st.objects)
}

// Whether the object is of the row's class or below, and the value belongs to the row's type.
fn slot_suits(w0: &[u64], st: Counts, o: u64, a: u64, size: usize) -> bool
    requires { (least_words ≤ length w0.now) × Fine st × (a < most_rows) × (0 < size) × (st.cells + size ≤ most_cells) }
    ensures { a < st.rows → SlotAnswer suits st w0.now o a size result }
{
    let classes = wide(st.classes);
    let objects_end = memory::OBJECTS + wide(st.objects);
    let parents = &w0[..classes];
    let objects = &w0[memory::OBJECTS..objects_end];
    let i = wide(a);
    if !object_suits(parents, objects, o, w0[memory::OWNERS + i]) {
        return false;
    }
    let t = unpack(w0[memory::TYPES + i]);
    let from = memory::CELLS + wide(st.cells);
    let to = from + size;
    belongs(parents, objects, &w0[from..to], 0, size, t)
}

// Stores the slot's key and where its cells start; gives the counts with one slot more.
fn store_slot(w0: &mut [u64], st: Counts, key: u64, size: u64) -> Counts
    requires { (least_words ≤ length w0.old) × (st.slots < most_values) × (st.cells + size ≤ most_cells) }
    ensures { (result ≡ slot_counts st size) × (w0.new ≡ set (set w0.old (memory.keys + st.slots) key) (memory.starts + st.slots) st.cells) }
{
    let n = wide(st.slots);
    w0[memory::KEYS + n] = key;
    w0[memory::STARTS + n] = st.cells;
    Counts {
        block: lines::VALUES,
        slots: st.slots + 1,
        cells: st.cells + size,
        ..st
    }
}

// Puts the slot, or refuses it. Its value of `size` cells is written already, and within its limits.
pub fn put_slot(w0: &mut [u64], st: Counts, o: u64, a: u64, size: usize) -> Result<Counts, Refusal>
    requires { (least_words ≤ length w0.old) × Fine st × (0 < size) × (st.cells + size ≤ most_cells) }
    ensures { (w1 : List ℕ) (k : ℕ) → SlotTook st k o a size result w0.old w1 w0.new }
{
    if memory::MOST_OBJECTS <= o {
        return Err(Refusal::OverMeasure);
    }
    if memory::MOST_ROWS <= a {
        return Err(Refusal::OverMeasure);
    }
    if memory::MOST_VALUES <= st.slots {
        return Err(Refusal::OverMeasure);
    }
    if !slot_in_order(w0, st, o, a, size) {
        return Err(Refusal::OutOfRow);
    }
    if !slot_known(w0, st, o, a, size) {
        return Err(Refusal::UnknownPart);
    }
    if !slot_suits(w0, st, o, a, size) {
        return Err(Refusal::WrongThread);
    }
    Ok(store_slot(w0, st, o * memory::MOST_ROWS + a, long(size)))
}

// Takes a line whose first field is `V`.
pub fn value_line(line: &[u8], f: Fields, w0: &mut [u64], st: Counts) -> Result<Counts, Refusal>
    requires { Cut line.now f × (is (get_or (fields_of line.now) 0 []) (bytes "V") ≡ true) × (least_words ≤ length w0.old) × Fine st }
    ensures { (w1 : List ℕ) (k : ℕ) → TookSlot st k line.now result w0.old w1 w0.new w1 }
{
    if f.count != 4 {
        return Err(Refusal::BadLine);
    }
    let o = number(field(line, f, 1)).ok_or(Refusal::BadLine)?;
    let a = number(field(line, f, 2)).ok_or(Refusal::BadLine)?;
    let size = read_into(field(line, f, 3), w0, wide(st.cells))?;
    put_slot(w0, st, o, a, size)
}
