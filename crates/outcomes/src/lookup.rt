// What evaluation finds in the tables: an object's class, a row's owner, the value of a row for an object.
ghost use Rattle.std.specs.Prelude.{◌≡◌, ℕ, ◌+◌, ◌≤◌, ◌<◌, length};
ghost use Rattle.ocl.specs.Forms.{of_object};
ghost use Rattle.ocl.specs.Values.{largest};
ghost use Rattle.sheet.specs.Sizes.{least_words, most_rows, most_values};
ghost use Rattle.outcomes.specs.Tables.{Bounds, IsA, Owner, FindsSlot, cells_start, SlotStands, IsObject, HasRow, RowSlot, Accesses};

use crate::Ended;
use crate::answers::formed;
use memory::words::wide;
use tables::Counts;
use types::classes::class_below;
use values::cells::{OBJECT, payload_of, push_cells, sort_of};

// Whether object o is of class c or below it.
pub fn is_a(tables: &[u64], st: Counts, o: u64, c: u64) -> bool
    requires { Bounds st (length tables.now) }
    ensures { IsA st tables.now o c result }
{
    o < st.objects
        && class_below(
            &tables[..wide(st.classes)],
            tables[memory::OBJECTS + wide(o)],
            c,
        )
}

// The class that declares row i, or 0 if there is no such row.
pub fn owner(tables: &[u64], st: Counts, i: u64) -> u64
    requires { Bounds st (length tables.now) }
    ensures { Owner st tables.now i result }
{
    if st.rows <= i {
        return 0;
    }
    tables[memory::OWNERS + wide(i)]
}

// The slot with this key, by binary search: slots stand in ascending order of their keys. The search ends where the key is met; the
// library's goes on, and `collect` over many objects took half as long again with it.
pub fn find_slot(tables: &[u64], slots: usize, key: u64) -> Option<usize>
    requires { (slots ≤ most_values) × (least_words ≤ length tables.now) }
    ensures { FindsSlot tables.now slots key result }
{
    let mut low = 0;
    let mut high = slots;
    while low < high {
        let mid = low + (high - low) / 2;
        let k = tables[memory::KEYS + mid];
        if k == key {
            return Some(mid);
        }
        if k < key {
            low = mid + 1;
        } else {
            high = mid;
        }
    }
    None
}

// Where slot j's cells start; for the place after the last slot, where all cells end.
fn start_of(tables: &[u64], st: Counts, j: usize) -> u64
    requires { (j ≤ most_values) × (least_words ≤ length tables.now) }
    ensures { result ≡ cells_start st tables.now j }
{
    if wide(st.slots) == j {
        return st.cells;
    }
    tables[memory::STARTS + j]
}

// Copies the value in slot j to sp.
pub fn bring(
    tables: &[u64],
    st: Counts,
    j: usize,
    stack: &mut [u64],
    sp: usize,
    steps: u64,
) -> Ended
    requires { (j < most_values) × (least_words ≤ length tables.now) × (sp + largest ≤ length stack.old) }
    ensures { SlotStands st tables.now j sp steps stack.old stack.new result }
{
    let a = start_of(tables, st, j);
    let e = start_of(tables, st, j + 1);
    if e <= a || memory::MOST_CELLS < e {
        return Ended::Stuck;
    }
    formed(
        push_cells(
            stack,
            sp,
            tables,
            memory::CELLS + wide(a),
            memory::CELLS + wide(e),
        ),
        steps,
    )
}

// Whether the value with this first cell is an object of class c or below it.
pub fn is_object(tables: &[u64], st: Counts, c: u64, cell: u64) -> bool
    requires { Bounds st (length tables.now) }
    ensures { IsObject st tables.now c cell result }
{
    sort_of(cell) == OBJECT && is_a(tables, st, payload_of(cell), c)
}

// Whether the value with this first cell is an object that has row i: one of the class that declares the row, or below it.
pub fn has_row(tables: &[u64], st: Counts, i: u64, cell: u64) -> bool
    requires { Bounds st (length tables.now) }
    ensures { HasRow st tables.now i cell result }
{
    let c = owner(tables, st, i);
    is_object(tables, st, c, cell)
}

// The slot of row i for the object with this cell.
pub fn row_slot(tables: &[u64], st: Counts, i: u64, cell: u64) -> Option<usize>
    requires { Bounds st (length tables.now) × (i < most_rows) }
    ensures { RowSlot st tables.now i cell result }
{
    find_slot(
        tables,
        wide(st.slots),
        payload_of(cell) * memory::MOST_ROWS + i,
    )
}

// `attr`: replaces the object at sp by its value in the row that the node is marked with.
pub fn attribute_of(
    tables: &[u64],
    st: Counts,
    mark: u64,
    stack: &mut [u64],
    sp: usize,
    steps: u64,
) -> Ended
    requires { Bounds st (length tables.now) × (sp + largest ≤ length stack.old) }
    ensures { (len : ℕ) → Accesses of_object st tables.now mark sp len steps stack.old stack.new result }
{
    let i = mark % memory::MOST_ROWS;
    let cell = stack[sp];
    if has_row(tables, st, i, cell) {
        let Some(j) = row_slot(tables, st, i, cell) else {
            return Ended::Undef { steps };
        };
        bring(tables, st, j, stack, sp, steps)
    } else {
        Ended::Stuck
    }
}
