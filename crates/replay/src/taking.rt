// The slots in a board's words, each taken as its V line would be.
ghost use Rattle.std.specs.Prelude.{◌≡◌, List, ℕ, ◌+◌, ◌<◌, ◌≤◌, length};
ghost use Rattle.sheet.specs.Sizes.{least_words, most_values};
ghost use Rattle.board.specs.Calls.{least_board};
ghost use Rattle.replay.specs.Slots.{end_in, after_in, FirstFrom, Lying, CellsTook, SlotReplayed, SlotsReplayed, most_keys};

use crate::value::is_value;
use memory::refusals::Refusal;
use memory::words::wide;
use slots::line::put_slot;
use tables::Counts;
use values::cells::copy_cells;

// Keys are below this.
const MOST_KEYS: u64 = memory::MOST_OBJECTS * memory::MOST_ROWS;
// There are at most this many cells.
const MOST_CELLS: usize = memory::MOST_CELLS as usize;

// Where the cells of slot j of n end: where those of the next one start, or behind the last cell.
fn end_of(words: &[u64], n: usize, j: usize) -> u64
    requires { (least_board ≤ length words.now) × (j < n) × (n ≤ most_values) }
    ensures { result ≡ end_in words.now n j }
{
    if j + 1 == n {
        return words[1];
    }
    words[memory::STARTS + (j + 1)]
}

// Takes the slot with this key and these cells.
fn take_cells(cells: &[u64], key: u64, w0: &mut [u64], st: Counts) -> Result<Counts, Refusal>
    requires { (least_words ≤ length w0.old) × Lying st w0.old × (0 < length cells.now) × (key < most_keys) }
    ensures { (w1 : List ℕ) → CellsTook cells.now key st result w0.old w1 w0.new }
{
    if !is_value(cells) {
        return Err(Refusal::OverMeasure);
    }
    let used = wide(st.cells);
    if MOST_CELLS - used < cells.len() {
        return Err(Refusal::OverMeasure);
    }
    copy_cells(w0, memory::CELLS + used, cells);
    put_slot(
        w0,
        st,
        key / memory::MOST_ROWS,
        key % memory::MOST_ROWS,
        cells.len(),
    )
}

// Takes slot j of the n slots in the words.
fn take_slot(
    words: &[u64],
    n: usize,
    j: usize,
    w0: &mut [u64],
    st: Counts,
) -> Result<Counts, Refusal>
    requires { (least_board ≤ length words.now) × (least_words ≤ length w0.old) × Lying st w0.old × (j < n) × (n ≤ most_values) }
    ensures { (w1 : List ℕ) → SlotReplayed words.now n j st result w0.old w1 w0.new }
{
    let key = words[memory::KEYS + j];
    if MOST_KEYS <= key {
        return Err(Refusal::OverMeasure);
    }
    let from = wide(words[memory::STARTS + j]);
    let to = wide(end_of(words, n, j));
    if MOST_CELLS < to || to <= from {
        return Err(Refusal::OverMeasure);
    }
    let a = memory::CELLS + from;
    let e = memory::CELLS + to;
    take_cells(&words[a..e], key, w0, st)
}

// Takes the slots from `from` to `to` of the n slots in the words, one after the other.
pub fn take_slots(
    words: &[u64],
    n: usize,
    from: usize,
    to: usize,
    w0: &mut [u64],
    st: Counts,
) -> Result<Counts, Refusal>
    requires { (least_board ≤ length words.now) × (least_words ≤ length w0.old) × Lying st w0.old × (from ≤ to) × (to ≤ n) × (n ≤ most_values) }
    ensures { (w1 : List ℕ) → SlotsReplayed words.now n from to st result w0.old w1 w0.new }
{
    let mut su = st;
    for j in from..to {
        su = take_slot(words, n, j, w0, su)?;
    }
    Ok(su)
}

// How many of the n slots come before the key.
pub fn slots_before(words: &[u64], n: usize, key: u64) -> usize
    requires { (least_board ≤ length words.now) × (n ≤ most_values) }
    ensures { FirstFrom words.now n key result }
{
    words[memory::KEYS..memory::KEYS + n]
        .iter()
        .position(|k| key <= *k)
        .unwrap_or(n)
}

// The first of the n slots that comes after the key, where p come before it.
pub fn slot_after(words: &[u64], n: usize, p: usize, key: u64) -> usize
    requires { (least_board ≤ length words.now) × (p ≤ n) × (n ≤ most_values) }
    ensures { result ≡ after_in words.now n p key }
{
    if p < n && words[memory::KEYS + p] == key {
        return p + 1;
    }
    p
}
