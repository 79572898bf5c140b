// How the running board lies in its words (document 02, F-10), and what is found there again, as definitions and laws; code: a board put
// there. It depends on `board` for what a board is, on `tables` for how slots lie in words, and on `rules` for laws of slots in words.
#![tactic(auto)]

ghost use Rattle.std.specs.Prelude.{◌≡◌, List, ℕ, ◌+◌, ◌≤◌, ◌<◌, length, take};
ghost use Rattle.std.proofs.Math.Seq.{paste};
ghost use Rattle.sheet.specs.Sizes.{least_words, most_rules};
ghost use Rattle.board.specs.Calls.{least_board};
ghost use Rattle.tables.specs.Layout.{Fine};
ghost use Rattle.board_words.specs.Layout.{padded, word_or, StoresBoard};

use memory::words::wide;
use tables::Counts;

// Word i of a table of n words, or 0 behind it.
fn word_or(table: &[u64], n: usize, i: usize) -> u64
    requires { n ≤ length table.now }
    ensures { result ≡ word_or table.now n i }
{
    if i < n {
        return table[i];
    }
    0
}

// Puts the n words of a table at `at`, and 0 behind them, as far as `room` words go.
fn put_table(words: &mut [u64], at: usize, room: usize, table: &[u64], n: usize)
    requires { (at + room ≤ length words.old) × (n ≤ length table.now) }
    ensures { words.new ≡ paste words.old at (padded room (take n table.now)) room }
{
    for i in 0..room {
        words[at + i] = word_or(table, n, i);
    }
}

// How many words each table has: two counts in front, then none up to the keys, and none behind the last table.
const COUNTS: usize = 2;

const UNUSED: usize = memory::KEYS - COUNTS;

const SLOTS: usize = memory::MOST_VALUES as usize;

const CELLS: usize = memory::MOST_CELLS as usize;

const RULES: usize = memory::MOST_RULES as usize;

const REST: usize = memory::LEAST_BOARD - memory::BOARD_END;

// Puts the board with the slots in w0 and with these ends of each rule's verdicts into the words.
pub fn store_board(w0: &[u64], st: Counts, ends: &[u64], words: &mut [u64])
    requires { (least_words ≤ length w0.now) × Fine st × (most_rules ≤ length ends.now) × (least_board ≤ length words.old) }
    ensures { (w1 : List ℕ) → StoresBoard st w0.now w1 ends.now words.old words.new }
{
    words[0] = st.slots;
    words[1] = st.cells;
    let slots = wide(st.slots);
    put_table(words, COUNTS, UNUSED, ends, 0);
    put_table(
        words,
        memory::KEYS,
        SLOTS,
        &w0[memory::KEYS..memory::STARTS],
        slots,
    );
    put_table(
        words,
        memory::STARTS,
        SLOTS,
        &w0[memory::STARTS..memory::CELLS],
        slots,
    );
    put_table(
        words,
        memory::CELLS,
        CELLS,
        &w0[memory::CELLS..memory::CELLS_END],
        wide(st.cells),
    );
    put_table(words, memory::BOARD_ENDS, RULES, ends, wide(st.rules));
    put_table(words, memory::BOARD_END, REST, ends, 0);
}
