// Which rules were resolved to a row, as the bits of a word: there are at most 64 rules.
ghost use Rattle.std.specs.Prelude.{◌<◌, ◌≤◌, length};
ghost use Rattle.sheet.specs.Sizes.{least_words, most_rules, most_rows};
ghost use Rattle.rows.specs.Lines.{Rooted};
ghost use Rattle.renewal.specs.Touched.{TellsTouched, SetsBit};

use memory::words::wide;
use rows::seen::has_bit;
use tables::Counts;

// The word with bit i set, if `on` says so.
fn with_bit(word: u64, i: u64, on: bool) -> u64
    requires { i < most_rules }
    ensures { SetsBit word i on result }
{
    if on {
        return word | (1 << i);
    }
    word
}

// The rules whose root has the row among its rows, which are in w2.
pub fn touched_rules(w0: &[u64], st: Counts, w2: &[u64], row: u64) -> u64
    requires { (least_words ≤ length w0.now) × (least_words ≤ length w2.now) × (row < most_rows) × Rooted st w0.now }
    ensures { TellsTouched st w0.now w2.now row result }
{
    let rules = wide(st.rules);
    let mut touched: u64 = 0;
    for r in 0..rules {
        let root = wide(w0[memory::ROOTS + r]);
        let sees = has_bit(w2[root], row);
        touched = with_bit(touched, r as u64, sees);
    }
    touched
}
