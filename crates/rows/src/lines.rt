// The lines of the rules: a rule, then the rows that it sees, ascending, each behind a space.
ghost use Rattle.std.specs.Prelude.{◌+◌, ◌<◌, ◌≤◌, length};
ghost use Rattle.sheet.specs.Sizes.{least_words, most_rows, most_rules};
ghost use Rattle.rows.specs.Lines.{PutsRows, row_field, fields_of, line_of, Rooted, PutsLines};

use crate::seen::has_bit;
use memory::words::wide;
use tables::Counts;
use text::spelling::{put_byte, put_number};

// Puts row i, if it is seen.
fn put_row(out: &mut [u8], at: usize, seen: u64, i: u64) -> usize
    requires { (i < most_rows) × (at + 3 ≤ length out.old) }
    ensures { PutsRows (row_field i) 3 seen at out.old out.new result }
{
    if has_bit(seen, i) {
        let digits = put_byte(out, at, b' ');
        return put_number(out, digits, i);
    }
    at
}

// Puts the rows that are seen, of the first `rows`.
fn put_rows(out: &mut [u8], at: usize, seen: u64, rows: u64) -> usize
    requires { (rows ≤ most_rows) × (at + 192 ≤ length out.old) }
    ensures { PutsRows (fields_of rows) 192 seen at out.old out.new result }
{
    let mut end = at;
    for i in 0..rows {
        end = put_row(out, end, seen, i);
    }
    end
}

// Puts the line of a rule.
fn put_line(out: &mut [u8], at: usize, rule: u64, seen: u64, rows: u64) -> usize
    requires { (rule < most_rules) × (rows ≤ most_rows) × (at + 195 ≤ length out.old) }
    ensures { PutsRows (line_of rows rule) 195 seen at out.old out.new result }
{
    let first = put_number(out, at, rule);
    let end = put_rows(out, first, seen, rows);
    put_byte(out, end, b'\n')
}

// Puts the lines of all rules; w2 has the rows of their roots.
pub fn put_lines(w0: &[u64], st: Counts, w2: &[u64], out: &mut [u8]) -> usize
    requires { (least_words ≤ length w0.now) × (least_words ≤ length w2.now) × (12480 ≤ length out.old) × Rooted st w0.now }
    ensures { PutsLines st w0.now w2.now out.old out.new result }
{
    let mut end = 0;
    for r in 0..wide(st.rules) {
        let root = wide(w0[memory::ROOTS + r]);
        end = put_line(out, end, r as u64, w2[root], st.rows);
    }
    end
}
