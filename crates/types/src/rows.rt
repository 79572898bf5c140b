// The attribute rows: row i has its class in `owners`, its name in `names`.
ghost use Rattle.std.specs.Prelude.{◌≡◌, ◌≤◌, length};
ghost use Rattle.types.specs.Rows.{declared_in, row_read_in, found, Unnamed};

use super::classes::parent;
use memory::words::long;

// The row behind the last one, of so many rows, that has the name; 0 where none has.
fn named_end(names: &[u64], rows: usize, name: u64) -> usize
    requires { rows ≤ length names.now }
    ensures { (result ≤ rows) × Unnamed names.now name result rows }
{
    names[..rows]
        .iter()
        .rposition(|&n| n == name)
        .map_or(0, |i| i + 1)
}

// The first row before `end` that has the name; `end` where none has.
fn named_start(names: &[u64], end: usize, name: u64) -> usize
    requires { end ≤ length names.now }
    ensures { Unnamed names.now name 0 result }
{
    names[..end].iter().position(|&n| n == name).unwrap_or(end)
}

// The row that class c itself declares with the name, which no row before `start` has. A class has a name only once, so the
// order does not matter.
fn declared(
    owners: &[u64],
    names: &[u64],
    start: usize,
    end: usize,
    c: u64,
    name: u64,
) -> Option<u64>
    requires end_in_bounds { end ≤ length owners.now }
    requires end_in_bounds_2 { end ≤ length names.now }
    requires unnamed { Unnamed names.now name 0 start }
    ensures { found result ≡ declared_in owners.now names.now c name end }
{
    for i in (start..end).rev() {
        if owners[i] == c && names[i] == name {
            return Some(long(i));
        }
    }
    None
}

// The nearest declaration from class c upward, among the rows before `end`.
fn nearest(
    parents: &[u64],
    owners: &[u64],
    names: &[u64],
    start: usize,
    end: usize,
    c: u64,
    name: u64,
) -> Option<u64>
    requires end_in_bounds { end ≤ length owners.now }
    requires end_in_bounds_2 { end ≤ length names.now }
    requires unnamed { Unnamed names.now name 0 start }
    ensures { found result ≡ row_read_in parents.now owners.now names.now end c name }
{
    let mut x = c;
    // up from parent to parent
    loop {
        let f = declared(owners, names, start, end, x, name);
        let None = f else {
            return f;
        };
        let p = parent(parents, x);
        if p == 0 {
            return None;
        }
        x = p - 1;
    }
}

// The nearest declaration of the name from class c upward. Few rows share a name, so the rows that have it are found first and
// only they are looked at for each class.
pub fn row_read(
    parents: &[u64],
    owners: &[u64],
    names: &[u64],
    rows: usize,
    c: u64,
    name: u64,
) -> Option<u64>
    requires rows_in_bounds { rows ≤ length owners.now }
    requires rows_in_bounds_2 { rows ≤ length names.now }
    ensures { found result ≡ row_read_in parents.now owners.now names.now rows c name }
{
    let end = named_end(names, rows, name);
    let start = named_start(names, end, name);
    nearest(parents, owners, names, start, end, c, name)
}
