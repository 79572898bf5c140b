// A value that lies as cells is written as document 01 spells it: one pass over its cells, by a recursion over its members.
// It depends on `text`, which writes bytes and numbers, and on `values`, whose cells it reads.
#![tactic(auto)]

ghost use Rattle.std.specs.Prelude.{◌≡◌, [], ◌∷◌, ◌+◌, ◌≤◌, length};
ghost use Rattle.std.proofs.Math.Seq.{slice};
ghost use Rattle.ocl.specs.Types.{Kind, kind_code};
ghost use Rattle.ocl.specs.Values.{Value, Values, count};
ghost use Rattle.sheet.specs.Spelling.{kind_byte, spell_bool, spell_value, spell_members};
ghost use Rattle.text.specs.Written.{Puts};
ghost use Rattle.values.specs.Cells.{enc, encs, Fits, AllFit};
ghost use Rattle.values.specs.Meanings.{Means};
ghost use Rattle.spelling.specs.Meanings.{SimpleWaits, CellsStand, ValueWaits, MembersWait, Wrote, ValueFits};

use text::spelling::{put_byte, put_integer, put_number, put_real};
use values::Simple;
use values::cells::{member_count, simple_of, sort_of};

// Where the next byte is written, and where the next value's cells begin.
#[derive(Clone, Copy)]
pub struct Next {
    pub at: usize,
    pub from: usize,
}

fn truth_byte(b: bool) -> u8
    ensures { (result ∷ []) ≡ spell_bool b }
{
    if b { b't' } else { b'f' }
}

// Puts a value that is no collection.
fn put_simple(out: &mut [u8], at: usize, s: Simple) -> usize
    requires { SimpleWaits at s (length out.old) }
    ensures { (v : Value) → Fits v → Means s v → Puts at (spell_value v) out.old out.new result }
{
    match s {
        Simple::Bool { b } => put_byte(out, at, truth_byte(b)),
        Simple::Integer { biased } => put_integer(out, at, biased),
        Simple::Real(x) => put_real(out, at, x),
        Simple::Object { number } => {
            let digits = put_byte(out, at, b'@');
            put_number(out, digits, number)
        }
    }
}

// The letter of the collections of this sort: 3 Set, 4 Sequence, 5 Bag.
fn letter(sort: u64) -> u8
    ensures { (k : Kind) → sort ≡ 3 + kind_code k → result ≡ kind_byte k }
{
    match sort {
        3 => b'S',
        4 => b'Q',
        _ => b'B',
    }
}

// Puts the letter and its bracket.
fn put_opening(out: &mut [u8], at: usize, sort: u64) -> usize
    requires { at + 2 ≤ length out.old }
    ensures { (k : Kind) → sort ≡ 3 + kind_code k → Puts at (kind_byte k ∷ 40 ∷ []) out.old out.new result }
{
    let bracket = put_byte(out, at, letter(sort));
    put_byte(out, bracket, b'(')
}

// Puts the value whose cells begin at `from`.
#[cycle(put_members_put_next)]
fn put_next(out: &mut [u8], at: usize, cells: &[u64], from: usize) -> Next
    requires { ValueWaits at from cells.now (length out.old) }
    ensures { (v : Value) → Fits v → CellsStand (enc v) cells.now from → Wrote (spell_value v) (length (enc v)) at from out.old out.new result }
{
    let cell = cells[from];
    let sort = sort_of(cell);
    if sort < 3 {
        return Next {
            at: put_simple(out, at, simple_of(cell)),
            from: from + 1,
        };
    }
    let inner = put_opening(out, at, sort);
    put_members(out, inner, cells, from + 1, member_count(cell))
}

// Puts n members, separated by commas, and the bracket behind them.
#[cycle(put_members_put_next)]
fn put_members(out: &mut [u8], at: usize, cells: &[u64], from: usize, n: usize) -> Next
    requires { MembersWait n at from cells.now (length out.old) }
    ensures { (vs : Values) → AllFit vs → n ≡ count vs → CellsStand (encs vs) cells.now from → Wrote (spell_members vs) (length (encs vs)) at from out.old out.new result }
{
    if n == 0 {
        return Next {
            at: put_byte(out, at, b')'),
            from,
        };
    }
    let one = put_next(out, at, cells, from);
    if n == 1 {
        return Next {
            at: put_byte(out, one.at, b')'),
            from: one.from,
        };
    }
    let comma = put_byte(out, one.at, b',');
    put_members(out, comma, cells, one.from, n - 1)
}

// Puts the value whose cells lie from `from` to `end`.
pub fn put_value(out: &mut [u8], at: usize, cells: &[u64], from: usize, end: usize) -> usize
    requires { ValueFits at cells.now from end (length out.old) }
    ensures { (v : Value) → Fits v → slice from end cells.now ≡ enc v → Puts at (spell_value v) out.old out.new result }
{
    put_next(out, at, &cells[..end], from).at
}
