// The types of `attr` and `collect`, given the operand's type: the row that is read also marks the node.
ghost use Rattle.std.specs.Prelude.{◌≡◌, ℕ, ◌+◌, ◌<◌, ◌≤◌, length};
ghost use Rattle.memory.specs.Map as memory;
ghost use Rattle.ocl.specs.Forms.{of_object, of_members};
ghost use Rattle.ocl.specs.Model.{Schema, row_read};
ghost use Rattle.ocl.specs.Typing.{typed, row_type, attribute_type};
ghost use Rattle.ocl.specs.Marks.{Mark};
ghost use Rattle.sheet.specs.Sizes.{most_nodes, most_rows};
ghost use Rattle.types.specs.Flat.{ty_of};
ghost use Rattle.nodes.specs.Marks.{mark_word};
ghost use Rattle.judgements.specs.Replies.{Tells, ReadsRows};
ghost use Rattle.judgements.specs.Single.{collect_code};

use super::forms::wrapped;
use memory::refusals::{Refusal, Refused};
use memory::words::wide;
use types::FlatType;
use types::letters::{BAG, SEQUENCE};
use types::parts::{is_class, member_type, outer_code};
use types::rows::row_read;
use types::word::unpack;

// The type of the row with the name, the nearest declaration from class c upward, else 12. The row, and `more`, marks node n.
fn row_type(
    parents: &[u64],
    tables: &[u64],
    rows: usize,
    n: usize,
    name: u64,
    c: u64,
    more: u64,
    marks: &mut [u64],
) -> Result<FlatType, Refused>
    requires { (rows ≤ most_rows) × (memory.rows_end ≤ length tables.now) × (n < most_nodes) × (most_nodes ≤ length marks.old) × (more ≤ memory.mark_sequence) }
    ensures { (m : Schema) → ReadsRows parents.now tables.now rows m → (mark : ℕ → Mark) → ((i : ℕ) → mark_word (mark i) ≡ more + i) → Tells (row_type m n mark typed (row_read m c name)) marks.old marks.new result }
{
    let owners = &tables[memory::OWNERS..memory::NAMES];
    let names = &tables[memory::NAMES..memory::TYPES];
    let Some(i) = row_read(parents, owners, names, rows, c, name) else {
        return Err(Refusal::NoSuchMark.at(n as u64));
    };
    marks[n] = more + i;
    let at = wide(i);
    Ok(unpack(tables[memory::TYPES + at]))
}

// `attr`: of a class type, else 11.
pub fn attribute_type(
    parents: &[u64],
    tables: &[u64],
    rows: usize,
    n: usize,
    name: u64,
    t: FlatType,
    marks: &mut [u64],
) -> Result<FlatType, Refused>
    requires { (rows ≤ most_rows) × (memory.rows_end ≤ length tables.now) × (n < most_nodes) × (most_nodes ≤ length marks.old) }
    ensures { (m : Schema) → ReadsRows parents.now tables.now rows m → Tells (attribute_type m n of_object name (ty_of t)) marks.old marks.new result }
{
    let Some(c) = is_class(t) else {
        return Err(Refusal::WrongPiece.at(n as u64)); // Void too is none
    };
    row_type(parents, tables, rows, n, name, c, 0, marks)
}

// A Bag's code, the last one, as a word.
const LAST: u64 = BAG as u64;

// The letter that `collect` gives: a Sequence gives a Sequence, any other collection a Bag.
fn collect_code(code: u8) -> u8
    ensures { result ≡ collect_code code }
{
    if code == SEQUENCE { SEQUENCE } else { BAG }
}

// `collect`: of a collection whose member type is a class, else 11; the kind around the row's type, unless that is over three deep
// (13). The mark also says whether it gives a Sequence.
pub fn collect_type(
    parents: &[u64],
    tables: &[u64],
    rows: usize,
    n: usize,
    name: u64,
    t: FlatType,
    marks: &mut [u64],
) -> Result<FlatType, Refused>
    requires { (rows ≤ most_rows) × (memory.rows_end ≤ length tables.now) × (n < most_nodes) × (most_nodes ≤ length marks.old) }
    ensures { (m : Schema) → ReadsRows parents.now tables.now rows m → Tells (attribute_type m n of_members name (ty_of t)) marks.old marks.new result }
{
    let code = outer_code(t);
    if code == 0 {
        return Err(Refusal::WrongPiece.at(n as u64));
    }
    let Some(c) = is_class(member_type(t)) else {
        return Err(Refusal::WrongPiece.at(n as u64));
    };
    let kind = collect_code(code);
    let u = row_type(
        parents,
        tables,
        rows,
        n,
        name,
        c,
        memory::MARK_SEQUENCE * (LAST - kind as u64),
        marks,
    )?;
    wrapped(n as u64, kind, u)
}
