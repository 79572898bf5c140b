// The forms that bind no variable: all operands are typed in the node's own environment, and then the node is judged.
// Parameters as in walk.rt.
ghost use Rattle.std.specs.Prelude.{◌<◌, ◌≤◌, length};
ghost use Rattle.memory.specs.Codes as code;
ghost use Rattle.typing.specs.Tables.{NodeRoom, Types, single_at, binary_at, connective_at, conditional_at, assemble_at};

use super::walk::{operand, pair};
use judgements::TypeEnv;
use judgements::binary::binary_type;
use judgements::forms::{around_common, both_below, conditional_type, join_more};
use judgements::single::single_type;
use memory::codes;
use memory::refusals::Refused;
use memory::words::wide;
use nodes::node_word;
use types::parts::plain;
use types::{Base, FlatType, letters};

// A form with a single operand.
#[cycle(binary_coll_conditional_connective_single_body_iterate_let_in_quantified_node_operand_pair)]
pub fn single(
    nodes: &[u64],
    parents: &[u64],
    tables: &[u64],
    rows: usize,
    n: usize,
    form: u64,
    env: TypeEnv,
    marks: &mut [u64],
) -> Result<FlatType, Refused>
    requires { NodeRoom n rows (length tables.now) (length nodes.now) (length marks.old) }
    ensures { Types parents.now tables.now rows (single_at nodes.now n form) env marks.old marks.new result }
{
    let t = operand(nodes, parents, tables, rows, n, 1, env, marks)?;
    single_type(nodes, parents, tables, rows, n, form, t, marks)
}

// A form with two strict operands.
#[cycle(binary_coll_conditional_connective_single_body_iterate_let_in_quantified_node_operand_pair)]
pub fn binary(
    nodes: &[u64],
    parents: &[u64],
    tables: &[u64],
    rows: usize,
    n: usize,
    form: u64,
    env: TypeEnv,
    marks: &mut [u64],
) -> Result<FlatType, Refused>
    requires equal_le_form { code.equal ≤ form }
    requires node_room { NodeRoom n rows (length tables.now) (length nodes.now) (length marks.old) }
    ensures { Types parents.now tables.now rows (binary_at nodes.now n form) env marks.old marks.new result }
{
    let (t, u) = pair(nodes, parents, tables, rows, n, env, marks)?;
    binary_type(parents, form, n, t, u, marks)
}

// `and`, `or`: both below Bool.
#[cycle(binary_coll_conditional_connective_single_body_iterate_let_in_quantified_node_operand_pair)]
pub fn connective(
    nodes: &[u64],
    parents: &[u64],
    tables: &[u64],
    rows: usize,
    n: usize,
    env: TypeEnv,
    marks: &mut [u64],
) -> Result<FlatType, Refused>
    requires { NodeRoom n rows (length tables.now) (length nodes.now) (length marks.old) }
    ensures { Types parents.now tables.now rows (connective_at nodes.now n) env marks.old marks.new result }
{
    let (t, u) = pair(nodes, parents, tables, rows, n, env, marks)?;
    let bool = plain(Base::Bool);
    both_below(parents, n as u64, bool, bool, t, u)
}

// `if`: the condition, then both branches.
#[cycle(binary_coll_conditional_connective_single_body_iterate_let_in_quantified_node_operand_pair)]
pub fn conditional(
    nodes: &[u64],
    parents: &[u64],
    tables: &[u64],
    rows: usize,
    n: usize,
    env: TypeEnv,
    marks: &mut [u64],
) -> Result<FlatType, Refused>
    requires { NodeRoom n rows (length tables.now) (length nodes.now) (length marks.old) }
    ensures { Types parents.now tables.now rows (conditional_at nodes.now n) env marks.old marks.new result }
{
    let (c, t) = pair(nodes, parents, tables, rows, n, env, marks)?;
    let u = operand(nodes, parents, tables, rows, n, 3, env, marks)?;
    conditional_type(parents, n as u64, c, t, u)
}

// By how much the codes of `coll` for a Set, a Sequence and a Bag are above those of their letters.
const COLLECTIONS: u64 = codes::SET - letters::SET as u64;

// `coll`: all members are typed before their common type is asked for. More than four members, which no accepted sheet has, count as
// `undef`.
#[cycle(binary_coll_conditional_connective_single_body_iterate_let_in_quantified_node_operand_pair)]
pub fn coll(
    nodes: &[u64],
    parents: &[u64],
    tables: &[u64],
    rows: usize,
    n: usize,
    form: u64,
    env: TypeEnv,
    marks: &mut [u64],
) -> Result<FlatType, Refused>
    requires set_le_form { (code.set ≤ form) × (form < code.is_undef) }
    requires node_room { NodeRoom n rows (length tables.now) (length nodes.now) (length marks.old) }
    ensures { Types parents.now tables.now rows (assemble_at nodes.now n form) env marks.old marks.new result }
{
    let count = wide(node_word(nodes, n, 5));
    if 4 < count {
        return Ok(plain(Base::Void));
    }
    let mut common = Some(plain(Base::Void));
    for i in 0..count {
        let t = operand(nodes, parents, tables, rows, n, i + 1, env, marks)?;
        common = join_more(parents, common, t);
    }
    around_common(n as u64, (form - COLLECTIONS) as u8, common)
}
