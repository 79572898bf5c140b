// The recursion: a node's type from its operands' types, left to right, in an environment by value. An operand is a smaller
// node. Parameters: the node table; the parents and the other tables of the sheet, with the number of rows; the node n; the
// types of the variables; the marks.
ghost use Rattle.std.specs.Prelude.{◌<◌, length};
ghost use Rattle.typing.specs.Tables.{NodeRoom, Types, TypesTwo, node_at, operand_at};

use super::apply::{binary, coll, conditional, connective, single};
use super::scope::{iterate, let_in, quantified};
use judgements::TypeEnv;
use judgements::forms::leaf_type;
use memory::codes;
use memory::refusals::Refused;
use memory::words::wide;
use nodes::node_word;
use types::parts::plain;
use types::{Base, FlatType};

// Node n. The range of its form's code says how it is typed.
#[cycle(binary_coll_conditional_connective_single_body_iterate_let_in_quantified_node_operand_pair)]
pub fn node(
    nodes: &[u64],
    parents: &[u64],
    tables: &[u64],
    rows: usize,
    n: usize,
    env: TypeEnv,
    marks: &mut [u64],
) -> Result<FlatType, Refused>
    requires { NodeRoom n rows (length tables.now) (length nodes.now) (length marks.old) }
    ensures { Types parents.now tables.now rows (node_at nodes.now n) env marks.old marks.new result }
{
    let form = node_word(nodes, n, 0);
    match form {
        codes::FALSE..=codes::ALL => leaf_type(nodes, form, n, env),
        codes::NEGATION..=codes::CAST_TO
        | codes::IS_UNDEF
        | codes::OF_OBJECT..=codes::OF_MEMBERS
        | codes::CALL => single(nodes, parents, tables, rows, n, form, env, marks),
        codes::EQUAL..=codes::UNION | codes::OVER => binary(
            nodes, parents, tables, rows, n, form, env, marks,
        ),
        codes::AND..=codes::OR => connective(nodes, parents, tables, rows, n, env, marks),
        codes::FOR_ALL..=codes::EXISTS => quantified(nodes, parents, tables, rows, n, env, marks),
        codes::SET..=codes::BAG => coll(nodes, parents, tables, rows, n, form, env, marks),
        codes::CONDITIONAL => conditional(nodes, parents, tables, rows, n, env, marks),
        codes::LET_IN => let_in(nodes, parents, tables, rows, n, env, marks),
        codes::ITERATE => iterate(nodes, parents, tables, rows, n, env, marks),
        _ => Ok(plain(Base::Void)),
    }
}

// Operand k of node n, which is a smaller node; any other, which no accepted sheet has, counts as `undef`.
#[cycle(binary_coll_conditional_connective_single_body_iterate_let_in_quantified_node_operand_pair)]
pub fn operand(
    nodes: &[u64],
    parents: &[u64],
    tables: &[u64],
    rows: usize,
    n: usize,
    k: usize,
    env: TypeEnv,
    marks: &mut [u64],
) -> Result<FlatType, Refused>
    requires k_bound { k < 8 }
    requires node_room { NodeRoom n rows (length tables.now) (length nodes.now) (length marks.old) }
    ensures { Types parents.now tables.now rows (operand_at nodes.now n k) env marks.old marks.new result }
{
    let a = wide(node_word(nodes, n, k));
    if n <= a {
        return Ok(plain(Base::Void));
    }
    node(nodes, parents, tables, rows, a, env, marks)
}

// Operands 1 and 2 of node n.
#[cycle(binary_coll_conditional_connective_single_body_iterate_let_in_quantified_node_operand_pair)]
pub fn pair(
    nodes: &[u64],
    parents: &[u64],
    tables: &[u64],
    rows: usize,
    n: usize,
    env: TypeEnv,
    marks: &mut [u64],
) -> Result<(FlatType, FlatType), Refused>
    requires { NodeRoom n rows (length tables.now) (length nodes.now) (length marks.old) }
    ensures { TypesTwo parents.now tables.now rows (operand_at nodes.now n 1) (operand_at nodes.now n 2) env marks.old marks.new result }
{
    let t = operand(nodes, parents, tables, rows, n, 1, env, marks)?;
    let u = operand(nodes, parents, tables, rows, n, 2, env, marks)?;
    Ok((t, u))
}
