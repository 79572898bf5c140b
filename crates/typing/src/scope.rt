// The forms that bind a variable: what stands outside the body is typed and judged before the body, which is typed in an
// environment of its own. Parameters as in walk.rt.
ghost use Rattle.std.specs.Prelude.{◌≡◌, ◌<◌, ◌≤◌, length};
ghost use Rattle.memory.specs.Map as memory;
ghost use Rattle.sheet.specs.Sizes.{most_nodes};
ghost use Rattle.types.specs.Flat.{ty_of};
ghost use Rattle.nodes.specs.Nodes.{word, variable as variableIn};
ghost use Rattle.typing.specs.Tables.{NodeRoom, Types, let_at, quantified_at, iterate_at, body_at};

use super::walk::{operand, pair};
use judgements::TypeEnv;
use judgements::environment::bind;
use judgements::forms::condition;
use memory::refusals::{Refusal, Refused};
use memory::words::wide;
use nodes::node_word;
use types::FlatType;
use types::order::subtype;
use types::parts::{member_type, outer_code};
use types::word::unpack;

// The variable that word k of node n names.
pub fn variable(nodes: &[u64], n: usize, k: usize) -> usize
    requires { (n < most_nodes) × (k < 8) × (memory.nodes_end ≤ length nodes.now) }
    ensures { (result < 16) × (result ≡ variableIn (word nodes.now n k)) }
{
    wide(node_word(nodes, n, k)) % memory::VARIABLES
}

// `let`: the body is typed with the variable bound.
#[cycle(binary_coll_conditional_connective_single_body_iterate_let_in_quantified_node_operand_pair)]
pub fn let_in(
    nodes: &[u64],
    parents: &[u64],
    tables: &[u64],
    rows: usize,
    n: usize,
    env: TypeEnv,
    marks: &mut [u64],
) -> Result<FlatType, Refused>
    requires { NodeRoom n rows (length tables.now) (length nodes.now) (length marks.old) }
    ensures { Types parents.now tables.now rows (let_at nodes.now n) env marks.old marks.new result }
{
    let t = operand(nodes, parents, tables, rows, n, 1, env, marks)?;
    let inner = bind(env, variable(nodes, n, 3), t);
    operand(nodes, parents, tables, rows, n, 2, inner, marks)
}

// `forAll`, `exists`: the source must be a collection, else 11, before the body is typed with the variable bound to a member.
#[cycle(binary_coll_conditional_connective_single_body_iterate_let_in_quantified_node_operand_pair)]
pub fn quantified(
    nodes: &[u64],
    parents: &[u64],
    tables: &[u64],
    rows: usize,
    n: usize,
    env: TypeEnv,
    marks: &mut [u64],
) -> Result<FlatType, Refused>
    requires { NodeRoom n rows (length tables.now) (length nodes.now) (length marks.old) }
    ensures { Types parents.now tables.now rows (quantified_at nodes.now n) env marks.old marks.new result }
{
    let s = operand(nodes, parents, tables, rows, n, 1, env, marks)?;
    if outer_code(s) == 0 {
        return Err(Refusal::WrongPiece.at(n as u64));
    }
    let inner = bind(env, variable(nodes, n, 3), member_type(s));
    let b = operand(nodes, parents, tables, rows, n, 2, inner, marks)?;
    condition(parents, n as u64, b)
}

// `iter`: source and start are typed and checked (11) before the body is typed with member and accumulator bound.
#[cycle(binary_coll_conditional_connective_single_body_iterate_let_in_quantified_node_operand_pair)]
pub fn iterate(
    nodes: &[u64],
    parents: &[u64],
    tables: &[u64],
    rows: usize,
    n: usize,
    env: TypeEnv,
    marks: &mut [u64],
) -> Result<FlatType, Refused>
    requires { NodeRoom n rows (length tables.now) (length nodes.now) (length marks.old) }
    ensures { Types parents.now tables.now rows (iterate_at nodes.now n) env marks.old marks.new result }
{
    let (source, start) = pair(nodes, parents, tables, rows, n, env, marks)?;
    let t = unpack(node_word(nodes, n, 6));
    if outer_code(source) == 0 || !subtype(parents, start, t) {
        return Err(Refusal::WrongPiece.at(n as u64));
    }
    let inner = bind(env, variable(nodes, n, 4), member_type(source));
    body(nodes, parents, tables, rows, n, t, inner, marks)
}

// The body of `iter`, with the member bound already: it must be below the accumulator's type t, else 11.
#[cycle(binary_coll_conditional_connective_single_body_iterate_let_in_quantified_node_operand_pair)]
fn body(
    nodes: &[u64],
    parents: &[u64],
    tables: &[u64],
    rows: usize,
    n: usize,
    t: FlatType,
    env: TypeEnv,
    marks: &mut [u64],
) -> Result<FlatType, Refused>
    requires { NodeRoom n rows (length tables.now) (length nodes.now) (length marks.old) }
    ensures { Types parents.now tables.now rows (body_at nodes.now n (ty_of t)) env marks.old marks.new result }
{
    let inner = bind(env, variable(nodes, n, 5), t);
    let b = operand(nodes, parents, tables, rows, n, 3, inner, marks)?;
    if subtype(parents, b, t) {
        return Ok(t);
    }
    Err(Refusal::WrongPiece.at(n as u64))
}
