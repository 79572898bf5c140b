// The recursion over operand nodes. Parameters: the node table; for each call the node that was found in its body; the parents and the
// other tables of the sheet, with the number of rows; the node n; the types of the variables; words for the marks that typing makes, which
// nobody reads; and the node found so far.
ghost use Rattle.std.specs.Prelude.{◌<◌, ◌≤◌, length, ◌≡◌};
ghost use Rattle.ocl.specs.Profile.{outside};
ghost use Rattle.nodes.specs.Nodes.{word, tree_at};
ghost use Rattle.judgements.specs.Replies.{env_of};
ghost use Rattle.numbering.specs.Forms.{members_at, operand_at, body_at, scope_at};
ghost use Rattle.numbering.specs.Walk.{WalkRoom, Finds};

use super::forms::{enters, inner_env, own, source_type};
use super::{binds, body_operand, lower, operand_count};
use judgements::TypeEnv;
use memory::codes;
use memory::words::wide;
use nodes::node_word;

// Looks at the operands of node n, at its body, and at the node itself.
#[cycle(body_node_operand_operands_scope)]
pub fn node(
    nodes: &[u64],
    least: &[u64],
    parents: &[u64],
    tables: &[u64],
    rows: usize,
    n: usize,
    env: TypeEnv,
    marks: &mut [u64],
    best: usize,
) -> usize
    requires { WalkRoom n rows (length tables.now) (length nodes.now) (length least.now) (length marks.old) }
    ensures { Finds nodes.now least.now parents.now tables.now rows n (λ k. outside k (tree_at nodes.now n) (env_of env)) best result × (length marks.new ≡ length marks.old) }
{
    let form = node_word(nodes, n, 0);
    let count = operand_count(nodes, n, form);
    let outer = operands(
        nodes, least, parents, tables, rows, n, count, env, marks, best,
    );
    let inner = scope(
        nodes, least, parents, tables, rows, n, form, env, marks, outer,
    );
    own(nodes, parents, tables, rows, n, form, env, marks, inner)
}

// The first `count` operands of node n.
#[cycle(body_node_operand_operands_scope)]
fn operands(
    nodes: &[u64],
    least: &[u64],
    parents: &[u64],
    tables: &[u64],
    rows: usize,
    n: usize,
    count: usize,
    env: TypeEnv,
    marks: &mut [u64],
    best: usize,
) -> usize
    requires count_bound { count ≤ 4 }
    requires walk_room { WalkRoom n rows (length tables.now) (length nodes.now) (length least.now) (length marks.old) }
    ensures { Finds nodes.now least.now parents.now tables.now rows n (λ k. members_at k nodes.now n count 1 (env_of env)) best result }
{
    let mut found = best;
    for i in 0..count {
        found = operand(
            nodes,
            least,
            parents,
            tables,
            rows,
            n,
            i + 1,
            env,
            marks,
            found,
        );
    }
    found
}

// Operand k of node n, which is a smaller node; any other, which no accepted sheet has, counts as `undef`.
#[cycle(body_node_operand_operands_scope)]
fn operand(
    nodes: &[u64],
    least: &[u64],
    parents: &[u64],
    tables: &[u64],
    rows: usize,
    n: usize,
    k: usize,
    env: TypeEnv,
    marks: &mut [u64],
    best: usize,
) -> usize
    requires k_bound { k < 8 }
    requires walk_room { WalkRoom n rows (length tables.now) (length nodes.now) (length least.now) (length marks.old) }
    ensures { Finds nodes.now least.now parents.now tables.now rows n (λ s. operand_at s nodes.now n k (env_of env)) best result }
{
    let a = wide(node_word(nodes, n, k));
    if n <= a {
        return best;
    }
    node(nodes, least, parents, tables, rows, a, env, marks, best)
}

// The body of node n, of a form that binds variables.
#[cycle(body_node_operand_operands_scope)]
fn body(
    nodes: &[u64],
    least: &[u64],
    parents: &[u64],
    tables: &[u64],
    rows: usize,
    n: usize,
    form: u64,
    env: TypeEnv,
    marks: &mut [u64],
    best: usize,
) -> usize
    requires { WalkRoom n rows (length tables.now) (length nodes.now) (length least.now) (length marks.old) }
    ensures { Finds nodes.now least.now parents.now tables.now rows n (λ k. body_at k nodes.now n form (env_of env)) best result }
{
    let Ok(t) = source_type(nodes, parents, tables, rows, n, env, marks) else {
        return best;
    };
    if enters(form, t) {
        let inner = inner_env(nodes, n, form, env, t);
        let k = body_operand(form);
        return operand(
            nodes, least, parents, tables, rows, n, k, inner, marks, best,
        );
    }
    best
}

// The body that node n calls, or the one that it has itself.
#[cycle(body_node_operand_operands_scope)]
fn scope(
    nodes: &[u64],
    least: &[u64],
    parents: &[u64],
    tables: &[u64],
    rows: usize,
    n: usize,
    form: u64,
    env: TypeEnv,
    marks: &mut [u64],
    best: usize,
) -> usize
    requires form_value { form ≡ word nodes.now n 0 }
    requires walk_room { WalkRoom n rows (length tables.now) (length nodes.now) (length least.now) (length marks.old) }
    ensures { Finds nodes.now least.now parents.now tables.now rows n (λ k. scope_at k nodes.now n form (env_of env)) best result }
{
    if form == codes::CALL {
        return lower(nodes, best, wide(least[n]));
    }
    if binds(form) {
        return body(
            nodes, least, parents, tables, rows, n, form, env, marks, best,
        );
    }
    best
}
