// What a node is by its own form: whether it stands outside, and how its body is entered. Parameters as in walk.rt.
ghost use Rattle.std.specs.Prelude.{◌≡◌, ◌≤◌, ◌<◌, length};
ghost use Rattle.memory.specs.Map as memory;
ghost use Rattle.ocl.specs.Profile.{node_if};
ghost use Rattle.sheet.specs.Sizes.{most_nodes};
ghost use Rattle.types.specs.Flat.{ty_of};
ghost use Rattle.nodes.specs.Nodes.{word};
ghost use Rattle.judgements.specs.Replies.{env_of};
ghost use Rattle.typing.specs.Tables.{NodeRoom};
ghost use Rattle.numbering.specs.Forms.{source_type, enters as entersForm, inner_env, looks as looksForm, on_sequence, is_own};
ghost use Rattle.numbering.specs.Walk.{FindsHere, Tests, Types};

use super::lower;
use judgements::TypeEnv;
use judgements::environment::bind;
use memory::codes;
use memory::refusals::Refused;
use nodes::node_word;
use types::FlatType;
use types::letters::SEQUENCE;
use types::parts::{member_type, outer_code};
use types::word::unpack;
use typing::scope::variable;
use typing::walk::operand;

// The type of the first operand of node n, or its refusal.
pub fn source_type(
    nodes: &[u64],
    parents: &[u64],
    tables: &[u64],
    rows: usize,
    n: usize,
    env: TypeEnv,
    marks: &mut [u64],
) -> Result<FlatType, Refused>
    requires { NodeRoom n rows (length tables.now) (length nodes.now) (length marks.old) }
    ensures { Types parents.now tables.now rows (λ k. source_type k nodes.now n (env_of env)) result × (length marks.new ≡ length marks.old) }
{
    operand(nodes, parents, tables, rows, n, 1, env, marks)
}

// Whether that is a type `Q(..)`.
fn on_sequence(
    nodes: &[u64],
    parents: &[u64],
    tables: &[u64],
    rows: usize,
    n: usize,
    env: TypeEnv,
    marks: &mut [u64],
) -> bool
    requires { NodeRoom n rows (length tables.now) (length nodes.now) (length marks.old) }
    ensures { Tests parents.now tables.now rows (λ k. on_sequence (source_type k nodes.now n (env_of env))) result }
{
    let Ok(t) = source_type(nodes, parents, tables, rows, n, env, marks) else {
        return false;
    };
    outer_code(t) == SEQUENCE
}

// Whether the type of a form's first operand decides: that of `including`, `union` and `collect` does.
fn looks(form: u64) -> bool
    ensures { result ≡ looksForm form }
{
    matches!(form, codes::OF_MEMBERS | codes::INCLUDING | codes::UNION)
}

// Whether node n stands outside: `asSequence` and `iter` do, and `including`, `union` and `collect` on a type `Q(..)`.
fn is_outside(
    nodes: &[u64],
    parents: &[u64],
    tables: &[u64],
    rows: usize,
    n: usize,
    form: u64,
    env: TypeEnv,
    marks: &mut [u64],
) -> bool
    requires { NodeRoom n rows (length tables.now) (length nodes.now) (length marks.old) }
    ensures { Tests parents.now tables.now rows (λ k. is_own k nodes.now n form (env_of env)) result }
{
    match form {
        codes::ITERATE | codes::TO_SEQUENCE => true,
        _ => looks(form) && on_sequence(nodes, parents, tables, rows, n, env, marks),
    }
}

// The lower of `best` and node n, if that stands outside; else `best`.
pub fn own(
    nodes: &[u64],
    parents: &[u64],
    tables: &[u64],
    rows: usize,
    n: usize,
    form: u64,
    env: TypeEnv,
    marks: &mut [u64],
    best: usize,
) -> usize
    requires { NodeRoom n rows (length tables.now) (length nodes.now) (length marks.old) }
    ensures { FindsHere nodes.now parents.now tables.now rows (λ k. node_if n (is_own k nodes.now n form (env_of env))) best result × (length marks.new ≡ length marks.old) }
{
    if is_outside(nodes, parents, tables, rows, n, form, env, marks) {
        return lower(nodes, best, n);
    }
    best
}

// Whether there is a body to enter, where the first operand has type t: for all forms but `let` that must be a collection.
pub fn enters(form: u64, t: FlatType) -> bool
    ensures { result ≡ entersForm form (ty_of t) }
{
    form == codes::LET_IN || outer_code(t) != 0
}

// The types of the variables in the body.
pub fn inner_env(nodes: &[u64], n: usize, form: u64, env: TypeEnv, t: FlatType) -> TypeEnv
    requires { (n < most_nodes) × (memory.nodes_end ≤ length nodes.now) }
    ensures { env_of result ≡ inner_env (word nodes.now n) form (env_of env) (ty_of t) }
{
    if form == codes::LET_IN {
        return bind(env, variable(nodes, n, 3), t);
    }
    let member = member_type(t);
    if form == codes::ITERATE {
        let inner = bind(env, variable(nodes, n, 4), member);
        return bind(inner, variable(nodes, n, 5), unpack(node_word(nodes, n, 6)));
    }
    bind(env, variable(nodes, n, 3), member)
}
