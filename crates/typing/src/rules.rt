// The typing of a rule and of a definition. Their marks go into one table with those of others.
ghost use Rattle.std.specs.Prelude.{◌<◌, length};
ghost use Rattle.ocl.specs.Model.{Schema};
ghost use Rattle.ocl.specs.Typing.{type_rule};
ghost use Rattle.sheet.specs.Sizes.{most_nodes};
ghost use Rattle.nodes.specs.Nodes.{tree_at};
ghost use Rattle.judgements.specs.Replies.{Tells, ReadsRows};
ghost use Rattle.typing.specs.Tables.{NodeRoom};
ghost use Rattle.typing.specs.Rules.{LentTables, TypesRule, TypesDefinition};

use super::walk::node;
use judgements::environment::start_env;
use memory::refusals::{Refusal, Refused};
use types::FlatType;
use types::order::subtype;
use types::word::unpack;

// The type of the tree at root, where nothing is bound but `self`, which has the context class.
fn root_type(
    nodes: &[u64],
    parents: &[u64],
    tables: &[u64],
    rows: usize,
    root: usize,
    context: u8,
    marks: &mut [u64],
) -> Result<FlatType, Refused>
    requires { NodeRoom root rows (length tables.now) (length nodes.now) (length marks.old) }
    ensures { (k : Schema) → ReadsRows parents.now tables.now rows k → Tells (type_rule k context (tree_at nodes.now root)) marks.old marks.new result }
{
    let env = start_env(context);
    node(nodes, parents, tables, rows, root, env, marks)
}

// The rule whose tree is at root, for objects of the context class. `tables` is w0, with its parents, and each row's owner, name and type,
// of which the first `classes` and `rows` count.
pub fn type_rule(
    tables: &[u64],
    classes: usize,
    rows: usize,
    nodes: &[u64],
    marks: &mut [u64],
    context: u8,
    root: usize,
) -> Result<FlatType, Refused>
    requires root_lt_most_nodes { root < most_nodes }
    requires lent_tables { LentTables classes rows (length tables.now) (length nodes.now) (length marks.old) }
    ensures { TypesRule tables.now classes rows nodes.now context root marks.old marks.new result }
{
    let parents = &tables[..classes];
    let table = &mut marks[..memory::NODES];
    root_type(nodes, parents, tables, rows, root, context, table)
}

// The definition whose body is at root, for objects of its class; `declared` is the word of its type. The body must be below that type,
// else 11 at the root.
pub fn type_definition(
    tables: &[u64],
    classes: usize,
    rows: usize,
    nodes: &[u64],
    marks: &mut [u64],
    context: u8,
    declared: u64,
    root: usize,
) -> Result<FlatType, Refused>
    requires root_lt_most_nodes { root < most_nodes }
    requires lent_tables { LentTables classes rows (length tables.now) (length nodes.now) (length marks.old) }
    ensures { TypesDefinition tables.now classes rows nodes.now context declared root marks.old marks.new result }
{
    let t = type_rule(tables, classes, rows, nodes, marks, context, root)?;
    let whole = unpack(declared);
    if subtype(&tables[..classes], t, whole) {
        return Ok(whole);
    }
    Err(Refusal::WrongPiece.at(root as u64))
}
