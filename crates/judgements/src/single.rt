// All forms with a single operand, by the form's code: what follows once the operand has its type.
ghost use Rattle.std.specs.Prelude.{◌<◌, ◌≤◌, length};
ghost use Rattle.memory.specs.Map as memory;
ghost use Rattle.ocl.specs.Model.{Schema};
ghost use Rattle.sheet.specs.Sizes.{most_nodes, most_rows};
ghost use Rattle.types.specs.Flat.{ty_of};
ghost use Rattle.nodes.specs.Nodes.{word};
ghost use Rattle.judgements.specs.Replies.{Tells, ReadsRows};
ghost use Rattle.judgements.specs.Single.{single_type};

use super::attributes::{attribute_type, collect_type};
use super::forms::{call_type, unary_type};
use memory::codes::{CALL, IS_UNDEF, OF_MEMBERS, OF_OBJECT};
use memory::refusals::Refused;
use nodes::node_word;
use types::parts::plain;
use types::word::unpack;
use types::{Base, FlatType};

// Node n, whose operand has type t. `isUndef` takes any type.
pub fn single_type(
    nodes: &[u64],
    parents: &[u64],
    tables: &[u64],
    rows: usize,
    n: usize,
    form: u64,
    t: FlatType,
    marks: &mut [u64],
) -> Result<FlatType, Refused>
    requires { (rows ≤ most_rows) × (memory.rows_end ≤ length tables.now) × (n < most_nodes) × (memory.nodes_end ≤ length nodes.now) × (most_nodes ≤ length marks.old) }
    ensures { (m : Schema) → ReadsRows parents.now tables.now rows m → Tells (single_type m n form (word nodes.now n) (ty_of t)) marks.old marks.new result }
{
    match form {
        IS_UNDEF => Ok(plain(Base::Bool)),
        OF_OBJECT => attribute_type(parents, tables, rows, n, node_word(nodes, n, 2), t, marks),
        OF_MEMBERS => collect_type(parents, tables, rows, n, node_word(nodes, n, 2), t, marks),
        CALL => call_type(
            parents,
            n as u64,
            node_word(nodes, n, 3) % memory::CLASS_NUMBERS,
            unpack(node_word(nodes, n, 4)),
            t,
        ),
        _ => unary_type(parents, nodes, form, n, t),
    }
}
