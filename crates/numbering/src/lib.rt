// Which nodes stand outside the free-numbering profile: the one with the lowest line. Document 02, F-12. It depends on `typing` for the
// types that decide, on `nodes` for what a node's words say, and on `rows` for how many members a `coll` has. A node is named by its number.
#![tactic(auto)]

ghost use Rattle.std.specs.Prelude.{◌≡◌, ◌≤◌, ◌<◌, length};
ghost use Rattle.memory.specs.Map as memory;
ghost use Rattle.sheet.specs.Sizes.{most_nodes};
ghost use Rattle.nodes.specs.Nodes.{word};
ghost use Rattle.numbering.specs.Lowest.{line_of, lower as lowerLine};
ghost use Rattle.numbering.specs.Forms.{late_count, operand_count, body_operand, binds as bindsForm};

use memory::codes;
use nodes::node_word;
use rows::seen::member_count;

pub mod forms; // what a node adds itself, and the environment of its body
pub mod walk; // the recursion over operand nodes
pub mod whole; // the calls and the rules of a whole sheet

// The number that stands for no node.
pub const NONE: usize = memory::NODES;

// The one of two nodes that has the lower line.
pub fn lower(nodes: &[u64], a: usize, b: usize) -> usize
    requires { memory.nodes_end ≤ length nodes.now }
    ensures { line_of nodes.now result ≡ lowerLine (line_of nodes.now a) (line_of nodes.now b) }
{
    if NONE <= b {
        return a;
    }
    if NONE <= a {
        return b;
    }
    if node_word(nodes, b, 7) < node_word(nodes, a, 7) {
        return b;
    }
    a
}

// How many operands stand in the node's own environment, from `isUndef` on: `if` has three, `iter` and `over` two, the others one.
fn late_count(form: u64) -> usize
    ensures { (result ≡ late_count form) × (result ≤ 4) }
{
    match form {
        codes::CONDITIONAL => 3,
        codes::ITERATE | codes::OVER => 2,
        _ => 1,
    }
}

// How many operands of node n stand in its own environment.
pub fn operand_count(nodes: &[u64], n: usize, form: u64) -> usize
    requires { (n < most_nodes) × (memory.nodes_end ≤ length nodes.now) }
    ensures { (result ≡ operand_count form (word nodes.now n 5)) × (result ≤ 4) }
{
    match form {
        codes::NEGATION..=codes::CAST_TO | codes::FOR_ALL..=codes::EXISTS => 1,
        codes::EQUAL..=codes::OR => 2,
        codes::SET..=codes::BAG => member_count(nodes, n),
        codes::IS_UNDEF..=codes::OVER => late_count(form),
        _ => 0,
    }
}

// Whether a form binds variables in a body.
pub fn binds(form: u64) -> bool
    ensures { result ≡ bindsForm form }
{
    matches!(
        form,
        codes::LET_IN | codes::ITERATE | codes::FOR_ALL | codes::EXISTS
    )
}

// Which operand the body is.
pub fn body_operand(form: u64) -> usize
    ensures { (result ≡ body_operand form) × (result < 8) }
{
    if form == codes::ITERATE {
        return 3;
    }
    2
}
