// The rows that the tree of each node was resolved to. There are at most 64 rows, so they are the bits of one word. Operands and called
// bodies are smaller nodes: in one pass over the nodes each finds their words ready, however often a definition is called.
ghost use Rattle.std.specs.Prelude.{◌≡◌, ◌<◌, ◌≤◌, ltb, length};
ghost use Rattle.std.specs.Prelude.{if◌then◌else◌};
ghost use Rattle.memory.specs.Map as memory;
ghost use Rattle.sheet.specs.Sizes.{least_words, most_nodes, most_rows};
ghost use Rattle.nodes.specs.Nodes.{word};
ghost use Rattle.rows.specs.Bits.{bit};
ghost use Rattle.rows.specs.Seen.{Parts, SeesOperand, SeesOwn, SeesNode, SeesAll};

use memory::codes;
use memory::words::wide;
use nodes::node_word;

// How many members `coll` has; more than four, which no accepted sheet has, count as none.
pub fn member_count(nodes: &[u64], n: usize) -> usize
    requires { (n < most_nodes) × (memory.nodes_end ≤ length nodes.now) }
    ensures { result ≡ (if ltb 4 (word nodes.now n 5) then 0 else word nodes.now n 5) }
{
    let count = wide(node_word(nodes, n, 5));
    if 4 < count {
        return 0;
    }
    count
}

// How many operands node n has, a called body among them.
fn operand_count(nodes: &[u64], n: usize) -> usize
    requires { (n < most_nodes) × (memory.nodes_end ≤ length nodes.now) }
    ensures { Parts nodes.now n result }
{
    let form = node_word(nodes, n, 0);
    match form {
        codes::FALSE..=codes::ALL => 0,
        codes::NEGATION..=codes::CAST_TO | codes::IS_UNDEF | codes::OF_OBJECT..=codes::OF_MEMBERS =>
            1,
        codes::EQUAL..=codes::EXISTS | codes::LET_IN | codes::CALL..=codes::OVER => 2,
        codes::SET..=codes::BAG => member_count(nodes, n),
        codes::CONDITIONAL | codes::ITERATE => 3,
        _ => 0,
    }
}

// The rows of operand k of node n; one that is not smaller, which no accepted sheet has, counts as `undef`.
fn operand_rows(w1: &[u64], w2: &[u64], n: usize, k: usize) -> u64
    requires { (n < most_nodes) × (k < 8) × (memory.nodes_end ≤ length w1.now) × (most_nodes ≤ length w2.now) }
    ensures { SeesOperand w1.now w2.now n k result }
{
    let a = wide(node_word(w1, n, k));
    if n <= a {
        return 0;
    }
    w2[a]
}

// The row of node n itself, by its mark: `attr` and `collect` have one.
fn own_row(w1: &[u64], n: usize) -> u64
    requires { (n < most_nodes) × (memory.depths ≤ length w1.now) }
    ensures { SeesOwn w1.now n result }
{
    let form = node_word(w1, n, 0);
    match form {
        codes::OF_OBJECT..=codes::OF_MEMBERS => 1 << (w1[memory::MARKS + n] % memory::MOST_ROWS),
        _ => 0,
    }
}

// The rows of node n, by those of the nodes before it.
fn node_rows(w1: &[u64], w2: &[u64], n: usize) -> u64
    requires { (n < most_nodes) × (memory.depths ≤ length w1.now) × (most_nodes ≤ length w2.now) }
    ensures { SeesNode w1.now w2.now n result }
{
    let mut seen = own_row(w1, n);
    for k in 0..operand_count(w1, n) {
        seen |= operand_rows(w1, w2, n, k + 1);
    }
    seen
}

// The rows of every node, put into w2.
pub fn see_rows(w1: &[u64], w2: &mut [u64])
    requires { (least_words ≤ length w1.now) × (least_words ≤ length w2.old) }
    ensures { SeesAll w1.now w2.old w2.new }
{
    for n in 0..memory::NODES {
        w2[n] = node_rows(w1, w2, n);
    }
}

// Whether row i is among the rows of a word.
pub fn has_bit(seen: u64, i: u64) -> bool
    requires { i < most_rows }
    ensures { result ≡ bit seen i }
{
    (seen >> i) % 2 == 1
}
