// The nodes of all definitions and rules as a table in the lent words (document 01, The sheet: N lines), and the tree that a node's words
// stand for: definitions in specs/, laws in proofs/. It depends on `memory` for the table's place and on `types` for a type as one word.
#![tactic(auto)]

ghost use Rattle.std.specs.Prelude.{◌≡◌, ◌<◌, ◌≤◌, length};
ghost use Rattle.memory.specs.Map as memory;
ghost use Rattle.sheet.specs.Sizes.{most_nodes};
ghost use Rattle.nodes.specs.Nodes.{word};

// Word k of node n.
pub fn node_word(nodes: &[u64], n: usize, k: usize) -> u64
    requires { (n < most_nodes) × (k < memory.node_words) × (memory.nodes_end ≤ length nodes.now) }
    ensures { result ≡ word nodes.now n k }
{
    nodes[memory::NODE_WORDS * n + k]
}
