// A node's operands: within their limits, smaller than the node, each used once; and the depth that they give it.
ghost use Rattle.std.specs.Prelude.{◌≡◌, ◌+◌, ◌*◌, ◌/◌, ◌≤◌, ◌<◌, min, max, true, length};
ghost use Rattle.laws.specs.Lists.{all_of};
ghost use Rattle.memory.specs.Map as memory;
ghost use Rattle.sheet.specs.Sizes.{least_words, most_nodes};
ghost use Rattle.sheet.specs.Limits.{is_node};
ghost use Rattle.trees.specs.Calls.{depth_cut};
ghost use Rattle.shapes.specs.Forms.{operands_at};
ghost use Rattle.trees.specs.Operands.{shifted, marking, marked, WroteWords};

use crate::calls::DEPTH_CUT;

// Whether each operand is a number that a node may have.
pub fn operands_within(words: [u64; 8], count: usize) -> bool
    requires { (length words ≡ 8) × (count ≤ 4) }
    ensures { result ≡ all_of is_node (operands_at words count) }
{
    words[1..=count].iter().all(|&a| a < memory::MOST_NODES)
}

// The greater of a depth and an operand's depth.
fn deeper(d: u64, word: u64) -> u64
    ensures { result ≡ max d (min (word / 2) depth_cut) }
{
    d.max((word / 2).min(DEPTH_CUT))
}

// Where depths begin, as a u64 like the numbers of nodes.
const DEPTHS: u64 = memory::DEPTHS as u64;

// Marks the operands of node n of the definition or rule as used. If one of them breaks the tree, those before it stay marked: the sheet is
// refused then, and nothing reads them.
pub fn mark(w1: &mut [u64], words: [u64; 8], count: usize, first: u64, n: u64) -> Option<u64>
    requires { (least_words ≤ length w1.old) × (length words ≡ 8) × (count ≤ 4) × (first + n ≤ most_nodes) }
    ensures { marked result w1.new ≡ marking first n 0 (operands_at words count) w1.old }
{
    let mut deepest: u64 = 0;
    for &a in &words[1..=count] {
        if a >= n {
            return None;
        }
        let at = (DEPTHS + (first + a)) as usize;
        let d = w1[at];
        if d % 2 == 1 {
            return None;
        }
        w1[at] = d + 1;
        deepest = deeper(deepest, d);
    }
    Some(deepest)
}

// Word k as the node table has it: an operand is numbered through all definitions and rules.
fn shift(words: [u64; 8], count: usize, first: u64, k: usize) -> u64
    requires { (k < memory.node_words) × (first ≤ most_nodes) × (all_of is_node (operands_at words count) ≡ true) }
    ensures { result ≡ shifted words count first k }
{
    if 1 <= k && k <= count {
        first + words[k]
    } else {
        words[k]
    }
}

// The eight words of node m.
pub fn put_words(w1: &mut [u64], m: usize, words: [u64; 8], count: usize, first: u64)
    requires { (least_words ≤ length w1.old) × (m < most_nodes) × (first ≤ most_nodes) × (all_of is_node (operands_at words count) ≡ true) }
    ensures { WroteWords (memory.node_words * m) memory.node_words (shifted words count first) w1.old w1.new }
{
    for k in 0..memory::NODE_WORDS {
        w1[memory::NODE_WORDS * m + k] = shift(words, count, first, k);
    }
}
