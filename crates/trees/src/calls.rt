// The definition that a node calls: its root, class and type go into the node's words, and its depth counts below the node.
// Document 02, F-13.
ghost use Rattle.std.specs.Prelude.{◌≡◌, ◌≤◌, leb, length};
ghost use Rattle.sheet.specs.Sizes.{least_words, most_definitions};
ghost use Rattle.trees.specs.Calls.{is_call, calls_in, resolved_in, body_depth};

use memory::codes::CALL;

// Whether these are the words of a `call`.
pub fn is_call(words: [u64; 8], count: usize) -> bool
    requires { length words ≡ 8 }
    ensures { result ≡ is_call words count }
{
    count == 1 && words[0] == CALL
}

// Whether the definition that the node calls, if it calls one, is among the first `definitions`.
pub fn calls_below(words: [u64; 8], count: usize, definitions: u64) -> bool
    requires { length words ≡ 8 }
    ensures { result ≡ leb (calls_in words count) definitions }
{
    !is_call(words, count) || words[2] < definitions
}

// The words of a node with its definition's root, class and type in place of the number.
pub fn resolved(w0: &[u64], words: [u64; 8], count: usize) -> [u64; 8]
    requires { (least_words ≤ length w0.now) × (length words ≡ 8) × (calls_in words count ≤ most_definitions) }
    ensures { result ≡ resolved_in w0.now words count }
{
    if !is_call(words, count) {
        return words;
    }
    let n = words[2] as usize;
    [
        CALL,
        words[1],
        w0[memory::DEFINITION_ROOTS + n],
        w0[memory::DEFINITION_CONTEXTS + n],
        w0[memory::DEFINITION_TYPES + n],
        0,
        0,
        words[7],
    ]
}

// A depth is cut at this: no tree of 768 nodes is deeper.
pub const DEPTH_CUT: u64 = 1000;

// The depth of the body that the node calls, 0 if it calls none.
pub fn body_depth(w1: &[u64], words: [u64; 8], count: usize) -> u64
    requires { (least_words ≤ length w1.now) × (length words ≡ 8) }
    ensures { result ≡ body_depth w1.now words count }
{
    if !is_call(words, count) {
        return 0;
    }
    let root = words[2];
    if memory::MOST_NODES <= root {
        return 0;
    }
    (w1[memory::DEPTHS + root as usize] / 2).min(DEPTH_CUT)
}
