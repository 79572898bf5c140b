// What is asked of all nodes of a text together: 4 of its last node comes before 5 of its first one.
ghost use Rattle.std.specs.Prelude.{◌≡◌, ◌&&◌, ◌+◌, ◌≤◌, min, length};
ghost use Rattle.sheet.specs.Sizes.{least_words, most_nodes, most_definitions};
ghost use Rattle.trees.specs.Calls.{calls_in};
ghost use Rattle.texts.specs.Gathering.{joined, Gathers};

use emission::emitted;
use shapes::Parsed;
use trees::calls::is_call;

// Whether all are within their limits, whether all have two variables that differ, how many classes there must be, and how many
// definitions.
#[derive(Clone, Copy)]
pub struct Gathered {
    pub within: bool,
    pub apart: bool,
    pub classes: u64,
    pub calls: u64,
}

// More definitions than there may be.
const TOO_MANY: u64 = memory::MOST_DEFINITIONS + 1;

// How many definitions there must be for the one that a node calls; TOO_MANY where no sheet can have it.
fn called(words: [u64; 8], count: usize) -> u64
    requires { length words ≡ 8 }
    ensures { result ≡ min (calls_in words count) (most_definitions + 1) }
{
    if !is_call(words, count) {
        return 0;
    }
    if words[2] < memory::MOST_DEFINITIONS {
        words[2] + 1
    } else {
        TOO_MANY
    }
}

// What is asked with one node more.
fn with_node(g: Gathered, p: Parsed) -> Gathered
    requires { length p.words ≡ 8 }
    ensures { result ≡ joined g p }
{
    Gathered {
        within: g.within && p.within,
        apart: g.apart && p.apart,
        classes: g.classes.max(p.classes),
        calls: g.calls.max(called(p.words, p.count)),
    }
}

// What is asked of the first `nodes` nodes that wait in w2.
pub fn gather(w2: &[u64], nodes: usize, k: u64) -> Gathered
    requires { (least_words ≤ length w2.now) × (nodes ≤ most_nodes) }
    ensures { Gathers k nodes w2.now result }
{
    let mut g = Gathered {
        within: true,
        apart: true,
        classes: 0,
        calls: 0,
    };
    for i in 0..nodes {
        g = with_node(g, emitted(w2, i, k));
    }
    g
}
