// The `let`s that are open: their variables and their values' roots lie in w2, behind the nodes.
ghost use Rattle.std.specs.Prelude.{◌+◌, ◌≤◌, ◌<◌, length};
ghost use Rattle.sheet.specs.Sizes.{least_words};
ghost use Rattle.tokens.specs.Meanings.{Ahead};
ghost use Rattle.importer.specs.Lets.{BoundAt, HeadAt, LetOpened, ValueEnded, LetsClosed};

use emission::emit;
use memory::codes::LET_IN;
use phrases::words::{after, binding};
use shapes::built::built;
use tokens::Token;

// Opens one `let` more, whose value is still to be read.
fn open_let(w2: &mut [u64], lets: usize, variable: u64)
    requires { least_words ≤ length w2.old }
    ensures { LetOpened lets variable w2.old w2.new }
{
    if lets < memory::NODES {
        w2[memory::LET_VARIABLES + lets] = variable;
        w2[memory::LET_ROOTS + lets] = 0;
    }
}

// `v1 =`, after `let`: opens the `let`, whose value comes next.
pub fn bound_head(s: &[u8], t: Token, w2: &mut [u64], lets: usize) -> Option<Token>
    requires { Ahead s.now t × (least_words ≤ length w2.old) }
    ensures { BoundAt s.now t lets w2.old result w2.new }
{
    let (n, next) = binding(s, t)?;
    open_let(w2, lets, n);
    Some(next)
}

// `let v1 =`, if a `let` begins here: the token after it, or none where the `let` breaks off.
pub fn let_head(s: &[u8], t: Token, w2: &mut [u64], lets: usize) -> Option<Option<Token>>
    requires { Ahead s.now t × (least_words ≤ length w2.old) }
    ensures { HeadAt s.now t lets w2.old result w2.new }
{
    let begun = after(s, t, LET_IN)?;
    Some(bound_head(s, begun, w2, lets))
}

// Where the root of the last of n `let`s lies: n words from here.
const LAST_ROOT: usize = memory::LET_ROOTS - 1;

// Notes that the value of the innermost `let` has been read: its root is the last of so many nodes.
pub fn end_value(w2: &mut [u64], lets: usize, nodes: usize)
    requires { least_words ≤ length w2.old }
    ensures { ValueEnded lets nodes w2.old w2.new }
{
    if lets <= memory::NODES {
        w2[LAST_ROOT + lets] = nodes as u64;
    }
}

// How many nodes there are, and how many `let`s are open.
#[derive(Clone, Copy)]
pub struct Closed {
    pub nodes: usize,
    pub lets: usize,
}

// Puts down the `let`s whose bodies an expression ends, from the innermost on; none where that would be more than 768 nodes.
pub fn close_lets(w2: &mut [u64], nodes: usize, lets: usize, from: usize, k: u64) -> Closed
    requires { (least_words ≤ length w2.old) × (from ≤ lets) × (0 < nodes) × (nodes + lets ≤ 18446744073709551615) }
    ensures { LetsClosed k from nodes lets w2.old result w2.new }
{
    if memory::NODES < nodes + lets {
        return Closed { nodes, lets };
    }
    let mut n = nodes;
    for i in (from..lets).rev() {
        let root = w2[memory::LET_ROOTS + i];
        if root == 0 {
            return Closed {
                nodes: n,
                lets: i + 1,
            };
        }
        let variable = w2[memory::LET_VARIABLES + i];
        emit(
            w2,
            n,
            built(LET_IN, [variable, root - 1, n as u64 - 1, 0], k),
        );
        n += 1;
    }
    Closed {
        nodes: n,
        lets: from,
    }
}
