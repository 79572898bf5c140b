// What begins at a token of a text, without recursion but for types: words, `let` heads, signs, postfix steps, primaries. Document 02,
// F-7. It depends on `tokens`, whose codes tell one word from another, on `types` for the type in `iter`, and on `memory` and `nodes` for
// the codes of forms. Numbers are those that `text` reads, a million at most; `next` is the token that comes next.
#![tactic(auto)]

use memory::refusals::Misread;
use tokens::Token;
use types::FlatType;

pub mod words; // a word, a variable, a `let` head, a two-sided sign
pub mod typed; // a type
pub mod steps; // a postfix step
pub mod openings; // a primary

// A postfix step: none, one that breaks off, one that is done, or operands come next: one, or two with `|` between them. `x` is the class,
// attribute or definition of its form, 0 where there is none.
#[derive(Clone, Copy)]
pub enum Postfix {
    Ends,
    Broken,
    Plain {
        code: u64,
        x: u64,
        next: Token,
    },
    Argument {
        code: u64,
        variable: u64,
        next: Token,
    },
    Iteration {
        i: u64,
        j: u64,
        of: Result<FlatType, Misread>,
        next: Token,
    },
}

// A primary that is no leaf: done, or an expression, a condition or members come next.
#[derive(Clone, Copy)]
pub enum Opening {
    All { class: u64, next: Token },
    Bracket(Token),
    Condition(Token),
    Empty { code: u64, next: Token },
    Members { code: u64, next: Token },
}
