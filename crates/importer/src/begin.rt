// How a primary begins.
ghost use Rattle.std.specs.Prelude.{◌≤◌, length};
ghost use Rattle.sheet.specs.Sizes.{least_words};
ghost use Rattle.tokens.specs.Meanings.{Ahead};
ghost use Rattle.importer.specs.Puts.{BeginAt};

use super::leaves::leaf;
use emission::emit;
use memory::codes::ALL;
use phrases::Opening;
use phrases::openings::opening;
use shapes::built::{assembled, built};
use tokens::{Token, next_token};

// A primary of a single node, which is put down; or an expression, a condition or members come next.
#[derive(Clone, Copy)]
pub enum Begun {
    Done(Token),
    Bracket(Token),
    Condition(Token),
    Members { code: u64, next: Token },
}

// How the primary at t begins, if one does. One of a single node is put down as node n.
pub fn begin(s: &[u8], t: Token, w2: &mut [u64], n: usize, k: u64) -> Option<Begun>
    requires { Ahead s.now t × (least_words ≤ length w2.old) }
    ensures { BeginAt k s.now t n w2.old result w2.new }
{
    let p = leaf(s, t, k);
    if p.spelled {
        emit(w2, n, p);
        let e = t.end;
        return Some(Begun::Done(next_token(s, e)));
    }
    let found = opening(s, t)?;
    Some(match found {
        Opening::All { class, next } => {
            emit(w2, n, built(ALL, [class, 0, 0, 0], k));
            Begun::Done(next)
        }
        Opening::Bracket(u) => Begun::Bracket(u),
        Opening::Condition(u) => Begun::Condition(u),
        Opening::Empty { code, next } => {
            emit(w2, n, assembled(code, [0; 4], 0, k));
            Begun::Done(next)
        }
        Opening::Members { code, next } => Begun::Members { code, next },
    })
}
