// Primaries that are no leaf.
ghost use Rattle.std.specs.Prelude.{◌≡◌, ◌≢◌, true};
ghost use Rattle.tokens.specs.Meanings.{onward, Ahead};
ghost use Rattle.tokens.specs.Signs as sign;
ghost use Rattle.phrases.specs.Forms.{is_collection, class_start, other_start};
ghost use Rattle.phrases.specs.Meanings.{OpeningAs};

use super::Opening;
use super::words::{after, labelled_at};
use memory::codes;
use tokens::{Token, next_token, signs};

// `#1.allInstances()`
fn instances(s: &[u8], t: Token) -> Option<Opening>
    requires { Ahead s.now t × (t.code ≢ sign.end) }
    ensures { OpeningAs s.now t (class_start (onward s.now t)) result }
{
    let (class, dot) = labelled_at(s, t, b'#')?;
    let word = after(s, dot, signs::DOT)?;
    let bracket = after(s, word, codes::ALL)?;
    let close = after(s, bracket, signs::OPEN_BRACKET)?;
    let next = after(s, close, signs::CLOSE_BRACKET)?;
    Some(Opening::All { class, next })
}

// `{` after a collection's word, and `}` if that follows.
fn collection(s: &[u8], t: Token) -> Option<Opening>
    requires { Ahead s.now t × (is_collection t.code ≡ true) }
    ensures { OpeningAs s.now t (other_start (onward s.now t)) result }
{
    let e = t.end;
    let u = after(s, next_token(s, e), signs::OPEN_BRACE)?;
    let closed = after(s, u, signs::CLOSE_BRACE);
    Some(match closed {
        Some(next) => Opening::Empty { code: t.code, next },
        None => Opening::Members {
            code: t.code,
            next: u,
        },
    })
}

// Whether the code is that of `Set`, `Sequence` or `Bag`.
fn is_collection(code: u64) -> bool
    ensures { result ≡ is_collection code }
{
    matches!(code, codes::SET..=codes::BAG)
}

// A primary that is no leaf, if one begins here.
pub fn opening(s: &[u8], t: Token) -> Option<Opening>
    requires { Ahead s.now t }
    ensures { OpeningAs s.now t (other_start (onward s.now t)) result }
{
    let e = t.end;
    let code = t.code;
    if is_collection(code) {
        return collection(s, t);
    }
    match code {
        codes::CONDITIONAL => Some(Opening::Condition(next_token(s, e))),
        signs::OPEN_BRACKET => Some(Opening::Bracket(next_token(s, e))),
        signs::END => None,
        _ => instances(s, t),
    }
}
