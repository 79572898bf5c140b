// The type in `iter`, by tokens. It may stand in brackets of its own as deep as the text has any, and few brackets are open in a text
// that is read.
ghost use Rattle.std.specs.Prelude.{◌≡◌, ◌≢◌, false};
ghost use Rattle.sheet.specs.Grammar.Words.{type_word};
ghost use Rattle.sheet.specs.Grammar.Parser.{type_in};
ghost use Rattle.types.specs.Reading.{type_field, held};
ghost use Rattle.tokens.specs.Meanings.{part, onward, Ahead};
ghost use Rattle.tokens.specs.Signs as sign;
ghost use Rattle.phrases.specs.Forms.{is_letter};
ghost use Rattle.phrases.specs.Meanings.{TypeAs, is_bad};

use super::words::after;
use memory::refusals::Misread;
use tokens::{Token, label, next_token, signs};
use types::parts::plain;
use types::reading::{class_of, lettered};
use types::{Base, FlatType};

// The type that a token is by itself.
fn type_word(s: &[u8], t: Token) -> Result<FlatType, Misread>
    requires { Ahead s.now t × (t.code ≢ sign.end) }
    ensures { type_field result ≡ held (type_word (part s.now t.start t.end)) }
{
    let code = t.code;
    match code {
        signs::VOID => Ok(plain(Base::Void)),
        signs::BOOL => Ok(plain(Base::Bool)),
        signs::INT => Ok(plain(Base::Int)),
        signs::REAL => Ok(plain(Base::Real)),
        signs::ANY => Ok(plain(Base::Any)),
        _ => class_of(label(s, t, b'#')),
    }
}

// Whether no type was spelled.
fn is_bad(g: Result<FlatType, Misread>) -> bool
    ensures { result ≡ is_bad (type_field g) }
{
    matches!(g, Err(Misread::Malformed))
}

// A type of one token.
fn single_type(s: &[u8], t: Token) -> Option<(Result<FlatType, Misread>, Token)>
    requires { Ahead s.now t × (is_letter t.code ≡ false) }
    ensures { TypeAs s.now t (type_in (onward s.now t)) result }
{
    if t.code == signs::END {
        return None;
    }
    let of = type_word(s, t);
    if is_bad(of) {
        return None;
    }
    let e = t.end;
    Some((of, next_token(s, e)))
}

// Whether the code is that of a collection's letter.
fn is_letter(code: u64) -> bool
    ensures { result ≡ is_letter code }
{
    matches!(code, signs::SET_LETTER..=signs::COLLECTION_LETTER)
}

// The type that begins at t: one token, or a letter with a type in brackets.
pub fn type_in(s: &[u8], t: Token) -> Option<(Result<FlatType, Misread>, Token)>
    requires { Ahead s.now t }
    ensures { TypeAs s.now t (type_in (onward s.now t)) result }
{
    if !is_letter(t.code) {
        return single_type(s, t);
    }
    let e = t.end;
    let u = after(s, next_token(s, e), signs::OPEN_BRACKET)?;
    let (of, next) = type_in(s, u)?;
    let last = after(s, next, signs::CLOSE_BRACKET)?;
    let a = t.start;
    Some((lettered(s[a], of), last))
}
