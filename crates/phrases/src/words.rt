// Single tokens, and a `let` head.
ghost use Rattle.std.specs.Prelude.{◌≢◌, ◌≡◌, ◌<◌};
ghost use Rattle.sheet.specs.Grammar.Words.{labelled};
ghost use Rattle.sheet.specs.Grammar.Parser.{taking, binding as bindingOf, sign_of};
ghost use Rattle.tokens.specs.Meanings.{onward, Ahead};
ghost use Rattle.tokens.specs.Signs as sign;
ghost use Rattle.phrases.specs.Forms.{level_of, sign_level, labelled_before};
ghost use Rattle.phrases.specs.Meanings.{AfterIs, LabelledAs, SignAs};

use memory::codes;
use tokens::{Token, label, next_token, signs};

// The token after one of this code.
pub fn after(s: &[u8], t: Token, code: u64) -> Option<Token>
    requires { Ahead s.now t × (code ≢ sign.end) }
    ensures { AfterIs s.now t code result }
{
    if t.code != code {
        return None;
    }
    let e = t.end;
    Some(next_token(s, e))
}

// A number behind this letter, and the token after it.
pub fn labelled_at(s: &[u8], t: Token, letter: u8) -> Option<(u64, Token)>
    requires { Ahead s.now t }
    ensures { LabelledAs s.now t (taking (labelled letter) (onward s.now t)) result }
{
    if t.code == signs::END {
        return None;
    }
    let n = label(s, t, letter)?;
    let e = t.end;
    Some((n, next_token(s, e)))
}

// A number behind this letter, and the token after one more token, of this code.
pub fn labelled_before(s: &[u8], t: Token, letter: u8, code: u64) -> Option<(u64, Token)>
    requires { Ahead s.now t × (code ≢ sign.end) }
    ensures { LabelledAs s.now t (labelled_before letter code (onward s.now t)) result }
{
    let (n, next) = labelled_at(s, t, letter)?;
    let u = after(s, next, code)?;
    Some((n, u))
}

// `v1 =`, after `let`.
pub fn binding(s: &[u8], t: Token) -> Option<(u64, Token)>
    requires { Ahead s.now t }
    ensures { LabelledAs s.now t (bindingOf (onward s.now t)) result }
{
    labelled_before(s, t, b'v', codes::EQUAL)
}

// The number of the level that a code's sign is of: `or`, `and`, comparisons, sums, products; 5 for no two-sided sign.
fn sign_level(code: u64) -> u64
    ensures { result ≡ sign_level code }
{
    match code {
        codes::OR => 0,
        codes::AND => 1,
        codes::EQUAL..=codes::LESS => 2,
        codes::PLUS..=codes::MINUS => 3,
        codes::TIMES..=codes::MODULO | codes::OVER => 4,
        _ => 5,
    }
}

// A sign of the level.
pub fn sign(s: &[u8], t: Token, level: u64) -> Option<(u64, Token)>
    requires { Ahead s.now t × (level < 5) }
    ensures { SignAs s.now t (sign_of (level_of level) (onward s.now t)) result }
{
    if sign_level(t.code) != level {
        return None;
    }
    let e = t.end;
    Some((t.code, next_token(s, e)))
}
