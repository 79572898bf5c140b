// The tokens of a text, one at a time: where each begins and ends, and a code that tells what it is, so that no word is compared
// twice. Document 02, F-7. It depends on `text` for numbers and for words by their length.
#![tactic(auto)]

ghost use Rattle.std.specs.Prelude.{◌≡◌, ◌≤◌, length};
ghost use Rattle.sheet.specs.Sizes.{most_open};
ghost use Rattle.sheet.specs.Grammar.Words.{labelled};
ghost use Rattle.sheet.specs.Texts.{brackets_within};
ghost use Rattle.text.specs.Numbers.{cut_num};
ghost use Rattle.tokens.specs.Meanings.{part, Ahead, NextIs, open_after, open_by, bytes_within};

use codes::token_code;
use cutting::{skip, token_end};
use memory::codes::CONDITIONAL;
use text::numbers::number;

pub mod cutting; // where a token ends
pub mod codes; // what it is
pub mod signs; // the codes of words and signs that stand for no form

// A token's bytes and its code. Where none is left, it has no bytes and the code END.
#[derive(Clone, Copy)]
pub struct Token {
    pub start: usize,
    pub end: usize,
    pub code: u64,
}

// The next token from `at` on.
pub fn next_token(s: &[u8], at: usize) -> Token
    requires { at ≤ length s.now }
    ensures { NextIs s.now at result }
{
    let start = skip(s, at);
    if start < s.len() {
        let end = token_end(s, start);
        return Token {
            start,
            end,
            code: token_code(&s[start..end]),
        };
    }
    Token {
        start,
        end: start,
        code: signs::END,
    }
}

// The number of a token that is this letter and a number, a million at most.
pub fn label(s: &[u8], t: Token, letter: u8) -> Option<u64>
    requires { Ahead s.now t }
    ensures { result ≡ cut_num (labelled letter (part s.now t.start t.end)) }
{
    match &s[t.start..t.end] {
        [b, digits @ ..] if *b == letter => number(digits),
        _ => None,
    }
}

// How many brackets and `if`s are open after a token of this code, where `depth` were before it.
fn open_after(code: u64, depth: usize) -> usize
    requires { depth ≤ most_open }
    ensures { result ≡ open_after code depth }
{
    match code {
        CONDITIONAL | signs::OPEN_BRACKET | signs::OPEN_BRACE => depth + 1,
        signs::CLOSE_BRACKET | signs::CLOSE_BRACE | signs::ENDIF_WORD => depth.saturating_sub(1),
        _ => depth,
    }
}

// The same by bytes alone, where no `if` ever closes: after the byte b, which follows an `i` or not.
fn open_by(follows: bool, b: u8, depth: usize) -> usize
    requires { depth ≤ most_open }
    ensures { result ≡ open_by follows b depth }
{
    match b {
        b'(' | b'{' => depth + 1,
        b')' | b'}' => depth.saturating_sub(1),
        b'f' if follows => depth + 1,
        _ => depth,
    }
}

// Whether no more than 64 are open together even if no `if` ever closes. This is faster than cutting tokens, and most texts pass it.
fn few_by_bytes(s: &[u8]) -> bool
    ensures { result ≡ bytes_within s.now }
{
    let mut depth = 0;
    let mut follows = false;
    for &b in s {
        depth = open_by(follows, b, depth);
        if memory::MOST_OPEN < depth {
            return false;
        }
        follows = b == b'i';
    }
    true
}

// Whether no more than 64 brackets and `if`s are ever open together.
pub fn few_open(s: &[u8]) -> bool
    ensures { result ≡ brackets_within s.now }
{
    if few_by_bytes(s) {
        return true;
    }
    let mut depth = 0;
    let mut t = next_token(s, 0);
    // from token to token, which differ in length
    while t.code != signs::END {
        depth = open_after(t.code, depth);
        if memory::MOST_OPEN < depth {
            return false;
        }
        t = next_token(s, t.end);
    }
    true
}
