// Words that are an expression by themselves, and `not`s.
ghost use Rattle.std.specs.Prelude.{◌≡◌, ◌+◌, ◌≤◌, ◌<◌, length};
ghost use Rattle.laws.specs.Choice.{map_some};
ghost use Rattle.ocl.specs.Forms.{var};
ghost use Rattle.sheet.specs.Sizes.{least_words};
ghost use Rattle.sheet.specs.Lines.{leaf as leaf_shape};
ghost use Rattle.sheet.specs.Grammar.Words.{variable_word};
ghost use Rattle.tokens.specs.Meanings.{part, onward, Ahead};
ghost use Rattle.tokens.specs.Signs as sign;
ghost use Rattle.shapes.specs.Forms.{FormRead};
ghost use Rattle.importer.specs.Leaves.{leaf_of, NegationsAre};
ghost use Rattle.importer.specs.Steps.{Negates};

use emission::emit;
use memory::codes;
use phrases::words::after;
use shapes::Parsed;
use shapes::built::built;
use shapes::forms::misspelled;
use shapes::literals::number_form;
use text::literals::{integer_literal, real_literal};
use text::numbers::integer;
use tokens::{Token, label, signs};

// `v1`
fn variable(s: &[u8], t: Token, k: u64) -> Parsed
    requires { Ahead s.now t }
    ensures { FormRead k (map_some (λ i. leaf_shape (var i)) (variable_word (part s.now t.start t.end))) result }
{
    let Some(n) = label(s, t, b'v') else {
        return misspelled();
    };
    built(codes::VAR, [n, 0, 0, 0], k)
}

// A number, or a variable.
fn named(s: &[u8], t: Token, k: u64) -> Parsed
    requires { Ahead s.now t × (t.code ≡ sign.other) }
    ensures { FormRead k (map_some leaf_shape (leaf_of (onward s.now t))) result }
{
    let a = t.start;
    let e = t.end;
    match s[a] {
        b'r' => number_form(real_literal(&s[a..e]), k),
        b'0'..=b'9' => number_form(integer_literal(integer(&s[a..e])), k),
        _ => variable(s, t, k),
    }
}

// A literal, `undef`, `self` or a variable; else it is not spelled.
pub fn leaf(s: &[u8], t: Token, k: u64) -> Parsed
    requires { Ahead s.now t }
    ensures { FormRead k (map_some leaf_shape (leaf_of (onward s.now t))) result }
{
    let code = t.code;
    match code {
        codes::FALSE..=codes::UNDEF => built(code, [0; 4], k),
        codes::SELF => built(codes::SELF, [0; 4], k),
        signs::OTHER => named(s, t, k),
        _ => misspelled(),
    }
}

// How many `not`s stand in a row, and the token after them.
#[derive(Clone, Copy)]
pub struct Negations {
    pub next: Token,
    pub count: usize,
}

// The `not`s from t on.
pub fn nots(s: &[u8], t: Token) -> Negations
    requires { Ahead s.now t }
    ensures { NegationsAre s.now t result }
{
    let mut u = t;
    let mut n: usize = 0;
    while let Some(next) = after(s, u, codes::NEGATION) {
        u = next;
        n += 1;
    }
    Negations { next: u, count: n }
}

// Puts so many `not`s down, each over the node before it; the first over node n - 1.
pub fn negate(w2: &mut [u64], n: usize, count: usize, k: u64)
    requires { (least_words ≤ length w2.old) × (0 < n) × (n + count ≤ 18446744073709551615) }
    ensures { Negates k n count w2.old w2.new }
{
    for m in n..n + count {
        emit(w2, m, built(codes::NEGATION, [m as u64 - 1, 0, 0, 0], k));
    }
}
