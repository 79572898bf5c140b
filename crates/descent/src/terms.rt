// Primaries and their postfix steps.
// `n` is how many nodes there are already, `d` how many `let`s are open, and `k` the line.
ghost use Rattle.std.specs.Prelude.{◌≡◌, ◌≢◌, ℕ, ◌<◌};
ghost use Rattle.std.proofs.Math.Option.{some};
ghost use Rattle.sheet.specs.Grammar.Sentences.{postfix as postfixLevel, primary as primaryLevel};
ghost use Rattle.ocl.specs.Types.{Kind, Ty};
ghost use Rattle.sheet.specs.Grammar.Trees.{Two, iterate};
ghost use Rattle.sheet.specs.Grammar.Parser.{Start, Next};
ghost use Rattle.text.specs.Numbers.{cut};
ghost use Rattle.types.specs.Reading.{type_field, held};
ghost use Rattle.nodes.specs.Nodes.{assemble_code};
ghost use Rattle.tokens.specs.Meanings.{onward};
ghost use Rattle.tokens.specs.Signs as sign;
ghost use Rattle.phrases.specs.Meanings.{StandsAsTwo};
ghost use Rattle.shapes.specs.Iterate.{Held};
ghost use Rattle.importer.specs.Descent.{Room, FoundAt, ClosedAt};
ghost use Rattle.importer.specs.Steps.{BegunAt, StepAt};

use super::whole;
use emission::emit;
use importer::begin::{Begun, begin};
use importer::puts::{put_condition, put_iteration, put_one, put_two};
use memory::refusals::Misread;
use phrases::Postfix;
use phrases::steps::step;
use phrases::words::after;
use shapes::built::assembled;
use tokens::{Token, signs};
use types::FlatType;

// A primary and its steps.
#[cycle(comparison_conjunction_disjunction_prefix_product_sum_argument_braces_condition_iteration_operand_postfix_primary_whole)]
pub fn postfix(
    s: &[u8],
    t: Token,
    w2: &mut [u64],
    n: usize,
    d: usize,
    k: u64,
) -> Option<(Token, usize)>
    requires { Room s.now t n d w2.old }
    ensures { FoundAt postfixLevel k s.now t n d w2.old result w2.new }
{
    let mut found = primary(s, t, w2, n, d, k);
    while let Some((u, m)) = found {
        let what = step(s, u);
        match what {
            Postfix::Ends => {
                return Some((u, m));
            }
            Postfix::Broken => {
                return None;
            }
            Postfix::Plain { code, x, next } => {
                put_one(w2, code, x, m, k);
                found = Some((next, m + 1));
            }
            Postfix::Argument {
                code,
                variable,
                next,
            } => {
                found = argument(s, next, w2, m, d, k, code, variable);
            }
            Postfix::Iteration { i, j, of, next } => {
                found = iteration(s, next, w2, m, d, k, i, j, of);
            }
        }
    }
    None
}

// A whole expression, and a token of this code after it.
#[cycle(comparison_conjunction_disjunction_prefix_product_sum_argument_braces_condition_iteration_operand_postfix_primary_whole)]
fn operand(
    s: &[u8],
    t: Token,
    w2: &mut [u64],
    n: usize,
    d: usize,
    k: u64,
    code: u64,
) -> Option<(Token, usize)>
    requires { Room s.now t n d w2.old × (code ≢ sign.end) }
    ensures { ClosedAt code k s.now t n d w2.old result w2.new }
{
    let (next, nodes) = whole(s, t, w2, n, d, k)?;
    let u = after(s, next, code)?;
    Some((u, nodes))
}

// The operand of a step, with its variable if it binds one; node n - 1 is what the step is applied to.
#[cycle(comparison_conjunction_disjunction_prefix_product_sum_argument_braces_condition_iteration_operand_postfix_primary_whole)]
fn argument(
    s: &[u8],
    t: Token,
    w2: &mut [u64],
    n: usize,
    d: usize,
    k: u64,
    code: u64,
    variable: u64,
) -> Option<(Token, usize)>
    requires { Room s.now t n d w2.old × (0 < n) }
    ensures { (g : Two) → StandsAsTwo g code variable → StepAt (Next.argument g (onward s.now t)) k s.now t n d w2.old result w2.new }
{
    let (next, nodes) = operand(s, t, w2, n, d, k, signs::CLOSE_BRACKET)?;
    put_two(w2, code, variable, n, nodes, k);
    Some((next, nodes + 1))
}

// The operands of `iter`.
#[cycle(comparison_conjunction_disjunction_prefix_product_sum_argument_braces_condition_iteration_operand_postfix_primary_whole)]
fn iteration(
    s: &[u8],
    t: Token,
    w2: &mut [u64],
    n: usize,
    d: usize,
    k: u64,
    i: u64,
    j: u64,
    of: Result<FlatType, Misread>,
) -> Option<(Token, usize)>
    requires { Room s.now t n d w2.old × (0 < n) × Held of }
    ensures { (x y : ℕ) (a : Ty) → i ≡ cut x → j ≡ cut y → type_field of ≡ held (some a) → StepAt (Next.iteration (iterate x y a) (onward s.now t)) k s.now t n d w2.old result w2.new }
{
    let (u, m) = operand(s, t, w2, n, d, k, signs::BAR)?;
    let (next, nodes) = operand(s, u, w2, m, d, k, signs::CLOSE_BRACKET)?;
    put_iteration(w2, i, j, of, n, m, nodes, k);
    Some((next, nodes + 1))
}

// A primary.
#[cycle(comparison_conjunction_disjunction_prefix_product_sum_argument_braces_condition_iteration_operand_postfix_primary_whole)]
fn primary(s: &[u8], t: Token, w2: &mut [u64], n: usize, d: usize, k: u64) -> Option<(Token, usize)>
    requires { Room s.now t n d w2.old }
    ensures { FoundAt primaryLevel k s.now t n d w2.old result w2.new }
{
    let begun = begin(s, t, w2, n, k)?;
    match begun {
        Begun::Done(next) => Some((next, n + 1)),
        Begun::Bracket(u) => operand(s, u, w2, n, d, k, signs::CLOSE_BRACKET),
        Begun::Condition(u) => condition(s, u, w2, n, d, k),
        Begun::Members { code, next } => braces(s, next, w2, n, d, k, code),
    }
}

// What follows `if`: the condition, both branches, and `endif`.
#[cycle(comparison_conjunction_disjunction_prefix_product_sum_argument_braces_condition_iteration_operand_postfix_primary_whole)]
fn condition(
    s: &[u8],
    t: Token,
    w2: &mut [u64],
    n: usize,
    d: usize,
    k: u64,
) -> Option<(Token, usize)>
    requires { Room s.now t n d w2.old }
    ensures { BegunAt (Start.condition (onward s.now t)) k s.now t n d w2.old result w2.new }
{
    let (u, a) = operand(s, t, w2, n, d, k, signs::THEN_WORD)?;
    let (v, b) = operand(s, u, w2, a, d, k, signs::ELSE_WORD)?;
    let (next, c) = operand(s, v, w2, b, d, k, signs::ENDIF_WORD)?;
    put_condition(w2, a, b, c, k);
    Some((next, c + 1))
}

// One member or more, four at most, and the closing brace.
#[cycle(comparison_conjunction_disjunction_prefix_product_sum_argument_braces_condition_iteration_operand_postfix_primary_whole)]
fn braces(
    s: &[u8],
    t: Token,
    w2: &mut [u64],
    n: usize,
    d: usize,
    k: u64,
    code: u64,
) -> Option<(Token, usize)>
    requires { Room s.now t n d w2.old }
    ensures { (a : Kind) → assemble_code a ≡ code → BegunAt (Start.collection a (onward s.now t)) k s.now t n d w2.old result w2.new }
{
    let mut at: [u64; 4] = [0; 4];
    let mut u = t;
    let mut nodes = n;
    for m in 0..4 {
        let (next, all) = whole(s, u, w2, nodes, d, k)?;
        at[m] = all as u64 - 1;
        let closed = after(s, next, signs::CLOSE_BRACE);
        if let Some(v) = closed {
            emit(w2, all, assembled(code, at, m + 1, k));
            return Some((v, all + 1));
        }
        u = after(s, next, signs::COMMA)?;
        nodes = all;
    }
    None
}
