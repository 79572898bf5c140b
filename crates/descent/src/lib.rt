// A text field read by recursive descent: each level calls the next, and primaries call the loosest one again; what is left of the text
// gets shorter. Only brackets and `if`s make calls stand inside one another. Document 02, F-7. It depends on `importer` for leaves, `let`s and nodes.
// `n` is how many nodes there are already, `d` how many `let`s are open, and `k` the line.
#![tactic(auto)]

ghost use Rattle.std.specs.Prelude.{◌≤◌, length};
ghost use Rattle.sheet.specs.Sizes.{least_words};
ghost use Rattle.sheet.specs.Grammar.Sentences.{whole as wholeLevel, disjunction as disjunctionLevel, conjunction as conjunctionLevel, comparison as comparisonLevel, sum as sumLevel, product as productLevel, prefix as prefixLevel};
ghost use Rattle.importer.specs.Descent.{Room, FoundAt};
ghost use Rattle.importer.specs.Imports.{Imports};

use importer::leaves::{negate, nots};
use importer::lets::{close_lets, end_value, let_head};
use importer::puts::joined;
use phrases::words::{after, sign};
use terms::postfix;
use tokens::{Token, next_token, signs};

pub mod terms; // primaries and steps

// Reads a whole text.
pub fn import(s: &[u8], w2: &mut [u64], k: u64) -> Option<usize>
    requires { least_words ≤ length w2.old }
    ensures { Imports k s.now w2.old result w2.new }
{
    let t = next_token(s, 0);
    let (next, nodes) = whole(s, t, w2, 0, 0, k)?;
    if next.code != signs::END {
        return None;
    }
    Some(nodes)
}

// A whole expression: `let`s, as they come, and what stands in them. `unread` is the number of those whose `in` is still to come.
#[cycle(comparison_conjunction_disjunction_prefix_product_sum_argument_braces_condition_iteration_operand_postfix_primary_whole)]
fn whole(s: &[u8], t: Token, w2: &mut [u64], n: usize, d: usize, k: u64) -> Option<(Token, usize)>
    requires { Room s.now t n d w2.old }
    ensures { FoundAt wholeLevel k s.now t n d w2.old result w2.new }
{
    let mut u = t;
    let mut nodes = n;
    let mut lets = d;
    let mut unread: usize = 0;
    loop {
        match let_head(s, u, w2, lets) {
            Some(head) => {
                u = head?;
                lets += 1;
                unread += 1;
            }
            None => {
                let (next, all) = disjunction(s, u, w2, nodes, lets, k)?;
                let closed = close_lets(w2, all, lets, d, k);
                nodes = closed.nodes;
                lets = closed.lets;
                if unread == 0 {
                    let m = nodes + (lets - d);
                    return Some((next, m));
                }
                u = after(s, next, signs::IN_WORD)?;
                end_value(w2, lets, nodes);
                unread -= 1;
            }
        }
    }
}

// Conjunctions with `or` between them. A level that leans left has a loop: what was found so far is the left side.
#[cycle(comparison_conjunction_disjunction_prefix_product_sum_argument_braces_condition_iteration_operand_postfix_primary_whole)]
fn disjunction(
    s: &[u8],
    t: Token,
    w2: &mut [u64],
    n: usize,
    d: usize,
    k: u64,
) -> Option<(Token, usize)>
    requires { Room s.now t n d w2.old }
    ensures { FoundAt disjunctionLevel k s.now t n d w2.old result w2.new }
{
    let mut found = conjunction(s, t, w2, n, d, k);
    while let Some((u, m)) = found {
        let Some((code, next)) = sign(s, u, 0) else {
            return Some((u, m));
        };
        let right = conjunction(s, next, w2, m, d, k);
        found = joined(w2, code, m, right, k);
    }
    None
}

// Comparisons with `and` between them.
#[cycle(comparison_conjunction_disjunction_prefix_product_sum_argument_braces_condition_iteration_operand_postfix_primary_whole)]
fn conjunction(
    s: &[u8],
    t: Token,
    w2: &mut [u64],
    n: usize,
    d: usize,
    k: u64,
) -> Option<(Token, usize)>
    requires { Room s.now t n d w2.old }
    ensures { FoundAt conjunctionLevel k s.now t n d w2.old result w2.new }
{
    let mut found = comparison(s, t, w2, n, d, k);
    while let Some((u, m)) = found {
        let Some((code, next)) = sign(s, u, 1) else {
            return Some((u, m));
        };
        let right = comparison(s, next, w2, m, d, k);
        found = joined(w2, code, m, right, k);
    }
    None
}

// A sum, or two with `=` or `<` between them.
#[cycle(comparison_conjunction_disjunction_prefix_product_sum_argument_braces_condition_iteration_operand_postfix_primary_whole)]
fn comparison(
    s: &[u8],
    t: Token,
    w2: &mut [u64],
    n: usize,
    d: usize,
    k: u64,
) -> Option<(Token, usize)>
    requires { Room s.now t n d w2.old }
    ensures { FoundAt comparisonLevel k s.now t n d w2.old result w2.new }
{
    let (u, m) = sum(s, t, w2, n, d, k)?;
    let Some((code, next)) = sign(s, u, 2) else {
        return Some((u, m));
    };
    let right = sum(s, next, w2, m, d, k);
    joined(w2, code, m, right, k)
}

// Products with `+` or `-` between them.
#[cycle(comparison_conjunction_disjunction_prefix_product_sum_argument_braces_condition_iteration_operand_postfix_primary_whole)]
fn sum(s: &[u8], t: Token, w2: &mut [u64], n: usize, d: usize, k: u64) -> Option<(Token, usize)>
    requires { Room s.now t n d w2.old }
    ensures { FoundAt sumLevel k s.now t n d w2.old result w2.new }
{
    let mut found = product(s, t, w2, n, d, k);
    while let Some((u, m)) = found {
        let Some((code, next)) = sign(s, u, 3) else {
            return Some((u, m));
        };
        let right = product(s, next, w2, m, d, k);
        found = joined(w2, code, m, right, k);
    }
    None
}

// Operands with `*`, `/`, `div` or `mod` between them.
#[cycle(comparison_conjunction_disjunction_prefix_product_sum_argument_braces_condition_iteration_operand_postfix_primary_whole)]
fn product(s: &[u8], t: Token, w2: &mut [u64], n: usize, d: usize, k: u64) -> Option<(Token, usize)>
    requires { Room s.now t n d w2.old }
    ensures { FoundAt productLevel k s.now t n d w2.old result w2.new }
{
    let mut found = prefix(s, t, w2, n, d, k);
    while let Some((u, m)) = found {
        let Some((code, next)) = sign(s, u, 4) else {
            return Some((u, m));
        };
        let right = prefix(s, next, w2, m, d, k);
        found = joined(w2, code, m, right, k);
    }
    None
}

// `not`s, and the postfix expression that they stand before.
#[cycle(comparison_conjunction_disjunction_prefix_product_sum_argument_braces_condition_iteration_operand_postfix_primary_whole)]
fn prefix(s: &[u8], t: Token, w2: &mut [u64], n: usize, d: usize, k: u64) -> Option<(Token, usize)>
    requires { Room s.now t n d w2.old }
    ensures { FoundAt prefixLevel k s.now t n d w2.old result w2.new }
{
    let run = nots(s, t);
    let (next, nodes) = postfix(s, run.next, w2, n, d, k)?;
    negate(w2, nodes, run.count, k);
    Some((next, nodes + run.count))
}
