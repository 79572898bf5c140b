// A node line: its limits, its order, its parts, the definition that it calls and its operands are judged in the order of their
// refusals, 4, 5, 6, 23 or 24, and 8; then its words are written.
ghost use Rattle.std.specs.Prelude.{◌≡◌, true, [], ◌≤◌, length, get_or};
ghost use Rattle.sheet.specs.Sizes.{least_words};
ghost use Rattle.sheet.specs.Text.{bytes, fields_of};
ghost use Rattle.sheet.specs.Lines.{is};
ghost use Rattle.text.specs.Parts.{Cut};
ghost use Rattle.tables.specs.Layout.{Fine, Took};
ghost use Rattle.trees.specs.Rules.{node_limits, node_order, node_counts, Fit, Placed};

use super::calls::{body_depth, calls_below, resolved};
use super::operands::{mark, operands_within, put_words};
use memory::lines;
use memory::refusals::Refusal;
use shapes::Parsed;
use shapes::forms::read_form;
use tables::Counts;
use text::numbers::number;
use text::parts::{Fields, field};
use text::words::form_code;

// 4: the node's number, its form and its operands are within their limits, and the sheet has room for it.
fn within_limits(st: Counts, n: u64, p: Parsed) -> bool
    requires { (length p.words ≡ 8) × (p.count ≤ 4) }
    ensures { result ≡ node_limits st n p }
{
    n < memory::MOST_NODES
        && p.within
        && operands_within(p.words, p.count)
        && st.nodes < memory::MOST_NODES
}

// 5: a definition or rule without a text is open, this is its next node, and its two variables differ.
fn in_order(st: Counts, n: u64, p: Parsed) -> bool
    requires { Fine st }
    ensures { result ≡ node_order st n p }
{
    if st.block > lines::RULES {
        return false;
    }
    if st.open == lines::NOTHING_OPEN {
        return false;
    }
    if st.open == lines::TEXT_GIVEN {
        return false;
    }
    if n != st.nodes - st.first {
        return false;
    }
    p.apart
}

// The counts with one node more.
fn with_node(st: Counts) -> Counts
    requires { Fine st }
    ensures { result ≡ node_counts st }
{
    Counts {
        nodes: st.nodes + 1,
        ..st
    }
}

// Puts a node that can be refused for its operands alone (8).
fn put_node(w0: &[u64], w1: &mut [u64], st: Counts, n: u64, p: Parsed) -> Result<Counts, Refusal>
    requires { (least_words ≤ length w0.now) × (least_words ≤ length w1.old) × Fine st × (length p.words ≡ 8) × (p.count ≤ 4) × Fit st n p }
    ensures { Placed st n p result w0.now w1.old w1.new }
{
    let words = p.words;
    let count = p.count;
    let first = st.first;
    let full = resolved(w0, words, count);
    let body = body_depth(w1, full, count);
    let Some(d) = mark(w1, words, count, first, n) else {
        return Err(Refusal::BrokenTree);
    };
    let m = st.nodes as usize;
    put_words(w1, m, full, count, first);
    w1[memory::DEPTHS + m] = 2 * (d.max(body) + 1);
    Ok(with_node(st))
}

// Puts node n, or refuses it. A call of what is not a smaller definition is 23 in a definition; in a rule it is 24.
pub fn place_node(
    w0: &[u64],
    w1: &mut [u64],
    st: Counts,
    n: u64,
    p: Parsed,
) -> Result<Counts, Refusal>
    requires { (least_words ≤ length w0.now) × (least_words ≤ length w1.old) × Fine st × (length p.words ≡ 8) × (p.count ≤ 4) }
    ensures { Placed st n p result w0.now w1.old w1.new }
{
    let words = p.words;
    if !within_limits(st, n, p) {
        return Err(Refusal::OverMeasure);
    }
    if !in_order(st, n, p) {
        return Err(Refusal::OutOfRow);
    }
    if st.classes < p.classes {
        return Err(Refusal::UnknownPart);
    }
    if calls_below(words, p.count, st.definitions) {
        return put_node(w0, w1, st, n, p);
    }
    if st.open == lines::DEFINITION_OPEN {
        return Err(Refusal::CallUpward);
    }
    Err(Refusal::UnknownDefinition)
}

// Takes line k, whose first field is `N`.
pub fn node_line(
    line: &[u8],
    f: Fields,
    w0: &[u64],
    w1: &mut [u64],
    st: Counts,
    k: u64,
) -> Result<Counts, Refusal>
    requires { Cut line.now f × (is (get_or (fields_of line.now) 0 []) (bytes "N") ≡ true) × (least_words ≤ length w0.now) × (least_words ≤ length w1.old) × Fine st }
    ensures { Took st k line.now result w0.now w1.old w0.now w1.new }
{
    if f.count < 3 {
        return Err(Refusal::BadLine);
    }
    let Some(n) = number(field(line, f, 1)) else {
        return Err(Refusal::BadLine);
    };
    let p = read_form(line, f, form_code(field(line, f, 2)), k);
    if !p.spelled {
        return Err(Refusal::BadLine);
    }
    place_node(w0, w1, st, n, p)
}
