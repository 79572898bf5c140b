// The end of a definition or rule: a tree that all of its nodes belong to, and that is not too deep, is stored as its class and its
// root, with a definition's type.
ghost use Rattle.std.specs.Prelude.{◌≡◌, ◌+◌, ◌≤◌, length};
ghost use Rattle.sheet.specs.Sizes.{least_words, most_nodes};
ghost use Rattle.tables.specs.Layout.{Fine};
ghost use Rattle.trees.specs.Rules.{RuleRoom, used_in, ended_counts, defined_counts, PutDown, RuleEnded};

use memory::lines;
use memory::refusals::Refusal;
use tables::Counts;

// Whether each of the first `count` nodes from `first` on is an operand.
fn all_used(w1: &[u64], first: usize, count: usize) -> bool
    requires { (least_words ≤ length w1.now) × (first + count ≤ most_nodes) }
    ensures { result ≡ used_in w1.now first count }
{
    (0..count).all(|n| w1[memory::DEPTHS + (first + n)] % 2 == 1)
}

// The counts with the open rule stored.
fn with_rule(st: Counts) -> Counts
    requires { Fine st }
    ensures { result ≡ ended_counts st }
{
    Counts {
        rules: st.rules + 1,
        open: lines::NOTHING_OPEN,
        ..st
    }
}

// The counts with the open definition stored.
fn with_definition(st: Counts) -> Counts
    requires { Fine st }
    ensures { result ≡ defined_counts st }
{
    Counts {
        definitions: st.definitions + 1,
        open: lines::NOTHING_OPEN,
        ..st
    }
}

// Stores the definition or rule that is open, with its root.
fn put_down(w0: &mut [u64], st: Counts, root: u64) -> Counts
    requires { (least_words ≤ length w0.old) × Fine st × RuleRoom st }
    ensures { PutDown st result root w0.old w0.new }
{
    if st.open == lines::DEFINITION_OPEN {
        let n = st.definitions as usize;
        w0[memory::DEFINITION_CONTEXTS + n] = st.context;
        w0[memory::DEFINITION_TYPES + n] = st.result;
        w0[memory::DEFINITION_ROOTS + n] = root;
        return with_definition(st);
    }
    let n = st.rules as usize;
    w0[memory::CONTEXTS + n] = st.context;
    w0[memory::ROOTS + n] = root;
    with_rule(st)
}

// Ends the definition or rule that is open, or refuses it with 8; where none is open, nothing changes.
pub fn end_rule(w0: &mut [u64], w1: &[u64], st: Counts) -> Result<Counts, Refusal>
    requires { (least_words ≤ length w0.old) × (least_words ≤ length w1.now) × Fine st × RuleRoom st }
    ensures { RuleEnded st result w0.old w1.now w0.new }
{
    if st.open == lines::NOTHING_OPEN {
        return Ok(st);
    }
    let first = st.first as usize;
    let nodes = st.nodes as usize;
    if first == nodes {
        return Err(Refusal::BrokenTree);
    }
    let last = nodes - 1;
    if !all_used(w1, first, last - first) {
        return Err(Refusal::BrokenTree);
    }
    if w1[memory::DEPTHS + last] / 2 > memory::MOST_LEVELS {
        return Err(Refusal::BrokenTree);
    }
    Ok(put_down(w0, st, last as u64))
}
