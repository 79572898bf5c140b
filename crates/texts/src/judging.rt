// A text's nodes, judged in the order of their refusals, 4, 5, 6 and 24, and then placed.
ghost use Rattle.std.specs.Prelude.{◌≡◌, ◌≤◌, length};
ghost use Rattle.sheet.specs.Sizes.{least_words, most_nodes};
ghost use Rattle.tables.specs.Layout.{Fine};
ghost use Rattle.texts.specs.Placing.{HeldNodes};
ghost use Rattle.texts.specs.Judging.{text_limits, text_order, Judged};

use super::gathering::{Gathered, gather};
use super::placing::place;
use memory::lines;
use memory::refusals::Refusal;
use tables::Counts;

// 4: each node is within its limits, and the sheet has no more than 768 nodes.
fn within_limits(st: Counts, g: Gathered, nodes: usize) -> bool
    requires { Fine st × (nodes ≤ most_nodes) }
    ensures { result ≡ text_limits st g nodes }
{
    g.within && st.nodes + nodes as u64 <= memory::MOST_NODES
}

// Only a rule that has no node yet may have a text.
fn in_order(st: Counts, g: Gathered) -> bool
    ensures { result ≡ text_order st g }
{
    st.block <= lines::RULES && st.open == lines::RULE_OPEN && st.first == st.nodes && g.apart
}

// Judges a text of so many nodes, which wait in w2 if they are not too many, and puts them into the node table.
pub fn judge(
    w0: &[u64],
    w1: &mut [u64],
    w2: &[u64],
    st: Counts,
    nodes: usize,
    k: u64,
) -> Result<Counts, Refusal>
    requires { (least_words ≤ length w0.now) × (least_words ≤ length w1.old) × (least_words ≤ length w2.now) × Fine st × (nodes ≤ most_nodes → HeldNodes k nodes w2.now) }
    ensures { Judged st k nodes result w0.now w1.old w2.now w1.new }
{
    if nodes > memory::NODES {
        return Err(Refusal::OverMeasure);
    }
    let g = gather(w2, nodes, k);
    if !within_limits(st, g, nodes) {
        return Err(Refusal::OverMeasure);
    }
    if !in_order(st, g) {
        return Err(Refusal::OutOfRow);
    }
    if st.classes < g.classes {
        return Err(Refusal::UnknownPart);
    }
    if st.definitions < g.calls {
        return Err(Refusal::UnknownDefinition);
    }
    place(w0, w1, w2, st, nodes, k)
}
