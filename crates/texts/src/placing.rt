// The nodes of a text, put into the node table one after the other as node lines put them there.
ghost use Rattle.std.specs.Prelude.{◌≡◌, ◌≤◌, length};
ghost use Rattle.sheet.specs.Sizes.{least_words, most_nodes};
ghost use Rattle.tables.specs.Layout.{Fine};
ghost use Rattle.texts.specs.Placing.{HeldNodes, text_counts, TextPlaced};

use emission::emitted;
use memory::lines;
use memory::refusals::Refusal;
use tables::Counts;
use trees::node::place_node;

// The counts once an X line has given the open rule's nodes.
fn with_text(st: Counts) -> Counts
    ensures { result ≡ text_counts st }
{
    Counts {
        open: lines::TEXT_GIVEN,
        ..st
    }
}

// Puts the first `nodes` nodes that wait in w2. Those of a text make a tree, so that none is refused once all have been judged.
pub fn place(
    w0: &[u64],
    w1: &mut [u64],
    w2: &[u64],
    st: Counts,
    nodes: usize,
    k: u64,
) -> Result<Counts, Refusal>
    requires { (least_words ≤ length w0.now) × (least_words ≤ length w1.old) × (least_words ≤ length w2.now) × Fine st × (nodes ≤ most_nodes) × HeldNodes k nodes w2.now }
    ensures { TextPlaced st k nodes result w0.now w1.old w2.now w1.new }
{
    let mut on = st;
    for i in 0..nodes {
        on = place_node(w0, w1, on, i as u64, emitted(w2, i, k))?;
    }
    Ok(with_text(on))
}
