// A whole accepted sheet in the words: first what stands outside in the body of each call, in the order of the nodes, since a body has only
// smaller nodes; then the rules. So a body is gone through once for each call of it.
ghost use Rattle.std.specs.Prelude.{◌≤◌, ◌<◌, length};
ghost use Rattle.sheet.specs.Sizes.{least_words, most_nodes, most_rules};
ghost use Rattle.rules.specs.Accepted.{Known};
ghost use Rattle.numbering.specs.Sheets.{SheetRoom, FindsRoot, FindsCalled, TellsCalls, RootsIn, FindsRules, FindsOutside};

use super::NONE;
use super::walk::node;
use judgements::environment::start_env;
use memory::codes::CALL;
use memory::words::wide;
use nodes::node_word;
use tables::Counts;

// The tree at root, where nothing is bound but `self`, which has the context class.
fn root_outside(
    w0: &[u64],
    classes: usize,
    rows: usize,
    w1: &[u64],
    w2: &mut [u64],
    root: usize,
    context: u8,
    best: usize,
) -> usize
    requires root_lt_most_nodes { root < most_nodes }
    requires sheet_room { SheetRoom classes rows (length w0.now) (length w1.now) (length w2.old) }
    ensures { FindsRoot w0.now classes rows w1.now root context best w2.old w2.new result }
{
    let parents = &w0[..classes];
    let nodes = &w1[..memory::NODES_END];
    let least = &w1[memory::DEPTHS..];
    let marks = &mut w2[..memory::NODES];
    node(
        nodes,
        least,
        parents,
        w0,
        rows,
        root,
        start_env(context),
        marks,
        best,
    )
}

// The body that node n calls; where it calls none, nothing is found.
fn called_outside(
    w0: &[u64],
    classes: usize,
    rows: usize,
    w1: &[u64],
    w2: &mut [u64],
    n: usize,
) -> usize
    requires n_lt_most_nodes { n < most_nodes }
    requires sheet_room { SheetRoom classes rows (length w0.now) (length w1.now) (length w2.old) }
    ensures { FindsCalled w0.now classes rows w1.now n w2.old w2.new result }
{
    let nodes = &w1[..memory::NODES_END];
    if node_word(nodes, n, 0) != CALL {
        return NONE;
    }
    let a = wide(node_word(nodes, n, 2));
    if n <= a {
        return NONE;
    }
    let context = (node_word(nodes, n, 3) % memory::CLASS_NUMBERS) as u8;
    root_outside(w0, classes, rows, w1, w2, a, context, NONE)
}

// Puts what is found in the body of each call into w1, where depths were while the sheet was read.
fn tell_calls(w0: &[u64], st: Counts, w1: &mut [u64], w2: &mut [u64])
    requires { SheetRoom st.classes st.rows (length w0.now) (length w1.old) (length w2.old) }
    ensures { TellsCalls st w0.now w1.old w1.new w2.old w2.new }
{
    let classes = wide(st.classes);
    let rows = wide(st.rows);
    for n in 0..memory::NODES {
        w1[memory::DEPTHS + n] = called_outside(w0, classes, rows, w1, w2, n) as u64;
    }
}

// The lowest of all rules, once `tell_calls` has run.
fn rules_outside(w0: &[u64], st: Counts, w1: &[u64], w2: &mut [u64]) -> usize
    requires sheet_room { SheetRoom st.classes st.rows (length w0.now) (length w1.now) (length w2.old) }
    requires rules_le_most_rules { (st.rules ≤ most_rules) × RootsIn st w0.now }
    ensures { FindsRules st w0.now w1.now w2.old w2.new result }
{
    let classes = wide(st.classes);
    let rows = wide(st.rows);
    let mut best = NONE;
    for r in 0..wide(st.rules) {
        let context = w0[memory::CONTEXTS + r] as u8;
        let root = wide(w0[memory::ROOTS + r]);
        best = root_outside(w0, classes, rows, w1, w2, root, context, best);
    }
    best
}

// The node with the lowest line outside the profile, or NONE.
pub fn lowest_outside(w0: &[u64], st: Counts, w1: &mut [u64], w2: &mut [u64]) -> usize
    requires least_words_in_bounds { (least_words ≤ length w0.now) × (least_words ≤ length w1.old) × (least_words ≤ length w2.old) }
    requires known { Known st w0.now w1.old }
    ensures { FindsOutside st w0.now w1.old w1.new w2.old w2.new result }
{
    tell_calls(w0, st, w1, w2);
    rules_outside(w0, st, w1, w2)
}
