// The typing of the definition or the rule with a number, and a node's line, which a refusal names.
ghost use Rattle.std.specs.Prelude.{◌≡◌, ◌≤◌, ◌<◌, length};
ghost use Rattle.sheet.specs.Sizes.{least_words, most_nodes};
ghost use Rattle.nodes.specs.Nodes.{word};
ghost use Rattle.rules.specs.Accepted.{Known};
ghost use Rattle.rules.specs.Numbered.{TypesNumbered, DefinesNumbered};

use memory::refusals::Refused;
use memory::words::wide;
use nodes::node_word;
use tables::Counts;
use types::FlatType;
use typing::rules::{type_definition, type_rule};

// The type of rule r, or its refusal and the node. The marks of its nodes are added to those in w2.
pub fn type_numbered(
    w0: &[u64],
    st: Counts,
    w1: &[u64],
    w2: &mut [u64],
    r: usize,
) -> Result<FlatType, Refused>
    requires least_words_in_bounds { (least_words ≤ length w0.now) × (least_words ≤ length w1.now) × (least_words ≤ length w2.old) }
    requires known { Known st w0.now w1.now × (r < st.rules) }
    ensures { TypesNumbered st w0.now w1.now r w2.old w2.new result }
{
    let classes = wide(st.classes);
    let rows = wide(st.rows);
    let context = w0[memory::CONTEXTS + r] as u8;
    let root = wide(w0[memory::ROOTS + r]);
    type_rule(w0, classes, rows, w1, w2, context, root)
}

// The same for definition d.
pub fn define_numbered(
    w0: &[u64],
    st: Counts,
    w1: &[u64],
    w2: &mut [u64],
    d: usize,
) -> Result<FlatType, Refused>
    requires least_words_in_bounds { (least_words ≤ length w0.now) × (least_words ≤ length w1.now) × (least_words ≤ length w2.old) }
    requires known { Known st w0.now w1.now × (d < st.definitions) }
    ensures { DefinesNumbered st w0.now w1.now d w2.old w2.new result }
{
    let classes = wide(st.classes);
    let rows = wide(st.rows);
    let context = w0[memory::DEFINITION_CONTEXTS + d] as u8;
    let declared = w0[memory::DEFINITION_TYPES + d];
    let root = wide(w0[memory::DEFINITION_ROOTS + d]);
    type_definition(w0, classes, rows, w1, w2, context, declared, root)
}

// The line of node p.
pub fn line_of(w1: &[u64], p: u64) -> u64
    requires { (p < most_nodes) × (least_words ≤ length w1.now) }
    ensures { result ≡ word w1.now p 7 }
{
    node_word(w1, wide(p), 7)
}
