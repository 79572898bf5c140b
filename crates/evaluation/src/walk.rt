// The recursion over operand nodes: an operand, a node by its form, and the forms that run each operand once. Every function of the
// recursion takes the tables and their counts; the nodes, with their marks behind them; a node; for each variable, one more than the
// index of its first cell, or 0 if it is unbound; the stack and its top sp; how many levels may still follow; and the steps begun so far.
ghost use Rattle.std.specs.Prelude.{◌+◌, ◌≤◌, ◌<◌, length};
ghost use Rattle.memory.specs.Codes as code;
ghost use Rattle.ocl.specs.Forms.{levels};
ghost use Rattle.ocl.specs.Evaluation.{most_steps};
ghost use Rattle.nodes.specs.Nodes.{tree_at};
ghost use Rattle.evaluation.specs.Traces.{answer_in, EvalsT};
ghost use Rattle.evaluation.specs.Evaluating.{ReadsWorld, StackRoom, operand_tree, node_for, operand_for, unary_node, binary_node, assemble_node, Shallow};

use crate::Traced;
use crate::answers::{arose, pack, place_of, unpack};
use crate::bind::{call, iter, let_in, quantified};
use crate::lazy::{conditional, connective};
use memory::codes;
use memory::words::wide;
use nodes::node_word;
use operations::apply::{binary_apply, left_fits};
use operations::leaves::leaf;
use operations::operand::{of_undefined, of_value};
use outcomes::answers::formed;
use tables::Counts;
use values::collections::assemble;

// Once this many steps have begun, the next one is the step stop.
const LIMIT: u64 = 1_000_000;

// Operand k of node n. On an accepted sheet it is a smaller node; any other would count as `undef` at node 0.
#[cycle(call_fold_iter_let_in_quantified_seek_conditional_connective_right_below_binary_coll_node_unary_word)]
pub fn below(
    tables: &[u64],
    st: Counts,
    nodes: &[u64],
    n: usize,
    k: usize,
    env: &[usize; memory::VARIABLES],
    stack: &mut [u64],
    sp: usize,
    left: usize,
    steps: u64,
) -> Traced
    requires stack_room { StackRoom st (length tables.now) (length nodes.now) (length stack.old) n sp left }
    requires k_bound { (k < 8) × (levels (operand_tree nodes.now n k) ≤ left) }
    ensures { EvalsT (ReadsWorld st tables.now nodes.now) (operand_for nodes.now n k) env.now sp steps stack.old stack.new result }
{
    if LIMIT <= steps {
        return Traced::Stop { number: 16, steps };
    }
    let a = wide(node_word(nodes, n, k));
    if a < n {
        return unpack(word(tables, st, nodes, a, env, stack, sp, left, steps));
    }
    let began = steps + 1;
    Traced::Undef {
        steps: began,
        place: place_of(0, began),
    }
}

// Node n's answer as one word, which comes back in a register: reading an enum from memory right after it was written there makes
// the processor wait. For the same reason `nodes` is lent anew: its start and its length are then read one by one, as they were
// written.
#[cycle(call_fold_iter_let_in_quantified_seek_conditional_connective_right_below_binary_coll_node_unary_word)]
pub fn word(
    tables: &[u64],
    st: Counts,
    nodes: &[u64],
    n: usize,
    env: &[usize; memory::VARIABLES],
    stack: &mut [u64],
    sp: usize,
    left: usize,
    steps: u64,
) -> u64
    requires stack_room { StackRoom st (length tables.now) (length nodes.now) (length stack.old) n sp left }
    requires n_bound { (levels (tree_at nodes.now n) ≤ left) × (steps < most_steps) }
    ensures { EvalsT (ReadsWorld st tables.now nodes.now) (node_for nodes.now n) env.now sp steps stack.old stack.new (answer_in result) }
{
    pack(node(tables, st, &*nodes, n, env, stack, sp, left, steps))
}

// Node n: begins a step, then does what its form asks.
#[cycle(call_fold_iter_let_in_quantified_seek_conditional_connective_right_below_binary_coll_node_unary_word)]
fn node(
    tables: &[u64],
    st: Counts,
    nodes: &[u64],
    n: usize,
    env: &[usize; memory::VARIABLES],
    stack: &mut [u64],
    sp: usize,
    left: usize,
    steps: u64,
) -> Traced
    requires stack_room { StackRoom st (length tables.now) (length nodes.now) (length stack.old) n sp left }
    requires n_bound { (levels (tree_at nodes.now n) ≤ left) × (steps < most_steps) }
    ensures { EvalsT (ReadsWorld st tables.now nodes.now) (node_for nodes.now n) env.now sp steps stack.old stack.new result }
{
    let s = steps + 1;
    let deeper = left - 1;
    let form = node_word(nodes, n, 0);
    match form {
        codes::FALSE..=codes::ALL => {
            let value = leaf(tables, st, form, node_word(nodes, n, 1), env, stack, sp, s);
            arose(value, place_of(n, s))
        }
        codes::NEGATION..=codes::CAST_TO | codes::IS_UNDEF | codes::OF_OBJECT..=codes::OF_MEMBERS =>
            unary(tables, st, nodes, n, form, env, stack, sp, deeper, s),
        codes::EQUAL..=codes::UNION | codes::OVER => binary(
            tables, st, nodes, n, form, env, stack, sp, deeper, s,
        ),
        codes::AND..=codes::OR => connective(tables, st, nodes, n, form, env, stack, sp, deeper, s),
        codes::FOR_ALL..=codes::EXISTS => {
            let i = wide(node_word(nodes, n, 3) % memory::VARIABLE_NUMBERS);
            quantified(tables, st, nodes, n, form, i, env, stack, sp, deeper, s)
        }
        codes::SET..=codes::BAG => coll(tables, st, nodes, n, form, env, stack, sp, deeper, s),
        codes::CONDITIONAL => conditional(tables, st, nodes, n, env, stack, sp, deeper, s),
        codes::LET_IN => let_in(tables, st, nodes, n, env, stack, sp, deeper, s),
        codes::ITERATE => iter(tables, st, nodes, n, env, stack, sp, deeper, s),
        codes::CALL => call(tables, st, nodes, n, env, stack, sp, deeper, s),
        _ => Traced::Undef {
            steps: s,
            place: place_of(n, s),
        },
    }
}

// A form with one operand: runs it, then acts by the form's code.
#[cycle(call_fold_iter_let_in_quantified_seek_conditional_connective_right_below_binary_coll_node_unary_word)]
fn unary(
    tables: &[u64],
    st: Counts,
    nodes: &[u64],
    n: usize,
    form: u64,
    env: &[usize; memory::VARIABLES],
    stack: &mut [u64],
    sp: usize,
    left: usize,
    steps: u64,
) -> Traced
    requires stack_room { StackRoom st (length tables.now) (length nodes.now) (length stack.old) n sp (left + 1) }
    requires negation_le_form { (code.negation ≤ form) × (1 ≤ steps) × (steps ≤ most_steps) × (levels (operand_tree nodes.now n 1) ≤ left) }
    ensures { EvalsT (ReadsWorld st tables.now nodes.now) (unary_node nodes.now n form) env.now sp steps stack.old stack.new result }
{
    let first = below(tables, st, nodes, n, 1, env, stack, sp, left, steps);
    match first {
        Traced::Value { len, steps: s } => {
            let value = of_value(tables, st, nodes, n, form, stack, sp, len, s);
            arose(value, place_of(n, steps))
        }
        Traced::Undef { steps: s, place } => arose(of_undefined(form, stack, sp, s), place),
        Traced::Stuck => Traced::Stuck,
        Traced::Stop { number, steps: s } => Traced::Stop { number, steps: s },
    }
}

// A form with two strict operands; the left one's kind is checked before the right one runs.
#[cycle(call_fold_iter_let_in_quantified_seek_conditional_connective_right_below_binary_coll_node_unary_word)]
fn binary(
    tables: &[u64],
    st: Counts,
    nodes: &[u64],
    n: usize,
    form: u64,
    env: &[usize; memory::VARIABLES],
    stack: &mut [u64],
    sp: usize,
    left: usize,
    steps: u64,
) -> Traced
    requires stack_room { StackRoom st (length tables.now) (length nodes.now) (length stack.old) n sp (left + 1) }
    requires equal_le_form { (code.equal ≤ form) × (1 ≤ steps) × (steps ≤ most_steps) × (levels (operand_tree nodes.now n 1) ≤ left) × (levels (operand_tree nodes.now n 2) ≤ left) }
    ensures { EvalsT (ReadsWorld st tables.now nodes.now) (binary_node nodes.now n form) env.now sp steps stack.old stack.new result }
{
    let mark = nodes[memory::MARKS + n];
    let first = below(tables, st, nodes, n, 1, env, stack, sp, left, steps);
    let Traced::Value { len: la, steps: sa } = first else {
        return first;
    };
    if left_fits(form, mark, stack[sp]) {
        let second = below(tables, st, nodes, n, 2, env, stack, sp + la, left, sa);
        let Traced::Value { len: lb, steps: sb } = second else {
            return second;
        };
        let value = binary_apply(form, mark, stack, sp, la, lb, sb);
        arose(value, place_of(n, steps))
    } else {
        Traced::Stuck
    }
}

// `coll`: the members run one after another onto the stack, then they become a collection.
#[cycle(call_fold_iter_let_in_quantified_seek_conditional_connective_right_below_binary_coll_node_unary_word)]
fn coll(
    tables: &[u64],
    st: Counts,
    nodes: &[u64],
    n: usize,
    form: u64,
    env: &[usize; memory::VARIABLES],
    stack: &mut [u64],
    sp: usize,
    left: usize,
    steps: u64,
) -> Traced
    requires stack_room { StackRoom st (length tables.now) (length nodes.now) (length stack.old) n sp (left + 1) }
    requires set_le_form { (code.set ≤ form) × (form < code.is_undef) × (1 ≤ steps) × (steps ≤ most_steps) × Shallow nodes.now n left }
    ensures { EvalsT (ReadsWorld st tables.now nodes.now) (assemble_node nodes.now n form) env.now sp steps stack.old stack.new result }
{
    let count = wide(node_word(nodes, n, 5));
    if 4 < count {
        return Traced::Undef {
            steps,
            place: place_of(n, steps),
        };
    }
    let mut end = sp;
    let mut s = steps;
    for k in 0..count {
        let member = below(tables, st, nodes, n, k + 1, env, stack, end, left, s);
        let Traced::Value { len, steps: sb } = member else {
            return member;
        };
        end += len;
        s = sb;
    }
    let value = formed(assemble(stack, sp, sp, end, form - codes::SET), s);
    arose(value, place_of(n, steps))
}
