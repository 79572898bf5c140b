// Forms that may leave an operand unrun: `and`, `or`, `if`.
ghost use Rattle.std.specs.Prelude.{◌+◌, ◌≤◌, ◌<◌, length};
ghost use Rattle.memory.specs.Codes as code;
ghost use Rattle.ocl.specs.Forms.{levels};
ghost use Rattle.nodes.specs.Nodes.{connective_of};
ghost use Rattle.evaluation.specs.Traces.{Perhaps, EvalsT};
ghost use Rattle.evaluation.specs.Evaluating.{ReadsWorld, StackRoom, operand_tree, operand_for, connective_node, right_side, conditional_node};

use crate::Traced;
use crate::answers::earlier;
use crate::walk::below;
use memory::codes;
use outcomes::answers::truth;
use tables::Counts;

// `and` and `or`: if the left side decides, the right one does not run. False decides `and`, true decides `or`.
#[cycle(call_fold_iter_let_in_quantified_seek_conditional_connective_right_below_binary_coll_node_unary_word)]
pub fn connective(
    tables: &[u64],
    st: Counts,
    nodes: &[u64],
    n: usize,
    form: u64,
    env: &[usize; memory::VARIABLES],
    stack: &mut [u64],
    sp: usize,
    left: usize,
    steps: u64,
) -> Traced
    requires stack_room { StackRoom st (length tables.now) (length nodes.now) (length stack.old) n sp (left + 1) }
    requires and_le_form { (code.and ≤ form) × (form < code.for_all) × (levels (operand_tree nodes.now n 1) ≤ left) × (levels (operand_tree nodes.now n 2) ≤ left) }
    ensures { EvalsT (ReadsWorld st tables.now nodes.now) (connective_node nodes.now n form) env.now sp steps stack.old stack.new result }
{
    let first = below(tables, st, nodes, n, 1, env, stack, sp, left, steps);
    match first {
        Traced::Value { len, steps: s } => {
            let t = truth(stack[sp]);
            if 1 < t {
                return Traced::Stuck;
            }
            if t == form - codes::AND {
                return Traced::Value { len, steps: s };
            }
            right(tables, st, nodes, n, form, 0, env, stack, sp, left, s)
        }
        Traced::Undef { steps: s, place } => right(
            tables, st, nodes, n, form, place, env, stack, sp, left, s,
        ),
        Traced::Stuck => Traced::Stuck,
        Traced::Stop { number, steps: s } => Traced::Stop { number, steps: s },
    }
}

// The right side of `and` or `or`; if the left side was undefined, at this place, the right one counts only if it decides. 0 is no
// place: the left side was known.
#[cycle(call_fold_iter_let_in_quantified_seek_conditional_connective_right_below_binary_coll_node_unary_word)]
fn right(
    tables: &[u64],
    st: Counts,
    nodes: &[u64],
    n: usize,
    form: u64,
    place: u64,
    env: &[usize; memory::VARIABLES],
    stack: &mut [u64],
    sp: usize,
    left: usize,
    steps: u64,
) -> Traced
    requires stack_room { StackRoom st (length tables.now) (length nodes.now) (length stack.old) n sp (left + 1) }
    requires and_le_form { (code.and ≤ form) × (form < code.for_all) × (levels (operand_tree nodes.now n 2) ≤ left) }
    requires perhaps { Perhaps place }
    ensures { EvalsT (ReadsWorld st tables.now nodes.now) (right_side place (connective_of form) (operand_for nodes.now n 2)) env.now sp steps stack.old stack.new result }
{
    let second = below(tables, st, nodes, n, 2, env, stack, sp, left, steps);
    match second {
        Traced::Value { len, steps: s } => {
            let t = truth(stack[sp]);
            if 1 < t {
                return Traced::Stuck;
            }
            if place == 0 || t == form - codes::AND {
                return Traced::Value { len, steps: s };
            }
            Traced::Undef { steps: s, place }
        }
        Traced::Undef {
            steps: s,
            place: own,
        } => Traced::Undef {
            steps: s,
            place: earlier(place, own),
        },
        Traced::Stuck => Traced::Stuck,
        Traced::Stop { number, steps: s } => Traced::Stop { number, steps: s },
    }
}

// `if`: only one branch runs.
#[cycle(call_fold_iter_let_in_quantified_seek_conditional_connective_right_below_binary_coll_node_unary_word)]
pub fn conditional(
    tables: &[u64],
    st: Counts,
    nodes: &[u64],
    n: usize,
    env: &[usize; memory::VARIABLES],
    stack: &mut [u64],
    sp: usize,
    left: usize,
    steps: u64,
) -> Traced
    requires stack_room { StackRoom st (length tables.now) (length nodes.now) (length stack.old) n sp (left + 1) }
    requires n_bound { (levels (operand_tree nodes.now n 1) ≤ left) × (levels (operand_tree nodes.now n 2) ≤ left) × (levels (operand_tree nodes.now n 3) ≤ left) }
    ensures { EvalsT (ReadsWorld st tables.now nodes.now) (conditional_node nodes.now n) env.now sp steps stack.old stack.new result }
{
    let first = below(tables, st, nodes, n, 1, env, stack, sp, left, steps);
    let Traced::Value { len: _, steps: s } = first else {
        return first;
    };
    match truth(stack[sp]) {
        1 => below(tables, st, nodes, n, 2, env, stack, sp, left, s),
        0 => below(tables, st, nodes, n, 3, env, stack, sp, left, s),
        _ => Traced::Stuck,
    }
}
