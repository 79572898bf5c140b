// Forms that bind variables in a body: `let`, `call`, `forAll`, `exists`, `iter`.
ghost use Rattle.std.specs.Prelude.{◌≡◌, ◌+◌, ◌≤◌, ◌<◌, length};
ghost use Rattle.memory.specs.Codes as code;
ghost use Rattle.ocl.specs.Forms.{levels};
ghost use Rattle.ocl.specs.Values.{largest};
ghost use Rattle.nodes.specs.Nodes.{word, variable, quantifier_of};
ghost use Rattle.evaluation.specs.Traces.{EvalsT};
ghost use Rattle.evaluation.specs.Evaluating.{ReadsWorld, StackRoom, operand_tree, operand_for, let_node, call_node, quantified_node, iterate_node, Seeks, Folds};

use crate::Traced;
use crate::answers::earlier;
use crate::walk::below;
use memory::codes::FOR_ALL;
use memory::words::wide;
use nodes::node_word;
use outcomes::answers::truth;
use outcomes::lookup::is_object;
use tables::Counts;
use values::Simple;
use values::cells::{SET, push, skip, slide, sort_of};

// `let`: the body's value is moved down over the bound one.
#[cycle(call_fold_iter_let_in_quantified_seek_conditional_connective_right_below_binary_coll_node_unary_word)]
pub fn let_in(
    tables: &[u64],
    st: Counts,
    nodes: &[u64],
    n: usize,
    env: &[usize; memory::VARIABLES],
    stack: &mut [u64],
    sp: usize,
    left: usize,
    steps: u64,
) -> Traced
    requires stack_room { StackRoom st (length tables.now) (length nodes.now) (length stack.old) n sp (left + 1) }
    requires n_bound { (levels (operand_tree nodes.now n 1) ≤ left) × (levels (operand_tree nodes.now n 2) ≤ left) }
    ensures { EvalsT (ReadsWorld st tables.now nodes.now) (let_node nodes.now n) env.now sp steps stack.old stack.new result }
{
    let i = wide(node_word(nodes, n, 3) % memory::VARIABLE_NUMBERS);
    let bound = below(tables, st, nodes, n, 1, env, stack, sp, left, steps);
    let Traced::Value { len: la, steps: sa } = bound else {
        return bound;
    };
    let mid = sp + la;
    let mut inner = *env;
    inner[i] = sp + 1;
    let second = below(tables, st, nodes, n, 2, &inner, stack, mid, left, sa);
    let Traced::Value { len: lb, steps: sb } = second else {
        return second;
    };
    slide(stack, mid, sp, lb);
    Traced::Value { len: lb, steps: sb }
}

// `call`: an object of the definition's class or below is `self` in the body, where nothing else is bound.
#[cycle(call_fold_iter_let_in_quantified_seek_conditional_connective_right_below_binary_coll_node_unary_word)]
pub fn call(
    tables: &[u64],
    st: Counts,
    nodes: &[u64],
    n: usize,
    env: &[usize; memory::VARIABLES],
    stack: &mut [u64],
    sp: usize,
    left: usize,
    steps: u64,
) -> Traced
    requires stack_room { StackRoom st (length tables.now) (length nodes.now) (length stack.old) n sp (left + 1) }
    requires n_bound { (levels (operand_tree nodes.now n 1) ≤ left) × (levels (operand_tree nodes.now n 2) ≤ left) }
    ensures { EvalsT (ReadsWorld st tables.now nodes.now) (call_node nodes.now n) env.now sp steps stack.old stack.new result }
{
    let first = below(tables, st, nodes, n, 1, env, stack, sp, left, steps);
    let Traced::Value { len: la, steps: sa } = first else {
        return first;
    };
    let c = node_word(nodes, n, 3) % memory::CLASS_NUMBERS;
    if is_object(tables, st, c, stack[sp]) {
        let top = sp + la;
        let mut inner = [0usize; memory::VARIABLES];
        inner[0] = sp + 1;
        let body = below(tables, st, nodes, n, 2, &inner, stack, top, left, sa);
        let Traced::Value { len: lb, steps: sb } = body else {
            return body;
        };
        slide(stack, top, sp, lb);
        Traced::Value { len: lb, steps: sb }
    } else {
        Traced::Stuck
    }
}

// `forAll` and `exists`: the source, then its members.
#[cycle(call_fold_iter_let_in_quantified_seek_conditional_connective_right_below_binary_coll_node_unary_word)]
pub fn quantified(
    tables: &[u64],
    st: Counts,
    nodes: &[u64],
    n: usize,
    form: u64,
    i: usize,
    env: &[usize; memory::VARIABLES],
    stack: &mut [u64],
    sp: usize,
    left: usize,
    steps: u64,
) -> Traced
    requires stack_room { StackRoom st (length tables.now) (length nodes.now) (length stack.old) n sp (left + 1) }
    requires for_all_le_form { (code.for_all ≤ form) × (form < code.set) × (levels (operand_tree nodes.now n 1) ≤ left) × (levels (operand_tree nodes.now n 2) ≤ left) }
    requires i_value { i ≡ variable (word nodes.now n 3) }
    ensures { EvalsT (ReadsWorld st tables.now nodes.now) (quantified_node nodes.now n form) env.now sp steps stack.old stack.new result }
{
    let first = below(tables, st, nodes, n, 1, env, stack, sp, left, steps);
    let Traced::Value { len: la, steps: sa } = first else {
        return first;
    };
    if sort_of(stack[sp]) < SET {
        return Traced::Stuck;
    }
    seek(tables, st, nodes, n, form, i, env, stack, sp, la, left, sa)
}

// Members in their order, up to the first whose body decides: false decides `forAll`, true decides `exists`. Where none does, the whole is
// undefined if a body was, at the place of the first such body.
#[cycle(call_fold_iter_let_in_quantified_seek_conditional_connective_right_below_binary_coll_node_unary_word)]
fn seek(
    tables: &[u64],
    st: Counts,
    nodes: &[u64],
    n: usize,
    form: u64,
    i: usize,
    env: &[usize; memory::VARIABLES],
    stack: &mut [u64],
    sp: usize,
    la: usize,
    left: usize,
    steps: u64,
) -> Traced
    requires stack_room { StackRoom st (length tables.now) (length nodes.now) (length stack.old) n sp (left + 1) }
    requires for_all_le_form { (code.for_all ≤ form) × (form < code.set) × (levels (operand_tree nodes.now n 2) ≤ left) × (1 ≤ la) × (la ≤ largest) }
    requires i_value { i ≡ variable (word nodes.now n 3) }
    ensures { Seeks (ReadsWorld st tables.now nodes.now) (quantifier_of form) (variable (word nodes.now n 3)) (operand_for nodes.now n 2) env.now sp la steps stack.old stack.new result }
{
    let end = sp + la;
    let outer = *env;
    let mut blank: u64 = 0;
    let mut s = steps;
    let mut p = sp + 1;
    while p < end {
        let mut inner = outer;
        inner[i] = p + 1;
        let turn = below(tables, st, nodes, n, 2, &inner, stack, end, left, s);
        p = skip(stack, p, end);
        if let Traced::Undef { steps: su, place } = turn {
            blank = earlier(blank, place);
            s = su;
            continue;
        }
        let Traced::Value { len: _, steps: sb } = turn else {
            return turn;
        };
        let t = truth(stack[end]);
        if 1 < t {
            return Traced::Stuck;
        }
        if t == form - FOR_ALL {
            push(stack, sp, Simple::Bool { b: t == 1 });
            return Traced::Value { len: 1, steps: sb };
        }
        s = sb;
    }
    if 0 < blank {
        return Traced::Undef {
            steps: s,
            place: blank,
        };
    }
    push(stack, sp, Simple::Bool { b: form == FOR_ALL });
    Traced::Value { len: 1, steps: s }
}

// `iter`: the source, the accumulator's first value after it, then the members.
#[cycle(call_fold_iter_let_in_quantified_seek_conditional_connective_right_below_binary_coll_node_unary_word)]
pub fn iter(
    tables: &[u64],
    st: Counts,
    nodes: &[u64],
    n: usize,
    env: &[usize; memory::VARIABLES],
    stack: &mut [u64],
    sp: usize,
    left: usize,
    steps: u64,
) -> Traced
    requires stack_room { StackRoom st (length tables.now) (length nodes.now) (length stack.old) n sp (left + 1) }
    requires n_bound { (levels (operand_tree nodes.now n 1) ≤ left) × (levels (operand_tree nodes.now n 2) ≤ left) × (levels (operand_tree nodes.now n 3) ≤ left) }
    ensures { EvalsT (ReadsWorld st tables.now nodes.now) (iterate_node nodes.now n) env.now sp steps stack.old stack.new result }
{
    let first = below(tables, st, nodes, n, 1, env, stack, sp, left, steps);
    let Traced::Value { len: la, steps: sa } = first else {
        return first;
    };
    if sort_of(stack[sp]) < SET {
        return Traced::Stuck;
    }
    let second = below(tables, st, nodes, n, 2, env, stack, sp + la, left, sa);
    let Traced::Value { len: lb, steps: sb } = second else {
        return second;
    };
    let i = wide(node_word(nodes, n, 4) % memory::VARIABLE_NUMBERS);
    let j = wide(node_word(nodes, n, 5) % memory::VARIABLE_NUMBERS);
    fold(tables, st, nodes, n, i, j, env, stack, sp, la, lb, left, sb)
}

// Members in their order; each body's value is moved down over the accumulator, and the last one over the source.
#[cycle(call_fold_iter_let_in_quantified_seek_conditional_connective_right_below_binary_coll_node_unary_word)]
fn fold(
    tables: &[u64],
    st: Counts,
    nodes: &[u64],
    n: usize,
    i: usize,
    j: usize,
    env: &[usize; memory::VARIABLES],
    stack: &mut [u64],
    sp: usize,
    la: usize,
    lb: usize,
    left: usize,
    steps: u64,
) -> Traced
    requires stack_room { StackRoom st (length tables.now) (length nodes.now) (length stack.old) n sp (left + 1) }
    requires n_bound { (levels (operand_tree nodes.now n 3) ≤ left) × (1 ≤ la) × (la ≤ largest) × (1 ≤ lb) × (lb ≤ largest) }
    requires i_value { (i ≡ variable (word nodes.now n 4)) × (j ≡ variable (word nodes.now n 5)) }
    ensures { Folds (ReadsWorld st tables.now nodes.now) (variable (word nodes.now n 4)) (variable (word nodes.now n 5)) (operand_for nodes.now n 3) env.now sp la lb steps stack.old stack.new result }
{
    let mid = sp + la;
    let outer = *env;
    let mut len = lb;
    let mut s = steps;
    let mut p = sp + 1;
    while p < mid {
        let mut inner = outer;
        inner[i] = p + 1;
        inner[j] = mid + 1;
        let turn = below(tables, st, nodes, n, 3, &inner, stack, mid + len, left, s);
        let Traced::Value { len: lt, steps: sb } = turn else {
            return turn;
        };
        slide(stack, mid + len, mid, lt);
        len = lt;
        s = sb;
        p = skip(stack, p, mid);
    }
    slide(stack, mid, sp, len);
    Traced::Value { len, steps: s }
}
