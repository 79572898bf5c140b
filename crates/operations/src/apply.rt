// The strict forms, given their operands' values: the first lies at sp, a second after it, and the result takes their place.
ghost use Rattle.std.specs.Prelude.{◌+◌, ◌≤◌, ◌<◌, length};
ghost use Rattle.memory.specs.Codes as code;
ghost use Rattle.ocl.specs.Forms.{negation, size_of, cast_to, equal as equalForm, less as less_form, arith, includes as includesForm, including as includingForm, union as unionForm, convert as convertForm};
ghost use Rattle.ocl.specs.Operations.{unary_apply, binary_apply};
ghost use Rattle.ocl.specs.Values.{largest};
ghost use Rattle.values.specs.Integers.{arith_of};
ghost use Rattle.nodes.specs.Nodes.{binary_of};
ghost use Rattle.nodes.specs.Marks.{Marked};
ghost use Rattle.tables.specs.Stored.{HoldsModel};
ghost use Rattle.outcomes.specs.Tables.{Bounds};
ghost use Rattle.operations.specs.Operations.{AnyModel, AnyMark, OfOne, OfTwo, GoesByReals, FitsScale, FitsLeft, kind_for, unary_for};

use crate::integers::{arithmetic, division};
use crate::widened::operation;
use floats::numbers::{OVER, ZERO};
use memory::codes;
use outcomes::Ended;
use outcomes::answers::{formed, put, truth};
use outcomes::lookup::is_a;
use tables::Counts;
use values::Simple;
use values::cells::{LARGEST, NUMBER, OBJECT, SET, is_integer, payload_of, sort_of};
use values::collections::{add, convert, union};
use values::order::{equal, includes};

// The most cells that a value may have.
const LARGEST_SIZE: u64 = LARGEST as u64;

// `not`
fn negate(stack: &mut [u64], sp: usize, len: usize, steps: u64) -> Ended
    requires { sp < length stack.old }
    ensures { OfOne AnyModel (λ m. unary_apply m negation) sp len steps stack.old stack.new result }
{
    let t = truth(stack[sp]);
    if 1 < t {
        return Ended::Stuck;
    }
    put(stack, sp, Simple::Bool { b: t == 0 }, steps)
}

// `size`
fn member_total(stack: &mut [u64], sp: usize, len: usize, steps: u64) -> Ended
    requires { (sp < length stack.old) × (len ≤ largest) }
    ensures { OfOne AnyModel (λ m. unary_apply m size_of) sp len steps stack.old stack.new result }
{
    let cell = stack[sp];
    if sort_of(cell) < SET {
        return Ended::Stuck;
    }
    let count = payload_of(cell);
    if LARGEST_SIZE < count {
        return Ended::Stuck;
    }
    put(
        stack,
        sp,
        Simple::Integer {
            biased: ZERO + count,
        },
        steps,
    )
}

// `asSet` (0), `asSequence` (1), `asBag` (2)
fn change(kind: u64, stack: &mut [u64], sp: usize, len: usize, steps: u64) -> Ended
    requires { (kind < 3) × (1 ≤ len) × (sp + len + 256 ≤ length stack.old) }
    ensures { OfOne AnyModel (λ m. unary_apply m (convertForm (kind_for kind))) sp len steps stack.old stack.new result }
{
    if sort_of(stack[sp]) < SET {
        return Ended::Stuck;
    }
    formed(convert(stack, sp, sp + len, kind), steps)
}

// `as`: an object of class c or below stays as it is, and any other simple value becomes undefined.
fn cast(
    tables: &[u64],
    st: Counts,
    c: u64,
    stack: &mut [u64],
    sp: usize,
    len: usize,
    steps: u64,
) -> Ended
    requires { Bounds st (length tables.now) × (sp < length stack.old) × (1 ≤ len) × (len ≤ largest) }
    ensures { OfOne (HoldsModel st tables.now) (λ m. unary_apply m (cast_to c)) sp len steps stack.old stack.new result }
{
    let cell = stack[sp];
    let sort = sort_of(cell);
    if OBJECT < sort {
        return Ended::Stuck;
    }
    if sort < OBJECT {
        return Ended::Undef { steps };
    }
    if is_a(tables, st, payload_of(cell), c) {
        Ended::Value { len, steps }
    } else {
        Ended::Undef { steps }
    }
}

// The strict form with one operand and this code; c is the class that `as` names.
pub fn unary_apply(
    tables: &[u64],
    st: Counts,
    form: u64,
    c: u64,
    stack: &mut [u64],
    sp: usize,
    len: usize,
    steps: u64,
) -> Ended
    requires negation_le_form { (code.negation ≤ form) × (form < code.equal) × Bounds st (length tables.now) }
    requires le_len { (1 ≤ len) × (len ≤ largest) × (sp + 384 ≤ length stack.old) }
    ensures { OfOne (HoldsModel st tables.now) (λ m. unary_apply m (unary_for form c)) sp len steps stack.old stack.new result }
{
    match form {
        codes::NEGATION => negate(stack, sp, len, steps),
        codes::SIZE_OF => member_total(stack, sp, len, steps),
        codes::TO_SET..=codes::TO_BAG => change(form - codes::TO_SET, stack, sp, len, steps),
        _ => cast(tables, st, c % memory::CLASS_NUMBERS, stack, sp, len, steps),
    }
}

// Whether numbers go by Reals at a node with this mark, and not by Integers.
fn by_reals(mark: u64) -> bool
    ensures { GoesByReals mark result }
{
    memory::MARK_REALS <= mark
}

// Whether the value with this first cell is an Integer, or where numbers go by Reals any number.
fn fits_scale(mark: u64, cell: u64) -> bool
    ensures { FitsScale mark cell result }
{
    if by_reals(mark) {
        sort_of(cell) == NUMBER
    } else {
        is_integer(cell)
    }
}

// Whether the form with this code accepts a value with this first cell as its left operand.
pub fn left_fits(form: u64, mark: u64, cell: u64) -> bool
    requires { code.equal ≤ form }
    ensures { FitsLeft form mark cell result }
{
    match form {
        codes::EQUAL => true,
        codes::LESS..=codes::TIMES => fits_scale(mark, cell),
        codes::DIV..=codes::MODULO => is_integer(cell),
        codes::OVER => sort_of(cell) == NUMBER,
        _ => SET <= sort_of(cell),
    }
}

// `eq`
fn same_value(stack: &mut [u64], sp: usize, la: usize, lb: usize, steps: u64) -> Ended
    requires { (1 ≤ la) × (sp + la + lb ≤ length stack.old) }
    ensures { OfTwo AnyMark (λ k. binary_apply k equalForm) sp la lb steps stack.old stack.new result }
{
    let b = equal(stack, sp, la, sp + la, lb);
    put(stack, sp, Simple::Bool { b }, steps)
}

// `less`: the words of numbers are in the order of the numbers.
fn compared(mark: u64, stack: &mut [u64], sp: usize, la: usize, lb: usize, steps: u64) -> Ended
    requires { (1 ≤ la) × (1 ≤ lb) × (sp + la + lb ≤ length stack.old) }
    ensures { OfTwo (Marked mark) (λ k. binary_apply k less_form) sp la lb steps stack.old stack.new result }
{
    let x = stack[sp];
    let y = stack[sp + la];
    if fits_scale(mark, x) && fits_scale(mark, y) {
        put(stack, sp, Simple::Bool { b: x < y }, steps)
    } else {
        Ended::Stuck
    }
}

// `plus` (0), `minus` (1), `times` (2)
fn calculation(
    op: u64,
    mark: u64,
    stack: &mut [u64],
    sp: usize,
    la: usize,
    lb: usize,
    steps: u64,
) -> Ended
    requires { (op < 3) × (1 ≤ la) × (1 ≤ lb) × (sp + la + lb ≤ length stack.old) }
    ensures { OfTwo (Marked mark) (λ k. binary_apply k (arith (arith_of op))) sp la lb steps stack.old stack.new result }
{
    if by_reals(mark) {
        operation(op, stack, sp, la, lb, steps)
    } else {
        arithmetic(op, stack, sp, la, lb, steps)
    }
}

// `includes`
fn contains(stack: &mut [u64], sp: usize, la: usize, lb: usize, steps: u64) -> Ended
    requires { (1 ≤ la) × (sp + la + lb ≤ length stack.old) }
    ensures { OfTwo AnyMark (λ k. binary_apply k includesForm) sp la lb steps stack.old stack.new result }
{
    if sort_of(stack[sp]) < SET {
        return Ended::Stuck;
    }
    let b = includes(stack, sp + 1, sp + la, lb);
    put(stack, sp, Simple::Bool { b }, steps)
}

// `including`
fn including(stack: &mut [u64], sp: usize, la: usize, lb: usize, steps: u64) -> Ended
    requires { (1 ≤ la) × (la ≤ largest) × (lb ≤ largest) × (sp + 256 ≤ length stack.old) }
    ensures { OfTwo AnyMark (λ k. binary_apply k includingForm) sp la lb steps stack.old stack.new result }
{
    if sort_of(stack[sp]) < SET {
        return Ended::Stuck;
    }
    formed(add(stack, sp, sp + la, lb), steps)
}

// `union` of two collections of one kind
fn united(stack: &mut [u64], sp: usize, la: usize, lb: usize, steps: u64) -> Ended
    requires { (1 ≤ la) × (la ≤ largest) × (1 ≤ lb) × (sp + la + lb + 256 ≤ length stack.old) }
    ensures { OfTwo AnyMark (λ k. binary_apply k unionForm) sp la lb steps stack.old stack.new result }
{
    let sort = sort_of(stack[sp]);
    if sort < SET || sort_of(stack[sp + la]) != sort {
        return Ended::Stuck;
    }
    formed(union(stack, sp, sp + la, sp + la + lb), steps)
}

// The form with two operands and this code, at a node with this mark.
pub fn binary_apply(
    form: u64,
    mark: u64,
    stack: &mut [u64],
    sp: usize,
    la: usize,
    lb: usize,
    steps: u64,
) -> Ended
    requires equal_le_form { code.equal ≤ form }
    requires le_la { (1 ≤ la) × (la ≤ largest) × (1 ≤ lb) × (lb ≤ largest) × (sp + 512 ≤ length stack.old) }
    ensures { OfTwo (Marked mark) (λ k. binary_apply k (binary_of form)) sp la lb steps stack.old stack.new result }
{
    match form {
        codes::EQUAL => same_value(stack, sp, la, lb, steps),
        codes::LESS => compared(mark, stack, sp, la, lb, steps),
        codes::PLUS..=codes::TIMES => calculation(
            form - codes::PLUS,
            mark,
            stack,
            sp,
            la,
            lb,
            steps,
        ),
        codes::DIV..=codes::MODULO => division(form - codes::DIV, stack, sp, la, lb, steps),
        codes::INCLUDES => contains(stack, sp, la, lb, steps),
        codes::INCLUDING => including(stack, sp, la, lb, steps),
        codes::OVER => operation(OVER, stack, sp, la, lb, steps),
        _ => united(stack, sp, la, lb, steps),
    }
}
