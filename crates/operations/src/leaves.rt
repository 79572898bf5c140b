// The forms without operands: `true` and `false`, `undef`, numbers, `self`, variables, and all objects of a class.
ghost use Rattle.std.specs.Prelude.{◌+◌, ◌≤◌, ◌<◌, length};
ghost use Rattle.memory.specs.Codes as code;
ghost use Rattle.ocl.specs.Values.{largest};
ghost use Rattle.sheet.specs.Sizes.{most_objects};
ghost use Rattle.outcomes.specs.Tables.{Bounds, WithObject, Instances};
ghost use Rattle.operations.specs.Runs.{Variable, Evals, ModelIn, leaf_for};

use floats::cells::word_in;
use memory::codes;
use memory::words::wide;
use outcomes::Ended;
use outcomes::answers::{formed, put, put_cell};
use outcomes::lookup::is_a;
use tables::Counts;
use values::Simple;
use values::cells::{empty_of, push_copy};
use values::collections::append_simple;

// Copies the value of variable i to sp.
pub fn variable(
    i: usize,
    env: &[usize; memory::VARIABLES],
    stack: &mut [u64],
    sp: usize,
    steps: u64,
) -> Ended
    requires { (i < 16) × (sp + largest ≤ length stack.old) }
    ensures { Variable i env.now sp steps stack.old stack.new result }
{
    let at = env[i];
    if at == 0 || sp < at {
        return Ended::Stuck;
    }
    formed(push_copy(stack, at - 1, sp), steps)
}

// Adds object o to the Set in the len cells at sp if the object is of class c or below.
fn with_object(
    tables: &[u64],
    st: Counts,
    c: u64,
    stack: &mut [u64],
    sp: usize,
    len: usize,
    o: u64,
) -> Option<usize>
    requires bounds { Bounds st (length tables.now) × (sp + 256 ≤ length stack.old) }
    requires le_len { (1 ≤ len) × (len ≤ largest) × (o < most_objects) }
    ensures { WithObject st tables.now c sp len o stack.old stack.new result }
{
    if is_a(tables, st, o, c) {
        append_simple(stack, sp, sp + len, Simple::Object { number: o })
    } else {
        Some(len)
    }
}

// The Set of all objects of class c or below. They come in ascending order, so that each is added at the end.
pub fn instances(tables: &[u64], st: Counts, c: u64, stack: &mut [u64], sp: usize) -> Option<usize>
    requires { Bounds st (length tables.now) × (sp + 256 ≤ length stack.old) }
    ensures { Instances st tables.now c sp stack.old stack.new result }
{
    stack[sp] = empty_of(0);
    let mut len: usize = 1;
    for o in 0..st.objects {
        len = with_object(tables, st, c, stack, sp, len, o)?;
    }
    Some(len)
}

// The form without operands that has this code; word is its literal, variable or class.
pub fn leaf(
    tables: &[u64],
    st: Counts,
    form: u64,
    word: u64,
    env: &[usize; memory::VARIABLES],
    stack: &mut [u64],
    sp: usize,
    steps: u64,
) -> Ended
    requires { (form < code.negation) × Bounds st (length tables.now) × (sp + 256 ≤ length stack.old) }
    ensures { Evals (ModelIn st tables.now) (leaf_for form word) env.now sp steps stack.old stack.new result }
{
    match form {
        codes::FALSE => put(stack, sp, Simple::Bool { b: false }, steps),
        codes::TRUE => put(stack, sp, Simple::Bool { b: true }, steps),
        codes::UNDEF => Ended::Undef { steps },
        codes::NUMBER => put_cell(stack, sp, word_in(word), steps),
        codes::SELF => variable(0, env, stack, sp, steps),
        codes::VAR => variable(wide(word % memory::VARIABLE_NUMBERS), env, stack, sp, steps),
        _ => formed(
            instances(tables, st, word % memory::CLASS_NUMBERS, stack, sp),
            steps,
        ),
    }
}
