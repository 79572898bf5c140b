// What a form with one operand does once the operand has run: the strict forms (`not`, `size`, `asSet`, `asSequence`, `asBag`, `as`),
// `isUndef`, `attr` and `collect`.
ghost use Rattle.std.specs.Prelude.{◌+◌, ◌≤◌, ◌<◌, length};
ghost use Rattle.memory.specs.Codes as code;
ghost use Rattle.ocl.specs.Values.{largest};
ghost use Rattle.sheet.specs.Sizes.{least_words, most_nodes};
ghost use Rattle.nodes.specs.Nodes.{word};
ghost use Rattle.outcomes.specs.Tables.{Bounds};
ghost use Rattle.operations.specs.Operand.{mark_in, FromValue, FromUndefined};

use crate::apply::unary_apply;
use crate::collect::collect;
use memory::codes;
use nodes::node_word;
use outcomes::Ended;
use outcomes::answers::put;
use outcomes::lookup::attribute_of;
use tables::Counts;
use values::Simple;

// Node n once its operand has a value, the len cells at sp.
pub fn of_value(
    tables: &[u64],
    st: Counts,
    nodes: &[u64],
    n: usize,
    form: u64,
    stack: &mut [u64],
    sp: usize,
    len: usize,
    steps: u64,
) -> Ended
    requires bounds { Bounds st (length tables.now) × (least_words ≤ length nodes.now) × (n < most_nodes) × (code.negation ≤ form) }
    requires le_len { (1 ≤ len) × (len ≤ largest) × (sp + 512 ≤ length stack.old) }
    ensures { FromValue st tables.now form (word nodes.now n) (mark_in nodes.now n) sp len steps stack.old stack.new result }
{
    match form {
        codes::NEGATION..=codes::CAST_TO => unary_apply(
            tables,
            st,
            form,
            node_word(nodes, n, 2),
            stack,
            sp,
            len,
            steps,
        ),
        codes::IS_UNDEF => put(stack, sp, Simple::Bool { b: false }, steps),
        codes::OF_OBJECT => attribute_of(tables, st, nodes[memory::MARKS + n], stack, sp, steps),
        _ => collect(tables, st, nodes[memory::MARKS + n], stack, sp, len, steps),
    }
}

// A form whose operand is undefined: `isUndef` is true, every other form is undefined too.
pub fn of_undefined(form: u64, stack: &mut [u64], sp: usize, steps: u64) -> Ended
    requires { sp < length stack.old }
    ensures { FromUndefined form sp steps stack.old stack.new result }
{
    if form == codes::IS_UNDEF {
        return put(stack, sp, Simple::Bool { b: true }, steps);
    }
    Ended::Undef { steps }
}
