// A rule for an object: the recursion from the rule's root, with nothing bound but `self`.
ghost use Rattle.std.specs.Prelude.{◌≤◌, ◌<◌, length};
ghost use Rattle.ocl.specs.Forms.{levels};
ghost use Rattle.sheet.specs.Sheet.{most_levels};
ghost use Rattle.values.specs.Cells.{sort_span};
ghost use Rattle.nodes.specs.Nodes.{tree_at};
ghost use Rattle.evaluation.specs.Evaluating.{ReadsWorld, StackRoom, TracesRule};

use crate::Traced;
use crate::answers::unpack;
use crate::walk::word;
use tables::Counts;
use values::Simple;
use values::cells::push;

// How deep a tree may be.
const LEVELS: usize = memory::MOST_LEVELS as usize;

// The rule with this root, for an object, which is `self`: its cell is put at 0, and the value is formed at 1.
pub fn trace_rule(
    tables: &[u64],
    st: Counts,
    nodes: &[u64],
    stack: &mut [u64],
    root: usize,
    object: u64,
) -> Traced
    requires stack_room { StackRoom st (length tables.now) (length nodes.now) (length stack.old) root 1 most_levels }
    requires root_bound { (levels (tree_at nodes.now root) ≤ most_levels) × (object < sort_span) }
    ensures { TracesRule (ReadsWorld st tables.now nodes.now) (tree_at nodes.now root) object stack.new result }
{
    push(stack, 0, Simple::Object { number: object });
    let mut env = [0usize; memory::VARIABLES];
    env[0] = 1;
    unpack(word(tables, st, nodes, root, &env, stack, 1, LEVELS, 0))
}
