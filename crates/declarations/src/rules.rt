// `R n c`: rule n with context class c, whose node lines follow.
ghost use Rattle.std.specs.Prelude.{List, ℕ, ◌<◌};
ghost use Rattle.sheet.specs.Sizes.{most_classes, most_rules};
ghost use Rattle.sheet.specs.Lines.{rule_line};
ghost use Rattle.tables.specs.Layout.{Fine, Took};
ghost use Rattle.declarations.specs.Taken.{Lettered, TookSpelled};

use super::pairs::read_pair;
use memory::lines;
use memory::refusals::Refusal;
use tables::Counts;
use text::parts::Fields;

// An R line. No word changes: the rule goes into its table when it ends.
pub fn rule_line(line: &[u8], f: Fields, st: Counts) -> Result<Counts, Refusal>
    requires { Lettered "R" line.now f × Fine st }
    ensures { (w0 w1 : List ℕ) (k : ℕ) → Took st k line.now result w0 w1 w0 w1 }
{
    let (n, c) = read_pair(line, f, memory::MOST_RULES)?;
    open_rule(st, n, c)
}

// Opens the rule, whose number and class are within their limits.
fn open_rule(st: Counts, n: u64, c: u64) -> Result<Counts, Refusal>
    requires { Fine st × (n < most_rules) × (c < most_classes) }
    ensures { (w0 w1 : List ℕ) (k : ℕ) → TookSpelled st k (rule_line n c) result w0 w1 w0 w1 }
{
    if lines::RULES < st.block {
        return Err(Refusal::OutOfRow);
    }
    if n != st.rules {
        return Err(Refusal::OutOfRow);
    }
    if st.classes <= c {
        return Err(Refusal::UnknownPart);
    }
    Ok(Counts {
        block: lines::RULES,
        open: lines::RULE_OPEN,
        context: c,
        first: st.nodes,
        ..st
    })
}
