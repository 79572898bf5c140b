// `D n c T`: definition n of class c and type T, whose node lines follow. Document 02, F-13.
ghost use Rattle.std.specs.Prelude.{◌≡◌, true, List, ℕ};
ghost use Rattle.sheet.specs.Limits.{type_within};
ghost use Rattle.types.specs.Flat.{ty_of};
ghost use Rattle.tables.specs.Layout.{Fine, Took};
ghost use Rattle.declarations.specs.Taken.{Lettered, TookDefinition};

use super::rows::class_known;
use memory::lines;
use memory::refusals::Refusal;
use tables::Counts;
use text::numbers::number;
use text::parts::{Fields, field};
use types::FlatType;
use types::reading::read_type;
use types::word::pack;

// A D line. No word changes: the definition goes into its tables when it ends.
pub fn definition_line(line: &[u8], f: Fields, st: Counts) -> Result<Counts, Refusal>
    requires { Lettered "D" line.now f × Fine st }
    ensures { (w0 w1 : List ℕ) (k : ℕ) → Took st k line.now result w0 w1 w0 w1 }
{
    if f.count != 4 {
        return Err(Refusal::BadLine);
    }
    let n = number(field(line, f, 1)).ok_or(Refusal::BadLine)?;
    let c = number(field(line, f, 2)).ok_or(Refusal::BadLine)?;
    let t = read_type(field(line, f, 3))?;
    open_definition(st, n, c, t)
}

// Opens the definition, whose type is within its limits.
fn open_definition(st: Counts, n: u64, c: u64, t: FlatType) -> Result<Counts, Refusal>
    requires { Fine st × (type_within (ty_of t) ≡ true) }
    ensures { TookDefinition st n c (ty_of t) result }
{
    if memory::MOST_DEFINITIONS <= n {
        return Err(Refusal::OverMeasure);
    }
    if memory::MOST_CLASSES <= c {
        return Err(Refusal::OverMeasure);
    }
    if lines::DEFINITIONS < st.block {
        return Err(Refusal::OutOfRow);
    }
    if n != st.definitions {
        return Err(Refusal::OutOfRow);
    }
    if st.classes <= c {
        return Err(Refusal::UnknownPart);
    }
    if !class_known(t, st.classes) {
        return Err(Refusal::UnknownPart);
    }
    Ok(Counts {
        block: lines::DEFINITIONS,
        open: lines::DEFINITION_OPEN,
        context: c,
        result: pack(t),
        first: st.nodes,
        ..st
    })
}
