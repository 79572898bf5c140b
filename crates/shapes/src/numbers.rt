// Fields that are numbers, four at most.
ghost use Rattle.std.proofs.Math.Option.{none};
ghost use Rattle.std.specs.Prelude.{◌+◌, ◌-◌, ◌≤◌, take, drop};
ghost use Rattle.sheet.specs.Text.{fields_of};
ghost use Rattle.sheet.specs.Lines.{each, a_number};
ghost use Rattle.text.specs.Parts.{Cut};
ghost use Rattle.shapes.specs.Fields.{exact, NumbersRead};

use text::numbers::number;
use text::parts::{Fields, field};

// The numbers, in the order of their fields, and 0 after them; `good` is false where a field is no number.
#[derive(Clone, Copy)]
pub struct Numbers {
    pub good: bool,
    pub at: [u64; 4],
}

fn no_numbers() -> Numbers
    ensures { NumbersRead none result }
{
    Numbers {
        good: false,
        at: [0; 4],
    }
}

// The fields from `from` up to `to`.
pub fn number_fields(line: &[u8], f: Fields, from: usize, to: usize) -> Numbers
    requires { Cut line.now f × (from ≤ to) × (to ≤ from + 4) × (to ≤ f.count) × (to ≤ 10) }
    ensures { NumbersRead (each a_number (take (to - from) (drop from (fields_of line.now)))) result }
{
    let mut at: [u64; 4] = [0; 4];
    for i in from..to {
        let Some(n) = number(field(line, f, i)) else {
            return no_numbers();
        };
        at[i - from] = n;
    }
    Numbers { good: true, at }
}

// The fields after a form's word, where they are m numbers.
pub fn exactly(line: &[u8], f: Fields, m: usize) -> Numbers
    requires { Cut line.now f × (3 ≤ f.count) × (m ≤ 4) }
    ensures { NumbersRead (exact m (drop 3 (fields_of line.now))) result }
{
    let count = f.count;
    if count != 3 + m {
        return no_numbers();
    }
    number_fields(line, f, 3, count)
}
