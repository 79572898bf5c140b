// The fields of `O n c` and `R n c`: a number and a class.
ghost use Rattle.std.specs.Prelude.{◌≡◌, ◌≤◌, drop};
ghost use Rattle.sheet.specs.Text.{fields_of};
ghost use Rattle.text.specs.Parts.{Cut};
ghost use Rattle.declarations.specs.Fields.{two_numbers, pair_of};

use memory::refusals::Refusal;
use text::numbers::number;
use text::parts::{Fields, field};

// Reads both; the number must be below `limit`.
pub fn read_pair(line: &[u8], f: Fields, limit: u64) -> Result<(u64, u64), Refusal>
    requires { Cut line.now f × (limit ≤ 1000000) }
    ensures { result ≡ pair_of limit (two_numbers (drop 1 (fields_of line.now))) }
{
    if f.count != 3 {
        return Err(Refusal::BadLine);
    }
    let n = number(field(line, f, 1)).ok_or(Refusal::BadLine)?;
    let c = number(field(line, f, 2)).ok_or(Refusal::BadLine)?;
    if limit <= n {
        return Err(Refusal::OverMeasure);
    }
    if memory::MOST_CLASSES <= c {
        return Err(Refusal::OverMeasure);
    }
    Ok((n, c))
}
