// A spelled number, an Integer or a Real, as the one word that values hold.
ghost use Rattle.std.specs.Prelude.{◌≡◌, ℤ};
ghost use Rattle.std.proofs.Math.Option.{Option};
ghost use Rattle.laws.specs.Choice.{map_some};
ghost use Rattle.reals.specs.Reals.{int, real};
ghost use Rattle.sheet.specs.Lines.{a_real};
ghost use Rattle.text.specs.Numbers.{whole_of};
ghost use Rattle.text.specs.Literals.{Narrow, literal_of};

use floats::Number;
use floats::cells::cell_of;
use floats::spelling::read_real;
use memory::refusals::Misread;

// The Integer that was read, as a literal.
pub fn integer_literal(z: Result<u64, Misread>) -> Result<u64, Misread>
    requires { Narrow z }
    ensures { (o : Option ℤ) → z ≡ whole_of o → result ≡ literal_of (map_some int o) }
{
    let biased = z?;
    Ok(cell_of(Number::Integer { biased }))
}

// The Real that a whole field spells.
pub fn real_literal(f: &[u8]) -> Result<u64, Misread>
    ensures { result ≡ literal_of (map_some real (a_real f.now)) }
{
    let x = read_real(f)?;
    Ok(cell_of(Number::Real(x)))
}
