// Why a text is refused, document 02, F-14.
ghost use Rattle.std.specs.Prelude.{◌≡◌};
ghost use Rattle.load.specs.Refusals.{number_of};

// A line is no number, or there is no first line; a number is out of its limits; there are fewer lengths than the window has.
#[derive(Clone, Copy, Debug, PartialEq, Eq)]
pub enum Refusal {
    Misspelt,
    OutOfRange,
    TooShort,
}

// A refusal and the line where it is, 0 where it is no line's.
#[derive(Clone, Copy, Debug, PartialEq, Eq)]
pub struct Refused {
    pub why: Refusal,
    pub place: u64,
}

// The number that is printed for it.
pub fn number(why: Refusal) -> u64
    ensures { result ≡ number_of why }
{
    match why {
        Refusal::Misspelt => 3,
        Refusal::OutOfRange => 4,
        Refusal::TooShort => 25,
    }
}
