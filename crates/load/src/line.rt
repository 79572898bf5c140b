// A line of digits, byte by byte: a line may lie in several pieces of the input.
ghost use Rattle.std.specs.Prelude.{◌≡◌};
ghost use Rattle.sheet.specs.Text.{Bytes};
ghost use Rattle.sheet.specs.Lines.{a_number};
ghost use Rattle.load.specs.Reader.{first_byte, with_digit, with_byte, line_of, is_empty, cut_of};

use crate::refusal::Refusal;
use memory::lines::DIGIT;
use memory::words::at_most;
use text::numbers::{NUMBER_CUT, digit};
use text::words::byte_kind;

// A line that has begun: no byte yet, a number, or what is no number. A number is cut at a million before it takes a further
// digit.
pub type Line = Result<Option<u64>, Refusal>;

// The line after its first byte.
fn first_byte(b: u8) -> Line
    ensures { result ≡ first_byte b }
{
    if byte_kind(b) != DIGIT {
        return Err(Refusal::Misspelt);
    }
    Ok(Some(digit(b)))
}

// A number with one digit more; none may follow a leading zero.
fn with_digit(n: u64, b: u8) -> Line
    ensures { result ≡ with_digit n b }
{
    if n == 0 || byte_kind(b) != DIGIT {
        return Err(Refusal::Misspelt);
    }
    Ok(Some(at_most(n, NUMBER_CUT) * 10 + digit(b)))
}

// The line after one byte more.
pub fn with_byte(line: Line, b: u8) -> Line
    ensures { result ≡ with_byte line b }
{
    match line? {
        None => first_byte(b),
        Some(n) => with_digit(n, b),
    }
}

// The number that the line is.
pub fn value(line: Line) -> Result<u64, Refusal>
    ensures { (l : Bytes) → line ≡ line_of l → result ≡ cut_of (a_number l) }
{
    match line? {
        None => Err(Refusal::Misspelt),
        Some(n) => Ok(at_most(n, NUMBER_CUT)),
    }
}

// Whether no byte of the line has come yet.
pub fn is_empty(line: Line) -> bool
    ensures { result ≡ is_empty line }
{
    matches!(line, Ok(None))
}
