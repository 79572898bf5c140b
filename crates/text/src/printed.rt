// Lines that a program prints: two numbers, and a refusal.
ghost use Rattle.std.specs.Prelude.{[], ◌∷◌, ◌++◌, ◌+◌, ◌≤◌, ◌<◌, length};
ghost use Rattle.sheet.specs.Text.{spell_number};
ghost use Rattle.sheet.specs.Calls.{refusal_at};
ghost use Rattle.sheet.specs.Report.{printed};
ghost use Rattle.text.specs.Written.{Puts};

use crate::spelling::{put_byte, put_bytes, put_number};

// Puts two numbers with a space between them, and a line feed.
pub fn put_pair(out: &mut [u8], at: usize, a: u64, b: u64) -> usize
    requires { at + 42 ≤ length out.old }
    ensures { Puts at (spell_number a ++ (32 ∷ []) ++ spell_number b ++ (10 ∷ [])) out.old out.new result × (result ≤ length out.new) }
{
    let gap = put_number(out, at, a);
    let behind = put_byte(out, gap, b' ');
    let end = put_number(out, behind, b);
    put_byte(out, end, b'\n')
}

// Puts the line of a refusal, `!`, number and place, at the front of the output.
pub fn put_refusal(number: u64, place: u64, out: &mut [u8]) -> usize
    requires { (0 < number) × (64 ≤ length out.old) }
    ensures { Puts 0 (printed (refusal_at number place)) out.old out.new result × (result ≤ length out.new) }
{
    let mark = put_bytes(out, 0, b"! ");
    put_pair(out, mark, number, place)
}
