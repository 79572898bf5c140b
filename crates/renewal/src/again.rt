// The lines of a rule that the buffer had no room for: the rule is evaluated once more, and its lines are put where they belong.
ghost use Rattle.std.specs.Prelude.{◌<◌, ◌≤◌, length};
ghost use Rattle.sheet.specs.Sizes.{least_words};
ghost use Rattle.renewal.specs.Fresh.{line_for, all_lines, RoomAgain, PutsAgain};

use crate::fresh::{Sums, fresh_line};
use tables::Counts;
use text::spelling::put_bytes;

// Room for a line, and for one behind it that is only counted.
const ROOM: usize = 2 * memory::LEAST_OUTPUT;

// Puts the line for object o, which is formed in bytes of its own.
fn again_line(
    w0: &[u64],
    st: Counts,
    w1: &[u64],
    w2: &mut [u64],
    r: usize,
    o: u64,
    at: usize,
    out: &mut [u8],
) -> usize
    requires least_words_in_bounds { (least_words ≤ length w0.now) × (least_words ≤ length w1.now) × (least_words ≤ length w2.old) × (o < st.objects) }
    requires room_again { RoomAgain (line_for r o) st w0.now w1.now r at (length out.old) }
    ensures { PutsAgain (line_for r o) st w0.now w1.now r at w2.old w2.new out.old out.new result }
{
    let mut line = [0u8; ROOM];
    let none = Sums { bytes: 0, steps: 0 };
    let sums = fresh_line(w0, st, w1, w2, r, o, &mut line, none);
    let size = sums.bytes;
    put_bytes(out, at, &line[..size])
}

// Puts the lines for all objects.
pub fn again_lines(
    w0: &[u64],
    st: Counts,
    w1: &[u64],
    w2: &mut [u64],
    r: usize,
    at: usize,
    out: &mut [u8],
) -> usize
    requires least_words_in_bounds { (least_words ≤ length w0.now) × (least_words ≤ length w1.now) × (least_words ≤ length w2.old) }
    requires room_again { RoomAgain (all_lines r) st w0.now w1.now r at (length out.old) }
    ensures { PutsAgain (all_lines r) st w0.now w1.now r at w2.old w2.new out.old out.new result }
{
    let mut end = at;
    for o in 0..st.objects {
        end = again_line(w0, st, w1, w2, r, o, end, out);
    }
    end
}
