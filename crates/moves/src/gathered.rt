// The pieces that stay, gathered in front.
ghost use Rattle.std.specs.Prelude.{◌≤◌, length};
ghost use Rattle.sheet.specs.Sizes.{most_rules};
ghost use Rattle.rows.specs.Bits.{bit};
ghost use Rattle.moves.specs.Joined.{Standing};
ghost use Rattle.moves.specs.Moves.{Gathers};

use crate::ends::{start_of, staying_size};
use crate::shifted::shift_left;

// Puts the pieces that stay one behind the other. None moves to the right, so that each is still found where it was.
pub fn gather(ends: &[u64], n: usize, new: u64, out: &mut [u8])
    requires { (n ≤ most_rules) × (n ≤ length ends.now) × Standing ends.now out.old n }
    ensures { Gathers ends.now n (bit new) out.old out.new }
{
    let mut at: usize = 0;
    for r in 0..n {
        let size = staying_size(ends, r, new);
        shift_left(out, start_of(ends, r), at, size);
        at += size;
    }
}
