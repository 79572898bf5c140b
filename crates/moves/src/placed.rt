// Where the pieces end once the new ones have arrived.
ghost use Rattle.std.specs.Prelude.{◌≤◌, length};
ghost use Rattle.sheet.specs.Sizes.{most_rules};
ghost use Rattle.rows.specs.Bits.{bit};
ghost use Rattle.moves.specs.Joined.{Rising};
ghost use Rattle.moves.specs.Moves.{Places};

use crate::ends::{piece_size, staying_size};

// Puts the ends of all pieces into `placed`, where `fresh` has the ends of the new ones alone. False if all are longer than the room.
pub fn place(
    ends: &[u64],
    fresh: &[u64],
    n: usize,
    new: u64,
    room: usize,
    placed: &mut [u64],
) -> bool
    requires n_le_most_rules { (n ≤ most_rules) × (n ≤ length ends.now) × (n ≤ length fresh.now) × (n ≤ length placed.old) }
    requires rising { Rising ends.now n × Rising fresh.now n }
    ensures { Places ends.now fresh.now n (bit new) room placed.old placed.new result }
{
    let mut total: usize = 0;
    for r in 0..n {
        let stays = staying_size(ends, r, new);
        let arrives = piece_size(fresh, r);
        if room - total < stays || room - total - stays < arrives {
            return false;
        }
        total = total + stays + arrives;
        placed[r] = total as u64;
    }
    true
}
