// Where pieces begin and end, and how long they are: word r is where piece r ends.
ghost use Rattle.std.specs.Prelude.{◌≡◌, ◌-◌, ◌<◌, ◌≤◌, length, get_or};
ghost use Rattle.sheet.specs.Sizes.{most_rules};
ghost use Rattle.rows.specs.Bits.{bit};
ghost use Rattle.moves.specs.Joined.{start_in, staying_size, Told};

use memory::words::wide;
use rows::seen::has_bit;

// Where piece r begins: where the piece before it ends.
pub fn start_of(ends: &[u64], r: usize) -> usize
    requires { r ≤ length ends.now }
    ensures { result ≡ start_in ends.now r }
{
    if r == 0 {
        return 0;
    }
    wide(ends[r - 1])
}

// How long piece r is.
pub fn piece_size(ends: &[u64], r: usize) -> usize
    requires { (r < length ends.now) × (start_in ends.now r ≤ get_or ends.now r 0) }
    ensures { result ≡ get_or ends.now r 0 - start_in ends.now r }
{
    wide(ends[r]) - start_of(ends, r)
}

// How long piece r is, or 0 if it is among the new ones, which the bits of `new` name.
pub fn staying_size(ends: &[u64], r: usize, new: u64) -> usize
    requires { (r < most_rules) × (r < length ends.now) × (start_in ends.now r ≤ get_or ends.now r 0) }
    ensures { result ≡ staying_size ends.now (bit new) r }
{
    if has_bit(new, r as u64) {
        return 0;
    }
    piece_size(ends, r)
}

// Whether the words can be the ends of n pieces in these bytes: none is before the end of the piece in front of it, and the last fits.
pub fn can_stand(ends: &[u64], n: usize, out: &[u8]) -> bool
    requires { n ≤ length ends.now }
    ensures { Told ends.now out.now n result }
{
    ends[..n].is_sorted() && start_of(ends, n) <= out.len()
}
