// Bytes moved within a slice, where the old and the new place may overlap.
ghost use Rattle.std.specs.Prelude.{◌≡◌, ◌+◌, ◌≤◌, length};
ghost use Rattle.text.specs.Written.{put_bytes};
ghost use Rattle.moves.specs.Moves.{part};

// Moves the n bytes from `from` on to `to`, which does not come after it.
pub fn shift_left(out: &mut [u8], from: usize, to: usize, n: usize)
    requires { (to ≤ from) × (from + n ≤ length out.old) }
    ensures { out.new ≡ put_bytes to (part from n out.old) out.old }
{
    out.copy_within(from..from + n, to);
}

// The same where `to` does not come before `from`.
pub fn shift_right(out: &mut [u8], from: usize, to: usize, n: usize)
    requires { (from ≤ to) × (to + n ≤ length out.old) }
    ensures { out.new ≡ put_bytes to (part from n out.old) out.old }
{
    out.copy_within(from..from + n, to);
}
