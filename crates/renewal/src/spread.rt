// All lines put where they belong, from the last rule to the first, so that no old line is overwritten before it has moved.
ghost use Rattle.std.specs.Prelude.{◌<◌, ◌≤◌, length};
ghost use Rattle.sheet.specs.Sizes.{least_output, least_words, most_rules};
ghost use Rattle.moves.specs.Joined.{Standing};
ghost use Rattle.renewal.specs.Spread.{FreshFits, PutsFresh, SomePlacing, PutsRule, SpreadsRules, Rearranges};

use crate::again::again_lines;
use memory::words::wide;
use moves::ends::{piece_size, start_of};
use moves::gathered::gather;
use moves::shifted::shift_right;
use rows::seen::has_bit;
use tables::Counts;
use text::spelling::put_bytes;

// Puts the fresh lines of rule r at a place: from the buffer if it holds them, else the rule is evaluated once more.
fn put_fresh(
    w0: &[u64],
    st: Counts,
    w1: &[u64],
    w2: &mut [u64],
    fresh: &[u64],
    buf: &[u8],
    r: usize,
    at: usize,
    out: &mut [u8],
)
    requires least_words_in_bounds { (least_words ≤ length w0.now) × (least_words ≤ length w1.now) × (least_words ≤ length w2.old) × (r < st.rules) × (most_rules ≤ length fresh.now) × (least_output ≤ length buf.now) }
    requires fresh_fits { FreshFits st w0.now w1.now fresh.now buf.now r at (length out.old) }
    ensures { PutsFresh st w0.now w1.now fresh.now buf.now r at w2.old w2.new out.old out.new }
{
    let start = start_of(fresh, r);
    let end = wide(fresh[r]);
    if end <= buf.len() - memory::LEAST_OUTPUT {
        put_bytes(out, at, &buf[start..end]);
        return;
    }
    again_lines(w0, st, w1, w2, r, at, out);
}

// Puts the lines of rule r where they belong.
fn put_rule(
    w0: &[u64],
    st: Counts,
    w1: &[u64],
    w2: &mut [u64],
    touched: u64,
    fresh: &[u64],
    buf: &[u8],
    placed: &[u64],
    r: usize,
    out: &mut [u8],
)
    requires least_words_in_bounds { (least_words ≤ length w0.now) × (least_words ≤ length w1.now) × (least_words ≤ length w2.old) × (r < st.rules) × (most_rules ≤ length fresh.now) × (least_output ≤ length buf.now) }
    requires most_rules_in_bounds { (most_rules ≤ length placed.now) × SomePlacing st w0.now w1.now touched fresh.now buf.now placed.now (length out.old) }
    ensures { PutsRule st w0.now w1.now touched fresh.now buf.now placed.now r w2.old w2.new out.old out.new }
{
    let at = start_of(placed, r);
    if has_bit(touched, r as u64) {
        put_fresh(w0, st, w1, w2, fresh, buf, r, at, out);
        return;
    }
    let from = at - start_of(fresh, r);
    shift_right(out, from, at, piece_size(placed, r));
}

// Puts the lines of all rules, once the old ones that stay have been gathered in front.
fn spread_rules(
    w0: &[u64],
    st: Counts,
    w1: &[u64],
    w2: &mut [u64],
    touched: u64,
    fresh: &[u64],
    buf: &[u8],
    placed: &[u64],
    out: &mut [u8],
)
    requires least_words_in_bounds { (least_words ≤ length w0.now) × (least_words ≤ length w1.now) × (least_words ≤ length w2.old) × (most_rules ≤ length fresh.now) × (least_output ≤ length buf.now) }
    requires most_rules_in_bounds { (most_rules ≤ length placed.now) × SomePlacing st w0.now w1.now touched fresh.now buf.now placed.now (length out.old) }
    ensures { SpreadsRules st w0.now w1.now touched fresh.now buf.now placed.now w2.old w2.new out.old out.new }
{
    for r in (0..wide(st.rules)).rev() {
        put_rule(w0, st, w1, w2, touched, fresh, buf, placed, r, out);
    }
}

// Puts the lines of all rules: those that stay are gathered in front first, so that there is room for the fresh ones between them.
pub fn rearrange(
    w0: &[u64],
    st: Counts,
    w1: &[u64],
    w2: &mut [u64],
    touched: u64,
    ends: &[u64],
    fresh: &[u64],
    buf: &[u8],
    placed: &[u64],
    out: &mut [u8],
)
    requires least_words_in_bounds { (least_words ≤ length w0.now) × (least_words ≤ length w1.now) × (least_words ≤ length w2.old) × (most_rules ≤ length ends.now) × (most_rules ≤ length fresh.now) × (least_output ≤ length buf.now) }
    requires most_rules_in_bounds { (most_rules ≤ length placed.now) × SomePlacing st w0.now w1.now touched fresh.now buf.now placed.now (length out.old) × Standing ends.now out.old st.rules }
    ensures { Rearranges st w0.now w1.now touched ends.now fresh.now buf.now placed.now w2.old w2.new out.old out.new }
{
    gather(ends, wide(st.rules), touched, out);
    spread_rules(w0, st, w1, w2, touched, fresh, buf, placed, out);
}
