// Two values where they lie: their order, whether they are the same, whether one is a member of the other.
ghost use Rattle.std.specs.Prelude.{◌≡◌, ◌+◌, ◌≤◌, length};
ghost use Rattle.std.proofs.Math.Seq.{slice};
ghost use Rattle.values.specs.Cells.{lex, ordering};
ghost use Rattle.values.specs.Meanings.{SameAt, HasAt};

use crate::cells::skip;
use std::cmp::Ordering;

// The order of the n cells at p and the m cells at q.
pub fn compare(stack: &[u64], p: usize, n: usize, q: usize, m: usize) -> Ordering
    requires { (p + n ≤ length stack.now) × (q + m ≤ length stack.now) }
    ensures { result ≡ ordering (lex (slice p (p + n) stack.now) (slice q (q + m) stack.now)) }
{
    stack[p..p + n].cmp(&stack[q..q + m])
}

// Whether the value of n cells at p and the value of m cells at q are the same.
pub fn equal(stack: &[u64], p: usize, n: usize, q: usize, m: usize) -> bool
    requires { (p + n ≤ length stack.now) × (q + m ≤ length stack.now) }
    ensures { SameAt stack.now p n q m result }
{
    compare(stack, p, n, q, m).is_eq()
}

// Whether the value of le cells at end is one of the members from `from` to end.
pub fn includes(stack: &[u64], from: usize, end: usize, le: usize) -> bool
    requires { (from ≤ end) × (end + le ≤ length stack.now) }
    ensures { HasAt stack.now from end le result }
{
    let mut q = from;
    // from value to value, which differ in length
    while q < end {
        let r = skip(stack, q, end);
        if equal(stack, end, le, q, r - q) {
            return true;
        }
        q = r;
    }
    false
}
