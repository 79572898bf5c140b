// Words as numbers of places, and the other way round. A cast alone says little in a contract; these say that the number stays.
ghost use Rattle.std.specs.Prelude.{◌≡◌, min, max};

pub fn wide(x: u64) -> usize
    ensures { result ≡ x }
{
    x as usize
}

pub fn long(n: usize) -> u64
    ensures { result ≡ n }
{
    n as u64
}

pub fn larger(a: u64, b: u64) -> u64
    ensures { result ≡ max a b }
{
    a.max(b)
}

pub fn at_most(n: u64, bound: u64) -> u64
    ensures { result ≡ min n bound }
{
    n.min(bound)
}
