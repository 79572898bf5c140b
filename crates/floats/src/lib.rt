// Integers and Reals as code holds them (document 02, F-8). A Real is an f64, whose operators are proved to give what `reals` defines
// in whole numbers, bit for bit. It depends on `laws` and `reals`, and on `memory` for what a spelling is refused for.
#![tactic(auto)]

pub mod cells; // a number as one word
pub mod numbers; // numbers as f64, and the operations
pub mod spelling; // a Real's spelling

// A number as a value holds it. An Integer is counted from -2147483648; a Real is no whole number in the range of Integers.
#[derive(Clone, Copy)]
pub enum Number {
    Integer { biased: u64 },
    Real(f64),
}

// Why an operation gives no number: it has none to give, or one over the range.
#[derive(Clone, Copy)]
pub enum NoNumber {
    Undefined,
    OverRange,
}
