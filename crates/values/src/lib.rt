// Values as cells in lent words (specs/Cells.antt): a value is one word, and a collection's members follow its word. The
// functions read values where they lie and form new ones on a stack of words, each above everything that is still needed.
//
// Contracts (specs/Meanings.antt) say: whatever values lie at these places, the answer is what document 01 gives for them (Values and
// types, Evaluation). It depends on `floats` for numbers as words, and on `ocl` for what a value is.
#![tactic(auto)]

pub mod arith; // arithmetic on Integers
pub mod cells; // single cells, and runs of cells
pub mod collections; // collections formed on the stack
pub mod merge; // ascending members added in one pass
pub mod order; // two values compared

// A value that is no collection. An Integer is counted from -2147483648; a Real is no whole number in the range of Integers.
#[derive(Clone, Copy)]
pub enum Simple {
    Bool { b: bool },
    Integer { biased: u64 },
    Real(f64),
    Object { number: u64 },
}
