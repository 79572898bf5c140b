// How each part of an evaluation ends, its value on a stack of lent words, and what it finds in the tables. Document 01, Evaluation. It
// depends on `values` for cells, on `types` for classes, and on `tables`.
#![tactic(auto)]

pub mod answers; // a value that was just formed, as an answer; truth values
pub mod lookup; // objects, rows and values in the tables

// How an evaluation ends: with a value of len cells, undefined, stuck, or with a stop's number; and the steps begun.
#[derive(Clone, Copy)]
pub enum Ended {
    Value { len: usize, steps: u64 },
    Undef { steps: u64 },
    Stuck,
    Stop { number: u64, steps: u64 },
}
