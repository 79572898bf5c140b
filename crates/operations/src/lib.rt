// What each form does once its operands have run, on a stack of lent words: forms without operands, and strict forms. Document 01,
// Evaluation. It depends on `outcomes` for how that ends and for what the tables give, and on `values` for cells; the recursion is in
// `evaluation`.
#![tactic(auto)]

pub mod leaves; // forms without operands
pub mod integers; // arithmetic on Integers
pub mod widened; // and on numbers of either kind, as Reals
pub mod apply; // strict forms, given the values of their operands
pub mod collect; // `collect`, given the value of its operand
pub mod operand; // a form with one operand, once that has run
