// The type of each form, from the types of its operands and of the variables. Document 01, The forms and their typing. It depends on
// `types`, and on `nodes` for what a node's words say; the recursion over operand nodes is in `typing`.
#![tactic(auto)]

pub mod environment; // the types of the variables, by value
pub mod forms; // forms with no operand or strict operands, and `if`
pub mod attributes; // `attr` and `collect`
pub mod single; // all forms with a single operand, by code
pub mod binary; // all forms with two strict operands, by code

use types::FlatType;

// The types of the sixteen variables, of which `self` is variable 0, and which of them are bound. It is small, since each call of
// the recursion holds one by value.
#[derive(Clone, Copy)]
pub struct TypeEnv {
    pub types: [FlatType; memory::VARIABLES],
    pub bound: [bool; memory::VARIABLES],
}
