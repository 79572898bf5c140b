// The node lines of a sheet, and the end of a definition or rule: a form's words are held to their order and put into the node table;
// what ends is stored as its class and its root. Document 01, The sheet. It depends on `shapes`, which reads a line's form, and on `tables`.
#![tactic(auto)]

pub mod operands; // operands smaller, used once; depth
pub mod calls; // the definition that a node calls
pub mod node; // a node line
pub mod ending; // the end of a definition or rule
