// What the reader of a text field (`descent`) does without calling itself: leaves, `not`s, how a primary begins, `let`s and nodes; and
// what its levels promise, with the laws of the parser's answers. A node is put down as soon as its operands are, so that nodes come
// operands first, left to right. `let`s are no calls: only brackets and `if`s make calls stand inside one another. Document 02, F-7. It
// depends on `phrases` for what begins at a token, on `trees` for a node's form, and on `emission`.
#![tactic(auto)]

pub mod leaves; // words that are an expression by themselves; `not`s
pub mod lets; // `let`s that are open
pub mod puts; // nodes after their operands
pub mod begin; // how a primary begins
