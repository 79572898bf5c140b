// The typing of rules and definitions: a recursion over the nodes of a tree that answers a type or a refusal and marks each `attr`
// node with the row it reads. Document 01, The forms and their typing. It depends on `judgements` for the type of each form, and on
// `nodes` for what a node's words say.
#![tactic(auto)]

pub mod apply; // the recursion at forms that bind nothing
pub mod scope; // the recursion at forms that bind a variable in a body
pub mod walk; // the recursion over operand nodes
pub mod rules; // a rule, and a definition
