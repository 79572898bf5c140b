// The X line of a rule: its text is read into nodes, which are judged together and then go into the node table as node lines would put
// them there. Document 02, F-7. It depends on `tokens` and `descent`, which read the text, on `emission` for the nodes as they wait, and
// on `trees` and `tables` for the node table.
#![tactic(auto)]

pub mod gathering; // what a text's nodes are held to
pub mod placing; // its nodes, put into the node table
pub mod judging; // its refusals
pub mod line; // the line
