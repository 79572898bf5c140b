// Thread load along a run, document 02, F-14: the running record of a window, and a text of lengths read in pieces. It depends
// on `text` for digits, line ends and writing numbers.
#![tactic(auto)]

pub mod line; // a line of digits, byte by byte
pub mod reader; // a text in pieces, and what is printed
pub mod refusal; // why a text is refused
pub mod window; // the running record
