// Pieces of bytes that stand one behind the other, some of them replaced in place, as the verdicts of a running board are (document 02,
// F-10): what stays is gathered in front and then moved to where it belongs. Word r tells where piece r ends. It depends on `rows` for the
// bits of a word, which name the new pieces.
#![tactic(auto)]

pub mod ends; // where pieces begin and end
pub mod gathered; // the pieces that stay, one behind the other
pub mod placed; // where all end once the new ones have arrived
pub mod shifted; // bytes moved to the left or to the right
