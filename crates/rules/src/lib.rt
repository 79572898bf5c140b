// A sheet that lies in the words: all its definitions and rules are typed, which accepts it, and a rule is evaluated by its number for an
// object. Document 01, Calls; document 02, F-6 and F-13. It depends on `tables` for what lies in the words after reading, and on `typing`
// and `evaluation` for the two recursions.
#![tactic(auto)]

pub mod all; // all definitions and rules typed in order, their marks kept
pub mod evaluated; // a rule for an object, once its marks are kept
pub mod typed; // the type or refusal of a definition or rule, and the line of a node
