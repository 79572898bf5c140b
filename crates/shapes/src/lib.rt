// What a node line says: a form's fields, or the code and numbers that a text gives, made into the eight words of a node and held to their
// limits. Document 01, The sheet. It depends on `text` and `types`, which read fields, and on `nodes` for what a node's words say.
#![tactic(auto)]

pub mod numbers; // fields that are numbers
pub mod built; // a form from its numbers
pub mod forms; // the fields after a form's word
pub mod literals; // those of `int` and `real`
pub mod iterate; // those of `iter`

// A node line's form. Word 0 is the code; words 1 to `count` are the operands, by their numbers in the definition or rule; then comes what
// else the form holds, as the node table has it; word 7 is the line. `within` says whether that is inside its limits, `apart`
// whether two variables differ, and `classes` how many classes there must be for the class that the form names. Numbers are
// those that `text` reads, a million at most. If the fields spell no form, `spelled` is false and the rest means nothing.
#[derive(Clone, Copy)]
pub struct Parsed {
    pub spelled: bool,
    pub words: [u64; 8],
    pub count: usize,
    pub within: bool,
    pub apart: bool,
    pub classes: u64,
}
