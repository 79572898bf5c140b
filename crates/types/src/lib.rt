// Types by value: a base and three collection codes. Subtyping, the common type, a type as one word, reading and spelling,
// and the attribute row that a class reads. Document 01, Values and types. It depends on `text` for the numbers in a spelling.
#![tactic(auto)]

pub mod classes; // the table of parents: below, and the nearest common class
pub mod letters; // the codes of C, S, Q and B
pub mod order; // subtype and common type
pub mod parts; // depth, letters, members and classes of a type, and types made of them
pub mod word; // a type as one word
pub mod rows; // the attribute row that a class reads
pub mod reading; // a field that spells a type
pub mod spelling; // a type, written

// A type with no letter around it. A class's number is a byte: an accepted sheet has it below 64.
#[derive(Clone, Copy)]
pub enum Base {
    Void,
    Bool,
    Int,
    Any,
    Real,
    Class(u8),
}

// A base with at most three letters around it, by their codes, the outermost first; codes after a 0 mean nothing.
#[derive(Clone, Copy)]
pub struct FlatType {
    pub base: Base,
    pub outer: u8,
    pub middle: u8,
    pub inner: u8,
}
