// The lowest layer of the sheet reader (document 01, The sheet): parts of a text, decimal numbers, words, and writing bytes and numbers.
// What each function answers is a definition of `sheet`, or one of specs/ that a law in proofs/ ties to it. It depends on `sheet` for
// these definitions, on `floats` for Reals and on `memory` for the codes of forms.
#![tactic(auto)]

pub mod literals; // a spelled number as the word that values hold
pub mod numbers; // decimal numbers and Integers, read
pub mod parts; // lines and fields
pub mod printed; // lines that a program prints
pub mod spelling; // bytes and numbers, written
pub mod words; // letters, and the words of forms
