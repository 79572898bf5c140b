// The lines that declare classes, attribute rows, objects, definitions and rules: each is read, held to document 01's limits and orders,
// and put into its table. Document 01, The sheet; document 02, F-13. It depends on `text` and `types`, which read fields, and on `tables`.
#![tactic(auto)]

pub mod classes; // C lines
pub mod definitions; // D lines
pub mod objects; // O lines
pub mod pairs; // the fields that O and R lines share
pub mod rows; // A lines
pub mod rules; // R lines
