// The V lines of a sheet: a value is read from its field into cells, judged, and put into the tables. Document 01, The sheet.
// It depends on `text`, which reads fields, on `types` and `values`, by which a value is judged, and on `tables`.
#![tactic(auto)]

pub mod parts; // what begins at a place of a field: a simple value, or a collection
pub mod reader; // a whole field: its spelling, its limits and its cells
pub mod order; // the members of Sets and Bags are in order
pub mod objects; // the objects in a value are on the sheet
pub mod suits; // the value belongs to a row's type, and the object to its class
pub mod line; // the whole line
