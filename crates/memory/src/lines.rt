// What a line begins with, which block of the sheet it belongs to, and what may be open between two lines.

// a byte begins a line by its letter, or a number, or nothing
pub const NO_LINE: u64 = 0;

pub const CLASS_LINE: u64 = 1;

pub const ROW_LINE: u64 = 2;

pub const OBJECT_LINE: u64 = 3;

pub const VALUE_LINE: u64 = 4;

pub const RULE_LINE: u64 = 5;

pub const NODE_LINE: u64 = 6;

pub const DIGIT: u64 = 7;

pub const DEFINITION_LINE: u64 = 8;

pub const TEXT_LINE: u64 = 9;

// the blocks, in their order
pub const CLASSES: u64 = 0;

pub const ROWS: u64 = 1;

pub const OBJECTS: u64 = 2;

pub const VALUES: u64 = 3;

pub const DEFINITIONS: u64 = 4;

pub const RULES: u64 = 5;

// what is open: a rule waits for its nodes or its text until an X line has given them
pub const NOTHING_OPEN: u64 = 0;

pub const RULE_OPEN: u64 = 1;

pub const DEFINITION_OPEN: u64 = 2;

pub const TEXT_GIVEN: u64 = 3;
