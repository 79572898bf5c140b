// The code of each word and sign of a text that stands for no form: `memory::codes` has those of forms. No code stands in both.

pub const OPEN_BRACKET: u64 = 40;

pub const CLOSE_BRACKET: u64 = 41;

pub const OPEN_BRACE: u64 = 42;

pub const CLOSE_BRACE: u64 = 43;

pub const COMMA: u64 = 44;

pub const SEMICOLON: u64 = 45;

pub const COLON: u64 = 46;

pub const BAR: u64 = 47;

pub const DOT: u64 = 48;

pub const ARROW: u64 = 49;

pub const IN_WORD: u64 = 50;

pub const THEN_WORD: u64 = 51;

pub const ELSE_WORD: u64 = 52;

pub const ENDIF_WORD: u64 = 53;

// types
pub const VOID: u64 = 54;

pub const BOOL: u64 = 55;

pub const INT: u64 = 56;

pub const REAL: u64 = 57;

pub const ANY: u64 = 58;

// the letters of collections in types: `S`, `Q`, `B` and `C`
pub const SET_LETTER: u64 = 59;

pub const SEQUENCE_LETTER: u64 = 60;

pub const BAG_LETTER: u64 = 61;

pub const COLLECTION_LETTER: u64 = 62;

// every other token: a number, `v1`, or what stands nowhere in the grammar; and where none is left
pub const OTHER: u64 = 64;

pub const END: u64 = 65;
