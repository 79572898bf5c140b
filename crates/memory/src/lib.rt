// Numbers that several crates share, each under one name: how many of each thing a sheet may have and how much is lent (document 01, The
// sheet and Calls), where each table lies in what is lent, and what forms, lines and blocks are told by. docs/ARCHITECTURE.md (Memory)
// draws the tables; definitions have the same names in specs/ and in sheet/specs/Sizes.antt, and tests/memory compares them. It depends on
// nothing.
#![tactic(auto)]

pub mod codes; // a form's code
pub mod lines; // what a line begins with, its block, and what is open
pub mod refusals; // why something is refused, and where
pub mod words; // words as numbers of places, and the larger and the smaller of two

// ---- how many of each a sheet may have

pub const MOST_BYTES: usize = 49_152;

pub const MOST_CLASSES: u64 = 64;

pub const MOST_ROWS: u64 = 64;

pub const MOST_NAMES: u64 = 256;

pub const MOST_OBJECTS: u64 = 96;

pub const MOST_VALUES: u64 = 1024;

pub const MOST_CELLS: u64 = 2048;

pub const MOST_DEFINITIONS: u64 = 32;

pub const MOST_RULES: u64 = 64;

pub const MOST_NODES: u64 = 768;

pub const MOST_OPEN: usize = 64;

pub const MOST_LEVELS: u64 = 19;

// ---- how much a caller lends at least: words of each slice, bytes of output, words of a board

pub const LEAST_WORDS: usize = 8192;

pub const LEAST_OUTPUT: usize = 2560;

pub const LEAST_BOARD: usize = 8192;

// ---- how much a program has: room for a text with one byte more than a sheet may have, so that a longer one is still refused; and output

pub const PROGRAM_TEXT: usize = MOST_BYTES + 1;

pub const PROGRAM_OUTPUT: usize = 65_536;

// ---- where the tables begin: each right behind the one before it

// w0: classes and rows
pub const PARENTS: usize = 0;

pub const OWNERS: usize = PARENTS + MOST_CLASSES as usize;

pub const NAMES: usize = OWNERS + MOST_ROWS as usize;

pub const TYPES: usize = NAMES + MOST_ROWS as usize;

pub const ROWS_END: usize = TYPES + MOST_ROWS as usize;

// w0: objects and slots
pub const OBJECTS: usize = ROWS_END;

pub const KEYS: usize = OBJECTS + MOST_OBJECTS as usize;

pub const STARTS: usize = KEYS + MOST_VALUES as usize;

pub const CELLS: usize = STARTS + MOST_VALUES as usize;

pub const CELLS_END: usize = CELLS + MOST_CELLS as usize;

// w0: rules and definitions
pub const CONTEXTS: usize = CELLS_END;

pub const ROOTS: usize = CONTEXTS + MOST_RULES as usize;

pub const DEFINITION_CONTEXTS: usize = ROOTS + MOST_RULES as usize;

pub const DEFINITION_TYPES: usize = DEFINITION_CONTEXTS + MOST_DEFINITIONS as usize;

pub const DEFINITION_ROOTS: usize = DEFINITION_TYPES + MOST_DEFINITIONS as usize;

// w1: nodes, their marks and their depths
pub const NODES: usize = MOST_NODES as usize;

pub const NODE_WORDS: usize = 8;

pub const NODES_END: usize = NODE_WORDS * NODES;

pub const MARKS: usize = NODES_END;

pub const DEPTHS: usize = MARKS + NODES;

// a mark is a row, with the first of these added where `collect` gives a Sequence; where numbers go by Reals, it is the second
pub const MARK_SEQUENCE: u64 = MOST_ROWS;

pub const MARK_REALS: u64 = 2 * MOST_ROWS;

// variables have numbers below the first of these and classes below the second; in a node's word, whatever lies there is taken so
pub const VARIABLE_NUMBERS: u64 = 16;

pub const CLASS_NUMBERS: u64 = 256;

// an environment has a place for each variable
pub const VARIABLES: usize = VARIABLE_NUMBERS as usize;

// a place is one word: its node, and this many times its step
pub const PLACE_STEP: u64 = 1024;

// w2, while rules are typed: the types of the rules, behind the marks
pub const RULE_TYPES: usize = NODES;

// w2, while a text is read: its open `let`s, behind its nodes
pub const LET_VARIABLES: usize = NODES_END;

pub const LET_ROOTS: usize = LET_VARIABLES + NODES;

// the board: slots where w0 has them, and behind these where the verdicts of each rule end
pub const BOARD_ENDS: usize = CELLS_END;

pub const BOARD_END: usize = BOARD_ENDS + MOST_RULES as usize;
