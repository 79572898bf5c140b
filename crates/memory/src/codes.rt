// The code of each form, as word 0 of a node holds it. Forms of one family have neighbouring codes, so that a range of codes tells a
// family from the others.

// leaves
pub const FALSE: u64 = 0;

pub const TRUE: u64 = 1;

pub const UNDEF: u64 = 2;

pub const NUMBER: u64 = 3;

pub const SELF: u64 = 4;

pub const VAR: u64 = 5;

pub const ALL: u64 = 6;

// unary forms
pub const NEGATION: u64 = 7;

pub const SIZE_OF: u64 = 8;

pub const TO_SET: u64 = 9;

pub const TO_SEQUENCE: u64 = 10;

pub const TO_BAG: u64 = 11;

pub const CAST_TO: u64 = 12;

// binary forms, and OVER below
pub const EQUAL: u64 = 13;

pub const LESS: u64 = 14;

pub const PLUS: u64 = 15;

pub const MINUS: u64 = 16;

pub const TIMES: u64 = 17;

pub const DIV: u64 = 18;

pub const MODULO: u64 = 19;

pub const INCLUDES: u64 = 20;

pub const INCLUDING: u64 = 21;

pub const UNION: u64 = 22;

// connectives
pub const AND: u64 = 23;

pub const OR: u64 = 24;

// quantifiers
pub const FOR_ALL: u64 = 25;

pub const EXISTS: u64 = 26;

// collections that are written out
pub const SET: u64 = 27;

pub const SEQUENCE: u64 = 28;

pub const BAG: u64 = 29;

// forms without a family
pub const IS_UNDEF: u64 = 30;

pub const CONDITIONAL: u64 = 31;

pub const LET_IN: u64 = 32;

// `attr` and `collect`: a row of one object, and of each member of a collection
pub const OF_OBJECT: u64 = 33;

pub const OF_MEMBERS: u64 = 34;

// forms that came later
pub const ITERATE: u64 = 35;

pub const CALL: u64 = 36;

pub const OVER: u64 = 37;

// the word `real`, whose node has the code of NUMBER; and any word that names no form
pub const REAL: u64 = 38;

pub const NO_FORM: u64 = 99;
