// The codes of the letters that stand around a base. 0 is none.

pub const COLLECTION: u8 = 1;

pub const SET: u8 = 2;

pub const SEQUENCE: u8 = 3;

pub const BAG: u8 = 4;
