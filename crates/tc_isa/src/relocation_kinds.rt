// The kinds of relocations, by the fields that they fill.

/// A near call or jump: half the distance, in 24 bits.
pub const REL24: u8 = 1;

/// An absolute call or jump: bits 31:28 and 20:1 of the address, in 24 bits.
pub const ABS24: u8 = 2;

/// A conditional jump: half the distance, in 15 bits.
pub const REL15: u8 = 3;

/// The upper half of an address, plus one if its lower half is negative.
pub const HI16: u8 = 4;

/// The lower half of an address, as a constant.
pub const LO16: u8 = 5;

/// The lower half of an address, as the offset of an access.
pub const OFFSET16: u8 = 6;

/// An address as a word of data.
pub const WORD32: u8 = 7;
