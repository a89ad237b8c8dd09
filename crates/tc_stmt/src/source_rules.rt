// The rules of sources, by the numbers that are printed.

/// A byte or token outside the grammar, or a 65th token in one line.
pub const BAD_TOKEN: u8 = 1;

/// An unknown statement.
pub const UNKNOWN_STATEMENT: u8 = 2;

/// Wrong operands.
pub const WRONG_OPERANDS: u8 = 3;

/// A wrong register.
pub const WRONG_REGISTER: u8 = 4;

/// A number that doesn't fit its field.
pub const WIDE_NUMBER: u8 = 5;

/// An odd displacement.
pub const ODD_DISPLACEMENT: u8 = 6;

/// A label twice.
pub const LABEL_TWICE: u8 = 7;

/// A label, instruction or data before any section.
pub const NO_SECTION: u8 = 8;

/// A bad name.
pub const BAD_NAME: u8 = 9;

/// A symbol in a place that takes none.
pub const MISPLACED_SYMBOL: u8 = 10;

/// A target too far for 16 bits.
pub const FAR_TARGET: u8 = 11;

/// A post-increment with equal registers.
pub const EQUAL_REGISTERS: u8 = 12;

/// Too many sections, symbols, relocations or bytes.
pub const PAST_LIMITS: u8 = 13;

/// A global name that is never defined.
pub const UNDEFINED_GLOBAL: u8 = 14;

/// No rule is broken. The number is above those of all rules.
pub const NO_RULE: u8 = 15;
