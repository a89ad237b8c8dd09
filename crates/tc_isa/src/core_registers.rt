// The numbers of core registers (manual, volume 1, core registers).

/// The link to the previous context.
pub const PCXI: u16 = 0xfe00;

/// The status of the program.
pub const PSW: u16 = 0xfe04;

/// The base of the interrupt vectors.
pub const BIV: u16 = 0xfe20;

/// The base of the trap vectors.
pub const BTV: u16 = 0xfe24;

/// The interrupt stack pointer.
pub const ISP: u16 = 0xfe28;

/// Interrupt control.
pub const ICR: u16 = 0xfe2c;

/// The head of the free list.
pub const FCX: u16 = 0xfe38;

/// The limit of the free list.
pub const LCX: u16 = 0xfe3c;
