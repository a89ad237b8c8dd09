// The vocabulary of the table of meanings: how an instruction's fields give what it does.
use crate::{Cond, Op, Shape};

/// A register: the one that a field names, or a fixed one.
#[derive(Clone, Copy)]
pub enum RegField {
    Dc,
    Ds1,
    Ds2,
    D15,
    Ac,
    As1,
    As2,
    A10,
}

/// A constant: 0; the low 4, 9, 10 or 16 bits of `k` sign-extended; `k` itself; `k` times 2^16; the
/// address that the 18 bits of `k` encode; the field `s2` sign-extended; `s2` itself.
#[derive(Clone, Copy)]
pub enum Immediate {
    Zero,
    Signed4,
    Signed9,
    Signed10,
    Signed16,
    Unsigned,
    High,
    Address,
    SignedS2,
    UnsignedS2,
}

/// An operand: a register, or a constant.
#[derive(Clone, Copy)]
pub enum Operand {
    At(RegField),
    Of(Immediate),
}

/// A distance in bytes: twice `k`, sign-extended from 8, 15 or 24 bits, or not sign-extended.
#[derive(Clone, Copy)]
pub enum Displacement {
    Ahead8,
    Ahead15,
    Ahead24,
    AheadOnly,
}

/// The target of a jump or a call.
#[derive(Clone, Copy)]
pub enum Destination {
    By(Displacement),
    Code,
    In(RegField),
}

/// What a row's instructions do, in terms of their fields.
#[derive(Clone, Copy)]
pub enum Meaning {
    Computes(Op, RegField, Operand, Operand),
    Scales(RegField, RegField, RegField),
    Loads(RegField, Operand, Immediate, u8, bool, bool),
    Stores(RegField, Operand, Immediate, u8, bool),
    Branches(Cond, RegField, Operand, Displacement, bool),
    Jumps(Destination),
    Calls(Destination),
    Masks,
    Traps,
    ReadsCore(RegField),
    WritesCore(RegField),
    Always(Shape),
}
