// Shapes: what an instruction does, with its operands filled in.

/// An operation on two words; `Second` gives the second one. Comparisons give 1 or 0.
#[derive(Clone, Copy, Debug, PartialEq, Eq)]
pub enum Op {
    Second,
    Add,
    Sub,
    And,
    Nand,
    Or,
    Nor,
    Xor,
    Xnor,
    Andn,
    Orn,
    Eq,
    Ne,
    Lt,
    LtU,
    Ge,
    GeU,
    Sh,
    Sha,
}

/// A comparison of two words; `Lt` and `Ge` are signed, `LtU` and `GeU` unsigned.
#[derive(Clone, Copy, Debug, PartialEq, Eq)]
pub enum Cond {
    Eq,
    Ne,
    Lt,
    LtU,
    Ge,
    GeU,
}

/// An operand: a register (0 to 15 for D0 to D15, 16 to 31 for A0 to A15) or a word.
#[derive(Clone, Copy, Debug, PartialEq, Eq)]
pub enum Arg {
    Reg(u8),
    Word(u32),
}

/// The target of a jump or a call: a distance in bytes from the instruction, modulo 2^32; an
/// address; or the value of a register.
#[derive(Clone, Copy, Debug, PartialEq, Eq)]
pub enum Target {
    Rel(u32),
    Abs(u32),
    Reg(u8),
}

/// What an instruction does. Registers are numbered as in `Arg`. Offsets and `by` are in bytes
/// modulo 2^32, sizes in bytes (1, 2 or 4).
/// With `after`, the address of an access is the base register, which is increased by `offset`
/// afterwards. Otherwise it is the base plus the offset.
/// A branch with `lowers` decrements `x` by 1, whether it is taken or not.
#[derive(Clone, Copy, Debug, PartialEq, Eq)]
pub enum Shape {
    Compute {
        op: Op,
        dst: u8,
        x: Arg,
        y: Arg,
    },
    Scaled {
        dst: u8,
        base: u8,
        index: u8,
        n: u8,
    },
    Load {
        dst: u8,
        base: Arg,
        offset: u32,
        size: u8,
        signed: bool,
        after: bool,
    },
    Store {
        src: u8,
        base: Arg,
        offset: u32,
        size: u8,
        after: bool,
    },
    Branch {
        cond: Cond,
        x: u8,
        y: Arg,
        by: u32,
        lowers: bool,
    },
    Jump {
        to: Target,
    },
    Call {
        to: Target,
    },
    Ret,
    Rfe,
    Svlcx,
    Rslcx,
    Bisr {
        c: u8,
    },
    Enable,
    Disable,
    Syscall {
        tin: u8,
    },
    Mfcr {
        dst: u8,
        number: u16,
    },
    Mtcr {
        src: u8,
        number: u16,
    },
    Nothing,
}
