// The kinds of operands that rows want.

/// A field of an instruction.
#[derive(Clone, Copy, Debug, PartialEq, Eq)]
pub enum Field {
    C,
    S1,
    S2,
    N,
    K,
}

/// The operand that a row wants: a register of a bank (true: address registers) in a field, the
/// register a10, a number in a field (true: signed), a target, an absolute address, or `[As2]` with
/// a `+` or with an offset.
#[derive(Clone, Copy, Debug, PartialEq, Eq)]
pub enum Want {
    Reg(bool, Field),
    A10,
    Number(bool, Field),
    Target,
    Absolute,
    Memory(bool, bool),
}
