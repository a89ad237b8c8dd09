// A relocation.

/// Four bytes of a section that receive the address of a symbol plus the addend.
///
/// Kinds: 1 a near call or jump, 2 an absolute call or jump, 3 a conditional jump, 4 the upper half
/// of an address, 5 the lower half as a constant, 6 the lower half as an offset, 7 a whole word.
#[derive(Clone, Copy, Debug, PartialEq, Eq)]
pub struct Reloc {
    /// The number of the section.
    pub section: u16,
    /// The offset of the four bytes in the section.
    pub offset: u32,
    /// The kind, from 1 to 7.
    pub kind: u8,
    /// The number of the symbol.
    pub symbol: u16,
    /// The number that is added to the symbol's address, modulo 2^32.
    pub addend: u32,
}
