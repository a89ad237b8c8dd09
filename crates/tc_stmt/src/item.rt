// The items that a line adds to its source.
use tc_isa::Fields;

/// What a line adds to its source, in 32 bytes: symbols' references are spread out.
#[derive(Clone, Copy)]
pub enum Item<'a> {
    /// A label of this name.
    Label(&'a [u8]),
    /// Begins the section of this name, or continues it.
    Section(&'a [u8]),
    /// Makes the symbol of this name global.
    Global(&'a [u8]),
    /// An instruction without a symbol: the number of its row, and its fields.
    Code(u8, Fields),
    /// An instruction with a symbol: the number of its row, and, as in a `Reference`, the kind and
    /// the sign; then its fields, the number that is added to the symbol, and the symbol's name.
    Linked(u8, u8, bool, Fields, u32, &'a [u8]),
    /// Data without a symbol: the number of bytes, at most 4, and the bytes.
    Data(u8, [u8; 4]),
    /// Zeros that a symbol's address replaces: how many, at most 4, the sign and the number that is
    /// added, and the symbol's name.
    Word(u8, bool, u32, &'a [u8]),
    /// This number of zero bytes.
    Zeros(u32),
}

impl Default for Item<'_> {
    fn default() -> Self {
        Item::Zeros(0)
    }
}
