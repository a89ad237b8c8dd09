// The types of operands.

/// The form of a value: nothing, a number, a name, a name plus a number, a name's upper or lower
/// half, none of these, or a number of 2^128 or more.
#[derive(Clone, Copy, Debug, PartialEq, Eq, Default)]
pub enum Shape {
    /// No value.
    Absent,
    /// A number below 2^128.
    Number,
    /// A name.
    Word,
    /// A name plus or minus a number.
    Sum,
    /// The upper half of an address: `hi:NAME`, perhaps with a number.
    High,
    /// The lower half of an address: `lo:NAME`, perhaps with a number.
    Low,
    /// Tokens that are no value.
    #[default]
    Bad,
    /// A number of 2^128 or more.
    Huge,
}

/// A value: a name, and a number with an optional `-`. If `wide` is set, the number added to the
/// name is 2^128 or more, and `size` is 0.
#[derive(Clone, Copy, Default)]
pub struct Value<'a> {
    /// The absolute value of the number.
    pub size: u128,
    /// The name, and empty if there is none.
    pub name: &'a [u8],
    /// The form of the value.
    pub shape: Shape,
    /// Whether the number is subtracted, or negative.
    pub minus: bool,
    /// Whether the number that is added to the name is 2^128 or more.
    pub wide: bool,
}

/// A value, or `[BASE]` or `[BASE+]` with a value after it.
#[derive(Clone, Copy, Default)]
pub struct Operand<'a> {
    /// The value, which follows the brackets if there are any.
    pub value: Value<'a>,
    /// The name in the brackets, and empty if there are none.
    pub base: &'a [u8],
    /// Whether the operand begins with `[BASE]` or `[BASE+]`.
    pub is_memory: bool,
    /// Whether it is `[BASE+]`.
    pub plus: bool,
}
