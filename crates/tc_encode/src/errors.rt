// Why bytes begin with no instruction.

/// Why bytes begin with no instruction.
#[derive(Clone, Copy, Debug, PartialEq, Eq)]
pub enum DecodeErr {
    /// The bytes are the beginning of an instruction, and end too early.
    Short = 1,
    /// No instruction of the table begins with these bytes.
    NotListed = 2,
}
