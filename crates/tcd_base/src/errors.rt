// The errors that all crates share: out of memory, and the first fault of a file.
ghost use Rattle.std.specs.Prelude.{◌≡◌, ◌≤◌, ◌^◌};

use std::alloc::{AllocError, AllocFailed};

/// An allocation failed.
#[derive(Clone, Copy, Debug, PartialEq, Eq)]
pub struct NoMemory;

impl From<AllocError> for NoMemory {
    fn from(_: AllocError) -> Self {
        NoMemory
    }
}

impl<T: Drop> From<AllocFailed<T>> for NoMemory {
    fn from(_: AllocFailed<T>) -> Self {
        NoMemory
    }
}

/// The kind of fault: the bytes end inside a field.
pub const SHORT: u8 = 1;

/// The kind of fault: the magic bytes or the version aren't those of the format.
pub const BAD_MAGIC: u8 = 2;

/// The kind of fault: records aren't in ascending order.
pub const BAD_ORDER: u8 = 3;

/// The kind of fault: a field has a value that the format doesn't allow.
pub const BAD_VALUE: u8 = 4;

/// The kind of fault: a count or a size is above the limit of the format.
pub const ABOVE_LIMIT: u8 = 5;

/// The kind of fault: bytes follow the end of the format.
pub const TRAILING: u8 = 6;

/// The first fault of a file: its kind (`SHORT` to `TRAILING`), and the offset of its first byte in
/// the file.
#[derive(Clone, Copy, Debug, PartialEq, Eq)]
pub struct FormErr {
    pub kind: u8,
    pub at: u32,
}

/// Returns the error of a file: the kind of its first fault, and the fault's offset in bytes.
pub fn form_err_at(kind: u8, at: usize) -> FormErr
    requires { at ≤ 2 ^ 30 }
    ensures { result ≡ record { kind = kind; at = at } }
{
    FormErr {
        kind,
        at: at as u32,
    }
}
