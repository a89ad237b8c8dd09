// Why a text is no layout.
ghost use Rattle.std.specs.Prelude.{◌≡◌};
ghost use Rattle.tc_link.specs.declared.layout_errors.LayoutErr.TheVariants.{NoMemory};

use std::alloc::{AllocError, AllocFailed};

/// Why a text is no layout: the first line with a fault, counted from 1, and its first fault in
/// this order; or out of memory.
#[derive(Clone, Copy, Debug, PartialEq, Eq)]
pub enum LayoutErr {
    /// A line in none of the forms, a place past 2^32, or one at no multiple of 4. For a layout
    /// without an entry, the line after the last.
    BadLine(u32),
    /// A second entry, or a second place for the same sections.
    Twice(u32),
    /// A 65th place.
    TooMany(u32),
    /// A place that shares a byte with an earlier one.
    Overlap(u32),
    /// Out of memory.
    NoMemory,
}

impl From<AllocError> for LayoutErr {
    ghost from_gives = { λ _ e. e ≡ NoMemory };

    fn from(_e: AllocError) -> LayoutErr {
        LayoutErr::NoMemory
    }
}

impl<T: Drop> From<AllocFailed<T>> for LayoutErr {
    ghost from_gives = { λ _ e. e ≡ NoMemory };

    fn from(_e: AllocFailed<T>) -> LayoutErr {
        LayoutErr::NoMemory
    }
}
