// Why the bytes of a file are no turn script.
use std::alloc::{AllocError, AllocFailed};

/// Why the bytes of a file are no turn script. The number is that of the line, from 1.
#[derive(Clone, Copy, Debug, PartialEq, Eq)]
pub enum ScriptErr {
    /// The line is no statement.
    BadLine(u32),
    /// The interrupt isn't one of the plan's.
    NoSource(u32),
    /// The peripheral doesn't exist, or a bound is outside the peripheral's own.
    OutOfRange(u32),
    /// There are more than 100,000 turns.
    TooMany(u32),
    /// An allocation failed.
    NoMemory,
}

impl From<AllocError> for ScriptErr {
    ghost use Rattle.std.specs.Prelude.{◌≡◌};
    ghost use Rattle.tc_script.specs.declared.errors.ScriptErr.TheVariants.{NoMemory};

    ghost from_gives = { λ _ e. e ≡ NoMemory };

    fn from(_: AllocError) -> Self {
        ScriptErr::NoMemory
    }
}

impl<T: Drop> From<AllocFailed<T>> for ScriptErr {
    ghost use Rattle.std.specs.Prelude.{◌≡◌};
    ghost use Rattle.tc_script.specs.declared.errors.ScriptErr.TheVariants.{NoMemory};

    ghost from_gives = { λ _ e. e ≡ NoMemory };

    fn from(_: AllocFailed<T>) -> Self {
        ScriptErr::NoMemory
    }
}
