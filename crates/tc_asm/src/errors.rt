// Why a source has no object.
ghost use Rattle.std.specs.Prelude.{◌≡◌};
ghost use Rattle.tc_asm.specs.declared.errors.AsmErr.TheVariants.{NoMemory};

use std::alloc::{AllocError, AllocFailed};

/// Why a source has no object: the least line that breaks a rule, counted from 1, and the least
/// rule there; or out of memory.
#[derive(Clone, Copy, Debug, PartialEq, Eq)]
pub enum AsmErr {
    /// The least line that breaks a rule, counted from 1, and the least rule there.
    Bad { line: u32, rule: u8 },
    /// Out of memory.
    NoMemory,
}

impl From<AllocError> for AsmErr {
    ghost from_gives = { λ _ e. e ≡ NoMemory };

    fn from(_e: AllocError) -> AsmErr {
        AsmErr::NoMemory
    }
}

impl<T: Drop> From<AllocFailed<T>> for AsmErr {
    ghost from_gives = { λ _ e. e ≡ NoMemory };

    fn from(_e: AllocFailed<T>) -> AsmErr {
        AsmErr::NoMemory
    }
}
