// Why objects can't be linked.
ghost use Rattle.std.specs.Prelude.{◌≡◌};
ghost use Rattle.tc_link.specs.declared.errors.LinkErr.TheVariants.{NoMemory};

use std::alloc::{AllocError, AllocFailed};
use tc_reloc::RelocErr;
use thiserror::Error;

/// Why objects can't be linked: the first of these reasons in this order, or out of memory. Each is
/// at the first object, and there at the first symbol, section or relocation.
#[derive(Debug, Drop, Error)]
pub enum LinkErr {
    /// Two objects define this global symbol.
    #[error("the symbol {0} is defined in two objects")]
    Twice(String),
    /// No object defines this symbol.
    #[error("the symbol {0} is defined in no object")]
    Missing(String),
    /// No place is for sections of this name.
    #[error("the section {0} has no place")]
    NoPlace(String),
    /// A section of this name is too large for its place or for the image.
    #[error("the section {0} has no room")]
    NoRoom(String),
    /// A relocation of the object with this number can't be written.
    #[error("object {object}, section {section}, offset {offset}: {err:?}")]
    Reloc {
        object: u32,
        section: u32,
        offset: u32,
        err: RelocErr,
    },
    /// No object defines the entry as a global symbol.
    #[error("the entry is no global symbol")]
    NoEntry,
    /// Out of memory.
    #[error("out of memory")]
    NoMemory,
}

impl From<AllocError> for LinkErr {
    ghost from_gives = { λ _ e. e ≡ NoMemory };

    fn from(_e: AllocError) -> LinkErr {
        LinkErr::NoMemory
    }
}

impl<T: Drop> From<AllocFailed<T>> for LinkErr {
    ghost from_gives = { λ _ e. e ≡ NoMemory };

    fn from(_e: AllocFailed<T>) -> LinkErr {
        LinkErr::NoMemory
    }
}

impl From<tcd_base::NoMemory> for LinkErr {
    ghost from_gives = { λ _ e. e ≡ NoMemory };

    fn from(_e: tcd_base::NoMemory) -> LinkErr {
        LinkErr::NoMemory
    }
}
