// Why no object was read or written.
ghost use Rattle.std.specs.Prelude.{◌≡◌};
ghost use Rattle.tc_object.specs.declared.errors.ObjErr.TheVariants.{Bad, NoMemory};

use std::alloc::{AllocError, AllocFailed};
use tcd_base::FormErr;

/// Why there is no object: the first fault of the bytes, or out of memory.
#[derive(Clone, Copy, Debug, PartialEq, Eq)]
pub enum ObjErr {
    /// The first fault of the file, with its kind and byte offset.
    Bad(FormErr),
    /// Out of memory.
    NoMemory,
}

impl From<FormErr> for ObjErr {
    ghost from_gives = { λ fault e. e ≡ Bad fault };

    fn from(fault: FormErr) -> ObjErr {
        ObjErr::Bad(fault)
    }
}

impl From<AllocError> for ObjErr {
    ghost from_gives = { λ _ e. e ≡ NoMemory };

    fn from(_e: AllocError) -> ObjErr {
        ObjErr::NoMemory
    }
}

impl<T: Drop> From<AllocFailed<T>> for ObjErr {
    ghost from_gives = { λ _ e. e ≡ NoMemory };

    fn from(_e: AllocFailed<T>) -> ObjErr {
        ObjErr::NoMemory
    }
}

impl From<tcd_base::NoMemory> for ObjErr {
    ghost from_gives = { λ _ e. e ≡ NoMemory };

    fn from(_e: tcd_base::NoMemory) -> ObjErr {
        ObjErr::NoMemory
    }
}
