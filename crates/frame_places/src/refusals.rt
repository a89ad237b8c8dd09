// Why the maker stops.
ghost use Rattle.std.specs.Prelude.{◌≡◌};
ghost use Rattle.frame_places.specs.declared.refusals.Refusal.TheVariants.{NoMemory};

use crate::places::Spot;
use std::alloc::{AllocError, AllocFailed};

/// The number of the rule on locals: states that meet at a point have equally many.
pub const LOCALS_RULE: u8 = 8;

/// The number of the rule on needs: none is above the areas without the reserve.
pub const NEEDS_RULE: u8 = 14;

/// The number of the rule on the greatest numbers of points and frames.
pub const LIMITS_RULE: u8 = 15;

/// A fault of a derived assignment, by its rule and its place, or out of memory.
#[derive(Debug, Drop)]
pub enum Refusal {
    Fault(u8, Spot),
    NoMemory,
}

impl From<AllocError> for Refusal {
    ghost from_gives = { λ _ e. e ≡ NoMemory };

    fn from(_error: AllocError) -> Refusal {
        Refusal::NoMemory
    }
}

impl<T: Drop> From<AllocFailed<T>> for Refusal {
    ghost from_gives = { λ _ e. e ≡ NoMemory };

    fn from(_error: AllocFailed<T>) -> Refusal {
        Refusal::NoMemory
    }
}
