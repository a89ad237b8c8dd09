//! Compact states and exits: a value keeps only its words, or the ends and the step of its range.
#![tactic(auto)]

mod gathered;
mod incoming;
mod incoming_values;
mod known;
mod scratch;
mod small_value;
mod spelling;
mod states;
mod values;

pub use incoming::{Incoming, incoming_ccpn};
pub use known::{Outline, SmallKnown};
pub use scratch::ScratchState;
pub use small_value::Small;
pub use states::{SmallExit, SmallState};
pub use values::{SpacedValue, Values};
