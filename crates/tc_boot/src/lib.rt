//! The boot sequence: code that builds the free list of CSAs and sets the registers of a plan.
#![tactic(auto)]

mod bytes;
mod instructions;
mod judging;
mod laws;
mod sources;

pub use bytes::boot_bytes;
pub use judging::{BootErr, boot_ok};
pub use laws::{boot_guard_laws, boot_reaches_the_start};
pub use sources::boot_source;
