//! Relocations: writes the value of a symbol into an instruction or into a word of data.
#![tactic(auto)]

mod applying;
mod fields;
mod laws;
mod refusals;

pub use applying::apply;
pub use laws::relocation_filling_laws;
pub use refusals::RelocErr;
