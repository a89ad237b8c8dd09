//! The addresses that stores and loads reach, and the values that loads give.
#![tactic(auto)]

mod laws;
mod loads;
mod ranges;
mod rom;
mod stores;

pub use laws::load_laws;
pub use loads::{LoadKind, load_of, write_load};
pub use ranges::is_store_in_range;
pub use rom::loaded_rom;
pub use stores::{aligned, store_ok};
