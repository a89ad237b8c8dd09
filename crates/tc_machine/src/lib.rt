//! The reference machine: its state, what one event does to it, and when every run is safe.
#![tactic(auto)]

mod accesses;
mod context_instructions;
mod contexts;
mod core_registers;
mod events;
mod fetching;
mod handlers;
mod instructions;
mod laws;
mod next_load_and_used_areas;
mod operand_addresses;
mod registers;
mod start_memory;
mod starting;
mod state;
mod stepping;

pub use accesses::is_trapping_access;
pub use events::{Cause, End, Event};
pub use laws::{machine_laws, safety_definition_laws};
pub use state::Machine;
