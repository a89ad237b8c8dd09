//! Effects of instructions and branches on states.
#![tactic(auto)]

mod access;
mod branch_sides;
mod built_states;
mod change;
mod changed_states;
mod effect;
mod laws;
mod operands;
mod operations;
mod refinement;
mod registers;
mod signed_refinement;
mod strided_interval;

pub use access::{address_by_shape, write_address_by_shape};
pub use branch_sides::write_branch_change;
pub use built_states::{address, refine, state_after_change, transfer};
pub use change::{Base, Change, RegisterWrite, identity_change, register_write};
pub use changed_states::changed_value;
pub use effect::write_instruction_change;
pub use laws::{operation_laws, refinement_laws, soundness_laws};
pub use operands::arg_word;
pub use registers::{A10, is_lower_slot, reg, singleton_word};
