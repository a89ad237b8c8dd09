//! Plans: what is known of a board, its start state, its interrupts and its traps, read from JSON.
#![tactic(auto)]

mod cutting;
mod json_values;
mod key_refusals;
mod key_table;
mod limits;
mod object_forms;
mod plan_parts;
mod plans;
mod printed_keys;
mod reader;

pub use cutting::ranges_outside;
pub use plans::{Device, Plan, PlanErr, PlanKey};
pub use printed_keys::key_text;
