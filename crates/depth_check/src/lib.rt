//! The certificate checker.
#![tactic(auto)]

mod certificates;
mod duty_rules;
mod fast_paths;
mod last_interrupts;
mod laws;
mod node_covers;
mod nodes;
mod points;
mod rules;
mod successor_rules;
mod verdicts;

pub use certificates::check;
pub use laws::{accepted_holds_frames, accepted_is_safe, answer_laws, first_fault_laws};
pub use verdicts::Verdict;
