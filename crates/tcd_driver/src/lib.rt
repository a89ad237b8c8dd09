//! The tool: the commands of the program.
#![tactic(auto)]

mod cell_and_task_files;
mod cert_making;
mod command;
mod commands;
mod distinct_names;
mod laws;
mod lines;
mod tools;

pub use laws::{AnyEnds, decided_status_law};
pub use tcd_reading::Status;
pub use tools::tool;
