//! The frame of a command: it reads inputs, reports on them, and ends with a status.
#![tactic(auto)]

mod inputs;
mod laws;
mod outcome;
mod status;

pub use inputs::{Form, read_input};
pub use laws::{AnyCommand, ending_laws, reading_laws};
pub use outcome::{
    Outcome, Report, Stop, Write, bad_input_stop, finish_outcome, report_with_file,
    report_with_two_files,
};
pub use status::{Status, print_with_status};
