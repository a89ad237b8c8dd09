//! Turn scripts: turns of a run, answers of peripherals in it, and the machine driven by them.
#![tactic(auto)]

mod area_counts;
mod driving;
mod errors;
mod known_words;
mod laws;
mod numbers;
mod ports;
mod reading;
mod script_runs;
mod scripts;
mod statements;

pub use driving::{Peak, drive};
pub use errors::ScriptErr;
pub use laws::script_has_one_run;
pub use numbers::script_number;
pub use ports::Ports;
pub use script_runs::drive_by_script;
pub use scripts::{AnswerRange, Script, Turn};
