//! What people look at: the graph of a certificate, and its report. Also images of any number of
//! functions with their plan, to try the tools on.
#![tactic(auto)]

mod generating;
mod graphs;
mod judged;
mod laws;
mod reports;
mod texts;

pub use generating::generated_files::{Generated, generate, generated_image, generated_plan_text};
pub use graphs::graph;
pub use laws::graph_law;
pub use reports::report;
