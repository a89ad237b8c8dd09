//! Cells: words of ram, each with bounds that every store keeps.
#![tactic(auto)]

mod cells;
mod errors;
mod faults;
mod keeping;
mod laws;
mod lines;
mod plans;
mod rule_16;

pub use cells::{Cell, Cells};
pub use errors::CellsErr;
pub use faults::cells_fault;
pub use laws::{cell_definition_laws, cell_fault_laws, cells_keep_their_bounds};
pub use plans::with_cells;
pub use rule_16::CELLS_RULE;
