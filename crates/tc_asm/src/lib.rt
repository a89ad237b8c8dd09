//! The assembler: the object of a source, or the least bad line and the least rule there.
#![tactic(auto)]

mod assemble_source;
mod draft;
mod encode;
mod errors;
mod finished_object;
mod laws;
mod put_checked_items;
mod rules;
mod sections;
mod symbols;

pub use assemble_source::assemble;
pub use errors::AsmErr;
pub use laws::{instruction_laws, relocation_laws, section_laws};
pub use symbols::{Entry, Place, Symbols};
