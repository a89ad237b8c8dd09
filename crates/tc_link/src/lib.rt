//! Layouts of the sections of programs, and the linker, which links objects to an image.
#![tactic(auto)]

mod addresses;
mod definitions;
mod drafts;
mod errors;
mod global_symbols;
mod layout_errors;
mod layouts;
mod lines;
mod link_objects;
mod placed;
mod relocated_sections;
mod section_checks;
mod segments;
mod symbol_checks;
mod written_sections;

pub use errors::LinkErr;
pub use layout_errors::LayoutErr;
pub use layouts::{Layout, Place};
pub use link_objects::{link, link_borrowed};
