//! Object files: sections with their bytes, symbols, and relocations.
#![tactic(auto)]

mod borrowed;
mod errors;
mod fields;
mod names;
mod objects;
mod parts_writer;
mod reading;
mod reloc_reader;
mod relocs;
mod section_reader;
mod sections;
mod symbol_reader;
mod symbols;
mod used_names;

pub use borrowed::ObjectRef;
pub use errors::ObjErr;
pub use names::object_name_of;
pub use objects::Object;
pub use relocs::Reloc;
pub use sections::{Section, SectionRef};
pub use symbols::{GLOBAL_SYMBOL, LOCAL_SYMBOL, Symbol, SymbolRef, UNDEFINED_SYMBOL};
