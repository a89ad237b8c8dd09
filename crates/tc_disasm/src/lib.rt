//! The disassembler: prints an image as a listing.
#![tactic(auto)]

mod images;
mod instructions;
mod laws;
mod lines;
mod operands;
mod ordering;
mod reassembling;
mod texts;

pub use images::listing;
pub use laws::{listings_read_back, numbers_read_back, statements_read_back, tokens_read_back};
pub use reassembling::reassemble;
