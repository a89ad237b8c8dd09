//! Executables: ELF files of 32 bits, and the image that they load.
#![tactic(auto)]

mod errors;
mod file_checks;
mod file_writer;
mod headers;
mod images;
mod segments;

pub use errors::ImageErr;
pub use images::Image;
pub use segments::{Segment, establish_segment_bytes};
