//! The trusted edge: files of the operating system and standard output, as commands see them.
#![tactic(auto)]

mod real;

pub use real::{RealFiles, Stdout};
