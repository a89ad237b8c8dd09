//! Laws of assembling and linking together: the addresses of statements in the linked image.
#![tactic(auto)]

mod placing;

pub use placing::placing_laws;
