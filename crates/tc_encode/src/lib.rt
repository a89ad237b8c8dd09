//! Instructions as bytes: encoded and decoded.
#![tactic(auto)]

mod completions;
mod decoding;
mod encoding;
mod errors;
mod forms;
mod index;
mod laws;
mod word_search;

pub use decoding::decode;
pub use encoding::{Code, encode};
pub use errors::DecodeErr;
pub use laws::{decoding_laws, spelling_laws};
