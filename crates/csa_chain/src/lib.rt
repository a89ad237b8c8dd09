//! Context save areas (CSAs): links, the words of a saved context, and the laws of chains.
//! No function allocates.
#![tactic(auto)]

mod contexts;
mod laws;
mod links;

pub use contexts::{load_lower, load_upper, lower_words, upper_words};
pub use laws::{chain_laws, context_laws, memory_laws, several_chains_laws};
pub use links::{PcxiParts, address_of, link_of, pcxi_parts, pcxi_word};
