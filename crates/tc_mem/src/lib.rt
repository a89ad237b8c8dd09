//! A memory: bytes at addresses, in pages of 4,096 bytes.
#![tactic(auto)]

mod memory;
mod page;
mod page_list;
mod page_numbers;

pub use memory::Mem;
