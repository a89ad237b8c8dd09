//! Texts, read and written: lines, their words, and bytes and 32-bit words as hex digits.
#![tactic(auto)]

mod hex_numbers;
mod lines;
mod text_parts;
mod words;

pub use hex_numbers::{
    append_ascii, append_hex_byte, append_hex_word, hex_byte, hex_number, hex_word,
};
pub use lines::cut_line;
pub use text_parts::append_str;
pub use words::{Words, cut_word, words_in};
