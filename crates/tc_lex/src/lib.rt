//! The tokens of one line of assembler, and the operands that they spell.
#![tactic(auto)]

mod bytes;
mod cutting;
mod kinds;
mod line_pieces;
mod longest_token;
mod numbers;
mod operand;
mod pieces;
mod read_operand;
mod same_bytes;
mod scratch;
mod split_operands;

pub use bytes::is_hex_digit;
pub use cutting::{tokens, tokens_into};
pub use kinds::{Front, Token, TokenKind};
pub use line_pieces::tokenize_line;
pub use operand::{Operand, Shape, Value};
pub use pieces::{Piece, is_token_kind, token_text};
pub use same_bytes::{are_same_bytes, is_same_text};
pub use scratch::Scratch;
pub use split_operands::operands_into;
