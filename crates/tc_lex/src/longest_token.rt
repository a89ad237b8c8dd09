// Finds the longest token at the start of a text.
ghost use Rattle.std.specs.Prelude.{◌≡◌, ◌<◌, ◌≤◌, ◌-◌, drop, length, slice_index, true};
ghost use Rattle.std.specs.List.{prefix_len};
ghost use Rattle.tc_lex.specs.Bytes.{is_digit, is_hex_digit};
ghost use Rattle.tcd_base.specs.NameBytes.{is_name_byte};
ghost use Rattle.tc_lex.specs.Cut.{has_hex_prefix, number_len, first_token_of, first_token_by_byte, IsTokenWithin};

use crate::bytes::{is_digit, is_hex_digit};
use crate::kinds::{Front, TokenKind};
use crate::numbers::has_hex_prefix;
use tcd_base::{is_name_byte, is_name_start};

/// What byte `at` of a line begins: the longest token there, a blank, the end, or a bad byte.
pub(crate) fn longest_token_at(line: &[u8], at: usize) -> Front
    requires { at < length line.now }
    ensures value { result ≡ first_token_of (drop at line.now) }
    ensures within { IsTokenWithin result (length line.now - at) }
{
    first_token_by_byte(line[at], &line[at..])
}

// Classifies `text`, the rest of a line with first byte `c`: a token and its length, a blank, a
// comment, or a bad byte.
#[tactic(auto, unfolding(crate::specs::Cut::first_token_by_byte))]
fn first_token_by_byte(c: u8, text: &[u8]) -> Front
    requires some { 0 < length text.now }
    requires first { c ≡ slice_index text.now 0 }
    ensures value { result ≡ first_token_by_byte c text.now }
    ensures within { IsTokenWithin result (length text.now) }
{
    if c == b'#' {
        Front::End
    } else if c == b' ' {
        Front::Blank
    } else if c == b'\t' {
        Front::Blank
    } else if c == b',' {
        Front::Token(TokenKind::Comma, 1)
    } else if c == b':' {
        Front::Token(TokenKind::Colon, 1)
    } else if c == b'[' {
        Front::Token(TokenKind::Open, 1)
    } else if c == b']' {
        Front::Token(TokenKind::Close, 1)
    } else if c == b'+' {
        Front::Token(TokenKind::Plus, 1)
    } else if c == b'-' {
        Front::Token(TokenKind::Minus, 1)
    } else if is_name_start(c) {
        Front::Token(TokenKind::Word, word_len(text))
    } else if is_digit(c) {
        Front::Token(TokenKind::Number, number_len(text))
    } else {
        Front::Bad
    }
}

/// Returns how many bytes of names the text begins with: the length of the word token there.
fn word_len(rest: &[u8]) -> usize
    ensures value { result ≡ prefix_len is_name_byte rest.now }
    ensures within { result ≤ length rest.now }
{
    rest.iter().take_while(|c| is_name_byte(**c)).count()
}

/// The length of the number token that the rest of a line begins with, decimal or after `0x`.
#[tactic(auto, unfolding(crate::specs::Cut::number_len))]
fn number_len(rest: &[u8]) -> usize
    ensures value { result ≡ number_len rest.now }
    ensures within { result ≤ length rest.now }
    ensures some { 0 < length rest.now → is_digit (slice_index rest.now 0) ≡ true → 0 < result }
{
    if has_hex_prefix(rest) {
        2 + hex_digits_len(&rest[2..])
    } else {
        decimal_digits_len(rest)
    }
}

/// The number of hex digits that the text begins with.
fn hex_digits_len(rest: &[u8]) -> usize
    ensures value { result ≡ prefix_len is_hex_digit rest.now }
    ensures within { result ≤ length rest.now }
{
    rest.iter().take_while(|c| is_hex_digit(**c)).count()
}

/// The number of decimal digits that the text begins with.
fn decimal_digits_len(rest: &[u8]) -> usize
    ensures value { result ≡ prefix_len is_digit rest.now }
    ensures within { result ≤ length rest.now }
{
    rest.iter().take_while(|c| is_digit(**c)).count()
}
