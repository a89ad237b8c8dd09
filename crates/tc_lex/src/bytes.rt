// Tests of single bytes: digits and hex digits.
ghost use Rattle.std.specs.Prelude.{◌≡◌};
ghost use Rattle.tc_lex.specs.Bytes.{is_digit, is_hex_digit};

/// Whether a byte is a decimal digit: 0 to 9.
#[tactic(auto, unfolding(crate::specs::Bytes::is_digit))]
pub(crate) fn is_digit(c: u8) -> bool
    ensures { result ≡ is_digit c }
{
    b'0' <= c && c <= b'9'
}

/// Returns true if a byte of a token is a hex digit: 0 to 9, A to F or a to f.
#[tactic(auto, unfolding(crate::specs::Bytes::is_hex_digit))]
pub fn is_hex_digit(c: u8) -> bool
    ensures { result ≡ is_hex_digit c }
{
    is_digit(c) || (b'A' <= c && c <= b'F') || (b'a' <= c && c <= b'f')
}
