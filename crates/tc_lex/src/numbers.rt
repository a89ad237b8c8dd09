// Reads the numbers that tokens spell.
ghost use Rattle.std.specs.Prelude.{◌≡◌, ◌<◌, Some, length, ◌-◌, IsTrue};
ghost use Rattle.tc_lex.specs.Numbers.{token_digit_value, append_digit, number_by_digits, token_number};
ghost use Rattle.tc_lex.specs.Bytes.{is_hex_digit};
ghost use Rattle.tc_lex.specs.Cut.{has_hex_prefix};

use crate::bytes::is_hex_digit;

/// The number that a token spells, decimal or hex after `0x`; `None` if 2^128 or more.
#[tactic(auto, unfolding(crate::specs::Numbers::token_number))]
pub(crate) fn token_number(text: &[u8]) -> Option<u128>
    ensures { result ≡ token_number text.now }
{
    if has_hex_prefix(text) {
        number_by_digits(16, &text[2..])
    } else {
        number_by_digits(10, text)
    }
}

/// Whether the text begins with `0x` and a hex digit.
#[tactic(auto, unfolding(crate::specs::Cut::has_hex_prefix))]
pub(crate) fn has_hex_prefix(rest: &[u8]) -> bool
    ensures value { result ≡ has_hex_prefix rest.now }
    ensures long { IsTrue result → 2 < length rest.now }
{
    rest.len() > 2 && rest[0] == b'0' && rest[1] == b'x' && is_hex_digit(rest[2])
}

/// The number that the digits `text` of a token spell in base 10 or 16; `None` if 2^128 or more.
fn number_by_digits(base: u8, text: &[u8]) -> Option<u128>
    ensures { result ≡ number_by_digits base text.now }
{
    let mut so_far = Some(0);
    for c in text {
        so_far = append_digit(base, so_far, *c);
    }
    so_far
}

/// The token's number `so_far` with one more digit `c` in this base; `None` if 2^128 or more.
#[tactic(auto, unfolding(crate::specs::Numbers::append_digit), using(crate::proofs::SmallTimes::small_times))]
fn append_digit(base: u8, so_far: Option<u128>, c: u8) -> Option<u128>
    ensures { result ≡ append_digit base so_far c }
{
    match so_far {
        None => None,
        Some(n) => {
            if n < 0x1_0000_0000_0000_0000 {
                Some(n * u128::from(base) + u128::from(token_digit_value(c)))
            } else {
                append_digit_to_large_number(base, n, c)
            }
        }
    }
}

// The value of a digit `c`, in ASCII, of a number in base 10 or 16.
#[tactic(auto, unfolding(crate::specs::Numbers::token_digit_value, crate::specs::Bytes::is_digit))]
fn token_digit_value(c: u8) -> u8
    ensures { result ≡ token_digit_value c }
{
    if b'0' <= c && c <= b'9' {
        c - b'0'
    } else if b'a' <= c {
        c - (b'a' - 10)
    } else {
        c.saturating_sub(b'A' - 10)
    }
}

// The number `n`, of 2^64 or more, with one more digit `c`; `None` if 2^128 or more.
#[inline(never)]
#[tactic(auto, unfolding(crate::specs::Numbers::append_digit))]
fn append_digit_to_large_number(base: u8, n: u128, c: u8) -> Option<u128>
    ensures { result ≡ append_digit base (Some n) c }
{
    match n.checked_mul(u128::from(base)) {
        None => None,
        Some(shifted) => shifted.checked_add(u128::from(token_digit_value(c))),
    }
}
