// Bytes and 32-bit words as upper-case hex digits: written, and numbers of eight digits read.
ghost use Rattle.std.specs.Prelude.{◌≡◌, ◌≤◌, length, ◌<◌, ◌++◌, OnOk, string_bytes};
ghost use Rattle.std.specs.Bool.{then_some};
ghost use Rattle.std.specs.Char.{digit_value};
ghost use Rattle.std.specs.List.{list_all};
ghost use Rattle.std.specs.Str.Parse.{digits_value};
ghost use Rattle.tcd_text.specs.HexNumbers.{hex_number_of, is_upper_hex, hex_digit, hex_byte, hex_word};
ghost use Rattle.std.specs.Str.{IsAscii};

use tcd_base::NoMemory;

/// Returns the number that eight upper-case hex digits spell, or `None` for any other bytes.
pub fn hex_number(digits: &[u8]) -> Option<u32>
    ensures { result ≡ hex_number_of digits.now }
{
    if digits.len() == 8 {
        upper_hex_digits_value(digits)
    } else {
        None
    }
}

/// Returns the two upper-case hex digits of a byte in ASCII, the higher one first.
#[tactic(auto, unfolding(crate::specs::HexNumbers::hex_byte))]
pub fn hex_byte(byte: u32) -> [u8; 2]
    requires { byte < 256 }
    ensures { result ≡ hex_byte byte }
{
    [hex_digit(byte / 16), hex_digit(byte % 16)]
}

/// Returns the eight upper-case hex digits of a word in ASCII, the highest one first.
#[tactic(auto, unfolding(crate::specs::HexNumbers::hex_byte, crate::specs::HexNumbers::hex_word))]
pub fn hex_word(word: u32) -> [u8; 8]
    ensures { result ≡ hex_word word }
{
    [
        hex_digit(word / 16_777_216 / 16),
        hex_digit(word / 16_777_216 % 16),
        hex_digit(word / 65_536 % 256 / 16),
        hex_digit(word / 65_536 % 256 % 16),
        hex_digit(word / 256 % 256 / 16),
        hex_digit(word / 256 % 256 % 16),
        hex_digit(word % 256 / 16),
        hex_digit(word % 256 % 16),
    ]
}

/// Appends ASCII bytes to a text, such as the digits of a number in hex.
pub fn append_ascii(text: &mut String, bytes: &[u8]) -> Result<(), NoMemory>
    requires { IsAscii bytes.now }
    ensures { OnOk result (string_bytes text.new ≡ string_bytes text.old ++ bytes.now) }
{
    // ASCII is UTF-8, which the checker proves of the clause above. `from_utf8` would look at each
    // byte again: 15 % of the instructions of `dis`.
    let more = unsafe { std::str::from_utf8_unchecked(bytes) };
    text.push_str(more)?;
    Ok(())
}

/// Appends the two hex digits of a byte to a text.
pub fn append_hex_byte(text: &mut String, byte: u32) -> Result<(), NoMemory>
    requires { byte < 256 }
    ensures { OnOk result (string_bytes text.new ≡ string_bytes text.old ++ hex_byte byte) }
{
    append_ascii(text, &hex_byte(byte))
}

/// Appends the eight hex digits of a word to a text.
pub fn append_hex_word(text: &mut String, word: u32) -> Result<(), NoMemory>
    ensures { OnOk result (string_bytes text.new ≡ string_bytes text.old ++ hex_word word) }
{
    append_ascii(text, &hex_word(word))
}

/// Returns the number that at most eight upper-case hex digits spell, 0 for no digit, or `None` if
/// another byte is among them.
fn upper_hex_digits_value(digits: &[u8]) -> Option<u32>
    requires { length digits.now ≤ 8 }
    ensures { result ≡ then_some (list_all is_upper_hex digits.now) (digits_value 16 digits.now) }
{
    let mut value = 0u32;
    for c in digits {
        let Some(digit) = upper_hex_digit_value(*c) else {
            return None;
        };
        value = value * 16 + digit;
    }
    Some(value)
}

/// Returns the value of an upper-case hex digit, or `None` for any other byte.
fn upper_hex_digit_value(c: u8) -> Option<u32>
    ensures { result ≡ then_some (is_upper_hex c) (digit_value c) }
{
    match char::from(c).to_digit(16) {
        Some(digit) if c < b'a' => Some(digit),
        _ => None,
    }
}

// Returns the ASCII code of the hex digit with value `n`, in upper case.
#[tactic(auto, unfolding(crate::specs::HexNumbers::hex_digit))]
fn hex_digit(n: u32) -> u8
    requires { n < 16 }
    ensures { result ≡ hex_digit n }
{
    if n < 10 { 48 + n as u8 } else { 55 + n as u8 }
}
