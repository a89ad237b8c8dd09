// Appends a line for each instruction or piece of data of a segment.
ghost use Rattle.std.specs.Prelude.{◌≡◌, ◌<◌, ◌≤◌, ◌+◌, ◌^◌, ◌++◌, OnOk, IfOk, string_bytes, length, min, drop};
ghost use Rattle.std.specs.List.{flat_map};
ghost use Rattle.tcd_text.specs.HexNumbers.{hex_byte};
ghost use Rattle.tc_disasm.specs.Listing.{two_byte_comment, four_byte_comment, instruction_or_data_text, instruction_or_data_size, listing_comment, listing_line_at, listing_lines};
ghost use Rattle.tc_disasm.specs.Texts.{data_text};

use crate::instructions::append_instruction;
use crate::texts::append_comment_start;
use tc_encode::decode;
use tcd_base::NoMemory;
use tcd_text::{append_ascii, append_hex_byte, append_str, hex_byte, hex_word};

/// Appends the lines of a listing for these bytes, which begin at an address: one for each
/// instruction or piece of data. The time is linear in the number of bytes.
pub(crate) fn append_listing(text: &mut String, address: u32, bytes: &[u8]) -> Result<(), NoMemory>
    requires { address + length bytes.now ≤ 2 ^ 32 }
    ensures { OnOk result
        (string_bytes text.new ≡ string_bytes text.old ++ listing_lines address bytes.now) }
{
    let mut at = 0;
    'lines: while at < bytes.len() {
        let size = append_line_at(text, address, bytes, at)?;
        at += size;
    }
    Ok(())
}

// Appends the line of the instruction or data at the offset `at` of these bytes, which begin at an
// address. Returns the size of the instruction or data in bytes.
fn append_line_at(
    text: &mut String,
    address: u32,
    bytes: &[u8],
    at: usize,
) -> Result<usize, NoMemory>
    requires within { at < length bytes.now }
    requires fits { address + length bytes.now ≤ 2 ^ 32 }
    ensures text { OnOk result
        (string_bytes text.new
        ≡ string_bytes text.old ++ listing_line_at (address + at) (drop at bytes.now)) }
    ensures size { IfOk result (λ n. n ≡ instruction_or_data_size (drop at bytes.now)) }
    ensures some { IfOk result (λ n. 0 < n) }
    ensures within { IfOk result (λ n. at + n ≤ length bytes.now) }
{
    append_first_line(text, address + at as u32, &bytes[at..])
}

// Appends the line of the instruction or data that these bytes begin with, at an address. Returns
// the size of the instruction or data in bytes.
#[tactic(auto, unfolding(crate::specs::Listing::listing_line_at))]
fn append_first_line(text: &mut String, address: u32, bytes: &[u8]) -> Result<usize, NoMemory>
    requires { 0 < length bytes.now }
    ensures text { OnOk result
        (string_bytes text.new ≡ string_bytes text.old ++ listing_line_at address bytes.now) }
    ensures size { IfOk result (λ n. n ≡ instruction_or_data_size bytes.now) }
    ensures some { IfOk result (λ n. 0 < n) }
    ensures within { IfOk result (λ n. n ≤ length bytes.now) }
{
    let size = append_instruction_or_data(text, bytes)?;
    append_comment(text, address, &bytes[..size])?;
    Ok(size)
}

// Appends the text of the first instruction of these bytes, or of data if none begins there, to a
// listing. Returns the size in bytes.
#[tactic(auto, unfolding(crate::specs::Listing::instruction_or_data_text, crate::specs::Listing::instruction_or_data_size))]
fn append_instruction_or_data(text: &mut String, bytes: &[u8]) -> Result<usize, NoMemory>
    requires { 0 < length bytes.now }
    ensures text { OnOk result
        (string_bytes text.new ≡ string_bytes text.old ++ instruction_or_data_text bytes.now) }
    ensures size { IfOk result (λ n. n ≡ instruction_or_data_size bytes.now) }
    ensures some { IfOk result (λ n. 0 < n) }
    ensures within { IfOk result (λ n. n ≤ length bytes.now) }
{
    match decode(bytes) {
        Ok((inst, size)) => {
            append_instruction(text, &inst)?;
            Ok(size)
        }
        Err(_) => {
            append_data(text, bytes)?;
            Ok(bytes.len().min(2))
        }
    }
}

/// Appends the comment that ends a listing's line: an address, bytes in hex, and a line feed.
#[tactic(auto, unfolding(crate::specs::Listing::listing_comment))]
fn append_comment(text: &mut String, address: u32, bytes: &[u8]) -> Result<(), NoMemory>
    ensures { OnOk result
        (string_bytes text.new ≡ string_bytes text.old ++ listing_comment address bytes.now) }
{
    match bytes {
        [a, b] => append_two_byte_comment(text, address, *a, *b),
        [a, b, c, d] => append_four_byte_comment(text, address, *a, *b, *c, *d),
        _ => append_long_comment(text, address, bytes),
    }
}

/// Appends the first one or two bytes to a listing as data, `.byte` or `.half`.
fn append_data(text: &mut String, bytes: &[u8]) -> Result<(), NoMemory>
    ensures { OnOk result (string_bytes text.new ≡ string_bytes text.old ++ data_text bytes.now) }
{
    match bytes {
        [] => Ok(()),
        [last] => {
            append_str(text, ".byte 0x")?;
            append_hex_byte(text, u32::from(*last))
        }
        [low, high, ..] => {
            append_str(text, ".half 0x")?;
            append_hex_byte(text, u32::from(*high))?;
            append_hex_byte(text, u32::from(*low))
        }
    }
}

/// Appends the comment of a line with two bytes: an address, the bytes a and b, a line feed.
fn append_two_byte_comment(text: &mut String, address: u32, a: u8, b: u8) -> Result<(), NoMemory>
    ensures { OnOk result
        (string_bytes text.new ≡ string_bytes text.old ++ two_byte_comment address a b) }
{
    let w = hex_word(address);
    let first = hex_byte(u32::from(a));
    let second = hex_byte(u32::from(b));
    let line = [
        b' ', b'#', b' ', w[0], w[1], w[2], w[3], w[4], w[5], w[6], w[7], b' ', first[0], first[1],
        second[0], second[1], b'\n',
    ];
    append_ascii(text, &line)
}

/// Appends the comment of a line with four bytes: an address, the bytes a to d, a line feed.
fn append_four_byte_comment(
    text: &mut String,
    address: u32,
    a: u8,
    b: u8,
    c: u8,
    d: u8,
) -> Result<(), NoMemory>
    ensures { OnOk result
        (string_bytes text.new ≡ string_bytes text.old ++ four_byte_comment address a b c d) }
{
    let w = hex_word(address);
    let first = hex_byte(u32::from(a));
    let second = hex_byte(u32::from(b));
    let third = hex_byte(u32::from(c));
    let fourth = hex_byte(u32::from(d));
    let line = [
        b' ', b'#', b' ', w[0], w[1], w[2], w[3], w[4], w[5], w[6], w[7], b' ', first[0], first[1],
        second[0], second[1], third[0], third[1], fourth[0], fourth[1], b'\n',
    ];
    append_ascii(text, &line)
}

/// Appends the comment of a line with any number of bytes: an address, the bytes, a line feed.
#[tactic(auto, unfolding(crate::specs::Listing::listing_comment))]
fn append_long_comment(text: &mut String, address: u32, bytes: &[u8]) -> Result<(), NoMemory>
    ensures { OnOk result
        (string_bytes text.new ≡ string_bytes text.old ++ listing_comment address bytes.now) }
{
    append_comment_start(text, address)?;
    append_hex_bytes(text, bytes)?;
    append_str(text, "\n")
}

// Appends bytes to a listing, each as two hex digits.
fn append_hex_bytes(text: &mut String, bytes: &[u8]) -> Result<(), NoMemory>
    ensures { OnOk result (string_bytes text.new
        ≡ string_bytes text.old ++ flat_map hex_byte bytes.now) }
{
    for byte in bytes {
        append_hex_byte(text, u32::from(*byte))?;
    }
    Ok(())
}
