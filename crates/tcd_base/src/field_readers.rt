// Readers of fields, from left to right. A field that is cut off is `SHORT` at its first byte.
ghost use Rattle.std.specs.Prelude.{◌≡◌, MatchResult};
ghost use Rattle.tcd_base.specs.FieldReaders.{ReadsField, u8_at, u16_at, u32_at, field_bytes_at};

use crate::errors::{SHORT, form_err_at};
use crate::{FileCursor, FormErr};

/// Reads a field of one byte at the cursor of a file; the fault is `SHORT` if the file ends before.
#[tactic(auto, unfolding(crate::specs::FieldReaders::u8_at))]
pub fn read_u8(c: &mut FileCursor<'_>) -> Result<u8, FormErr>
    ensures { ReadsField result c.old c.new u8_at }
{
    let at = c.place();
    match c.cursor.take_u8() {
        Some(byte) => Ok(byte),
        None => Err(form_err_at(SHORT, at)),
    }
}

/// Reads a little-endian field of two bytes at the cursor of a file; the fault is `SHORT` if the
/// file ends before.
#[tactic(auto, unfolding(crate::specs::FieldReaders::u16_at))]
pub fn read_u16(c: &mut FileCursor<'_>) -> Result<u16, FormErr>
    ensures { ReadsField result c.old c.new u16_at }
{
    let at = c.place();
    match c.cursor.take_u16() {
        Some(half) => Ok(half),
        None => Err(form_err_at(SHORT, at)),
    }
}

/// Reads a little-endian field of four bytes at the cursor of a file; the fault is `SHORT` if the
/// file ends before.
#[tactic(auto, unfolding(crate::specs::FieldReaders::u32_at))]
pub fn read_u32(c: &mut FileCursor<'_>) -> Result<u32, FormErr>
    ensures { ReadsField result c.old c.new u32_at }
{
    let at = c.place();
    match c.cursor.take_u32() {
        Some(word) => Ok(word),
        None => Err(form_err_at(SHORT, at)),
    }
}

/// Reads a field of `n` bytes at the cursor of a file; the fault is `SHORT` if the file ends
/// before.
#[tactic(auto, unfolding(crate::specs::FieldReaders::field_bytes_at))]
pub fn read_bytes<'a>(c: &mut FileCursor<'a>, n: usize) -> Result<&'a [u8], FormErr>
    ensures read { MatchResult result (λ r. field_bytes_at n c.old ≡ Ok (r.now, c.new))
        (λ e. field_bytes_at n c.old ≡ Err e) }
    ensures bytes { c.new.bytes ≡ c.old.bytes }
{
    let at = c.place();
    match c.cursor.take(n) {
        Some(part) => Ok(part),
        None => Err(form_err_at(SHORT, at)),
    }
}
