// Names of sections and symbols: which bytes are one, and readers of them.
ghost use Rattle.std.specs.Prelude.{◌≡◌, true, Err, MatchResult};
ghost use Rattle.tcd_base.specs.FieldReaders.{ReadsField};
ghost use Rattle.std.specs.Option.{option_copied};
ghost use Rattle.tc_object.specs.Names.{is_object_name, object_name_of};
ghost use Rattle.tc_object.specs.Grammar.{name_length_at, name_bytes_at};

use tcd_base::{
    BAD_VALUE, FileCursor, FormErr, are_name_bytes, form_err_at, is_name_start, read_bytes, read_u8,
};

/// Returns the bytes as the name of a section or symbol: 1 to 64 letters, digits, `_`, `.` and `$`,
/// no digit first. None for other bytes.
pub fn object_name_of(bytes: &[u8]) -> Option<&str>
    ensures { option_copied result ≡ object_name_of bytes.now }
{
    if 1 <= bytes.len() && bytes.len() <= 64 && is_object_name(bytes) {
        Some(object_name_text(bytes))
    } else {
        None
    }
}

/// Reads the length of a name in bytes. A length outside of 1 to 64 is the fault `BAD_VALUE`.
#[tactic(auto, unfolding(crate::specs::Grammar::name_length_at))]
pub(crate) fn read_name_length(c: &mut FileCursor<'_>) -> Result<u8, FormErr>
    ensures { ReadsField result c.old c.new name_length_at }
{
    let start = c.place();
    let count = read_u8(c)?;
    if 1 <= count && count <= 64 {
        Ok(count)
    } else {
        Err(form_err_at(BAD_VALUE, start))
    }
}

/// Reads the `count` bytes of a name of an object file. Bytes that are no name are the fault
/// `BAD_VALUE`.
#[tactic(auto, unfolding(crate::specs::Grammar::name_bytes_at))]
pub(crate) fn read_name_bytes<'a>(c: &mut FileCursor<'a>, count: u8) -> Result<&'a str, FormErr>
    ensures read { MatchResult result (λ name. name_bytes_at count c.old ≡ Ok (name.now, c.new))
        (λ e. name_bytes_at count c.old ≡ Err e) }
    ensures bytes { c.new.bytes ≡ c.old.bytes }
{
    let start = c.place();
    let bytes = read_bytes(c, count as usize)?;
    if !is_object_name(bytes) {
        return Err(form_err_at(BAD_VALUE, start));
    }
    Ok(object_name_text(bytes))
}

/// Returns true if the bytes spell the name of a section or symbol. The limit of 64 bytes isn't
/// checked.
fn is_object_name(bytes: &[u8]) -> bool
    ensures { result ≡ is_object_name bytes.now }
{
    !bytes.is_empty() && is_name_start(bytes[0]) && are_name_bytes(bytes)
}

// Returns the bytes of a valid name as a string. They are ASCII, so the conversion can't fail.
fn object_name_text(bytes: &[u8]) -> &str
    requires { is_object_name bytes.now ≡ true }
    ensures { result.now ≡ bytes.now }
{
    std::str::from_utf8(bytes).unwrap()
}
