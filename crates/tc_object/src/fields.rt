// Readers of single fields of an object file.
ghost use Rattle.std.specs.Prelude.{◌≡◌, ◌&&◌, nat_le};
ghost use Rattle.tcd_base.specs.FieldReaders.{ReadsField};
ghost use Rattle.tc_object.specs.Grammar.{magic_at, kind_at};

use tcd_base::{BAD_MAGIC, BAD_VALUE, FileCursor, FormErr, form_err_at, read_u8, read_u32};

/// The magic bytes 54 43 4F 31 ("TCO1") as a little-endian word.
pub(crate) const MAGIC: u32 = 0x314f_4354;

/// The most sections of an object.
pub(crate) const MOST_SECTIONS: u16 = 64;

/// Reads the magic bytes 54 43 4F 31 ("TCO1") with which an object file begins, as a word. Other
/// bytes are the fault `BAD_MAGIC`.
#[tactic(auto, unfolding(crate::specs::Grammar::magic_at))]
pub(crate) fn read_magic(c: &mut FileCursor<'_>) -> Result<u32, FormErr>
    ensures { ReadsField result c.old c.new magic_at }
{
    let start = c.place();
    let magic = read_u32(c)?;
    if magic != MAGIC {
        return Err(form_err_at(BAD_MAGIC, start));
    }
    Ok(magic)
}

/// Whether the kind of a symbol or of a relocation is in `low..=high`.
pub(crate) fn is_kind_between(low: u8, high: u8, kind: u8) -> bool
    ensures { result ≡ (nat_le low kind && nat_le kind high) }
{
    low <= kind && kind <= high
}

/// Reads the kind of a symbol or of a relocation. A kind outside of `low..=high` is the fault
/// `BAD_VALUE`.
#[tactic(auto, unfolding(crate::specs::Grammar::kind_at))]
pub(crate) fn read_kind(c: &mut FileCursor<'_>, low: u8, high: u8) -> Result<u8, FormErr>
    ensures { ReadsField result c.old c.new (kind_at low high) }
{
    let start = c.place();
    let kind = read_u8(c)?;
    if is_kind_between(low, high, kind) {
        Ok(kind)
    } else {
        Err(form_err_at(BAD_VALUE, start))
    }
}
