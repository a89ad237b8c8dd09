// Reads the head of a certificate, and its nodes.
ghost use Rattle.std.specs.Prelude.{◌≡◌, ◌⊎◌, Ok, Err, IfOk};
ghost use Rattle.tcd_base.specs.FieldReaders.{ReadsField};
ghost use Rattle.depth_cert.specs.Grammar.{magic_at, version_at, node_count_at};

use tcd_base::{ABOVE_LIMIT, BAD_MAGIC, FileCursor, FormErr, form_err_at, read_u16, read_u32};

/// The magic bytes 54 43 44 43, as a little-endian word.
pub(crate) const MAGIC: u32 = 0x4344_4354;

/// The greatest number of nodes.
const MOST_NODES: u16 = 2048;

/// Reads the magic bytes 54 43 44 43 at the start of a certificate, or returns the fault there.
#[tactic(auto, unfolding(crate::specs::Grammar::magic_at))]
pub fn read_magic(c: &mut FileCursor<'_>) -> Result<u32, FormErr>
    ensures { ReadsField result c.old c.new magic_at }
{
    let start = c.place();
    let magic = read_u32(c)?;
    if magic != MAGIC {
        return Err(form_err_at(BAD_MAGIC, start));
    }
    Ok(magic)
}

/// Reads the format (version) of a certificate, 1 or 2, or returns the fault there.
#[tactic(auto, unfolding(crate::specs::Grammar::version_at))]
pub fn read_version(c: &mut FileCursor<'_>) -> Result<u8, FormErr>
    ensures read { ReadsField result c.old c.new version_at }
    ensures known { IfOk result (λ v. (v ≡ 1) ⊎ (v ≡ 2)) }
{
    let start = c.place();
    let version = read_u16(c)?;
    if version == 1 || version == 2 {
        Ok(version as u8)
    } else {
        Err(form_err_at(BAD_MAGIC, start))
    }
}

/// Reads the number of a certificate's nodes, at most 2,048, or returns the fault there.
#[tactic(auto, unfolding(crate::specs::Grammar::node_count_at))]
pub fn read_node_count(c: &mut FileCursor<'_>) -> Result<u16, FormErr>
    ensures { ReadsField result c.old c.new node_count_at }
{
    let start = c.place();
    let count = read_u16(c)?;
    if count > MOST_NODES {
        return Err(form_err_at(ABOVE_LIMIT, start));
    }
    Ok(count)
}
