// Reads the fields of points.
ghost use Rattle.std.specs.Prelude.{◌≡◌, ◌≤◌, true, Ok, Err, IfOk, IfErr};
ghost use Rattle.tcd_base.specs.FieldReaders.{ReadsField};
ghost use Rattle.depth_cert.specs.Grammar.{flags_at, locals_at, address_after, is_above_last};

use crate::value_reader::read_flag;
use arrayvec::ArrayVec;
use tcd_base::{ABOVE_LIMIT, BAD_ORDER, FileCursor, FormErr, form_err_at, read_u8, read_u32};

/// Reads the flags of a state's saved lower contexts: first their number, then a byte for each. The
/// number is at most 4 in a certificate of format (`version`) 1, and 8 in format 2.
#[tactic(auto, unfolding(crate::specs::Grammar::locals_at))]
pub fn read_locals(c: &mut FileCursor<'_>, version: u8) -> Result<ArrayVec<bool, 8>, FormErr>
    ensures ok { IfOk result (λ l. locals_at version c.old ≡ Ok (l.items, c.new)) }
    ensures err { IfErr result (λ e. locals_at version c.old ≡ Err e) }
    ensures bytes { c.new.bytes ≡ c.old.bytes }
{
    let start = c.place();
    let count = read_u8(c)?;
    let most = if version == 1 { 4 } else { 8 };
    if count > most {
        return Err(form_err_at(ABOVE_LIMIT, start));
    }
    read_flags(c, count)
}

/// Reads the address of a certificate's point, or returns the fault there. The address must be
/// above `last`, that of the point before, if there is one.
#[tactic(auto, unfolding(crate::specs::Grammar::address_after))]
#[inline]
pub fn read_address(c: &mut FileCursor<'_>, last: Option<u32>) -> Result<u32, FormErr>
    ensures read { ReadsField result c.old c.new (address_after last) }
    ensures next { IfOk result (λ addr. is_above_last last addr ≡ true) }
{
    let start = c.place();
    let addr = read_u32(c)?;
    if !is_above_last_address(last, addr) {
        return Err(form_err_at(BAD_ORDER, start));
    }
    Ok(addr)
}

/// Reads `count` flags of a certificate's state, a byte each: one for each saved lower context.
#[tactic(auto, unfolding(tcd_base::specs::FieldReaders::many_fields_at))]
fn read_flags(c: &mut FileCursor<'_>, count: u8) -> Result<ArrayVec<bool, 8>, FormErr>
    requires few { count ≤ 8 }
    ensures ok { IfOk result (λ l. flags_at count c.old ≡ Ok (l.items, c.new)) }
    ensures err { IfErr result (λ e. flags_at count c.old ≡ Err e) }
    ensures bytes { c.new.bytes ≡ c.old.bytes }
{
    let mut flags = ArrayVec::new();
    for _i in 0..count {
        let flag = read_flag(c)?;
        flags.push(flag);
    }
    Ok(flags)
}

/// Returns true if the address of a certificate's point is above `last`, that of the point before,
/// or if there is no point before.
fn is_above_last_address(last: Option<u32>, addr: u32) -> bool
    ensures { result ≡ is_above_last last addr }
{
    match last {
        None => true,
        Some(last) => last < addr,
    }
}

/// The greatest number of points in a certificate.
pub(crate) const MOST_POINTS: u64 = 65536;
