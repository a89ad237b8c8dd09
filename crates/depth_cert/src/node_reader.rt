// Reads the fields of nodes.
ghost use Rattle.std.specs.Prelude.{◌≡◌, ◌≤◌, ◌<◌, ◌+◌, ◌^◌, Ok, Err, OnOk, IfOk, IfErr};
ghost use Rattle.tcd_base.specs.FieldReaders.{ReadsField};
ghost use Rattle.depth_cert.specs.Grammar.{is_above_last, key_after, need_at, exit_flag_at, exit_at, point_count_at};

use crate::keys::key_number_of_fields;
use crate::point_reader::MOST_POINTS;
use crate::value_reader::{read_flag, read_values};
use crate::{ALN, CALL, Exit, Key, SYS};
use std::marker::Model;
use tcd_base::{
    ABOVE_LIMIT, BAD_ORDER, BAD_VALUE, FileCursor, FormErr, form_err_at, read_u8, read_u16,
    read_u32,
};

/// Reads the key of a certificate's node, or returns the first fault. The key's number must be
/// above `last`, the number of the key before, if there is one.
#[tactic(auto, unfolding(crate::specs::Grammar::key_after))]
#[inline]
pub fn read_key(c: &mut FileCursor<'_>, last: Option<u64>) -> Result<Key, FormErr>
    ensures { ReadsField result c.old c.new (key_after last) }
{
    let start = c.place();
    let kind = read_u8(c)?;
    if kind > ALN {
        return Err(form_err_at(BAD_VALUE, start));
    }
    let entry = read_u32(c)?;
    let prio = read_u8(c)?;
    let at = c.place();
    let is = read_u8(c)?;
    if !is_above_last_key(last, key_number_of_fields(kind, entry, prio, is)) {
        return Err(form_err_at(BAD_ORDER, start));
    }
    if is > 1 {
        return Err(form_err_at(BAD_VALUE, at));
    }
    Ok(Key {
        kind,
        entry,
        prio,
        is: is == 1,
    })
}

/// Returns true if the number of a certificate's key is above `last`, the number of the key before,
/// or if there is no key before.
fn is_above_last_key(last: Option<u64>, number: u64) -> bool
    ensures { result ≡ is_above_last last number }
{
    match last {
        None => true,
        Some(last) => last < number,
    }
}

/// The greatest need of a node, in areas.
const MOST_NEED: u16 = 4096;

/// Reads a node's need, at most 4,096 context save areas, or returns the fault there.
#[tactic(auto, unfolding(crate::specs::Grammar::need_at))]
pub fn read_need(c: &mut FileCursor<'_>) -> Result<u16, FormErr>
    ensures { ReadsField result c.old c.new need_at }
{
    let start = c.place();
    let need = read_u16(c)?;
    if need > MOST_NEED {
        return Err(form_err_at(ABOVE_LIMIT, start));
    }
    Ok(need)
}

/// Reads the flag that says whether a certificate's node has an exit. A set flag is the fault
/// `BAD_VALUE` unless the node's `kind` is `CALL` or `SYS`.
#[tactic(auto, unfolding(crate::specs::Grammar::exit_flag_at))]
pub fn read_exit_flag(c: &mut FileCursor<'_>, kind: u8) -> Result<bool, FormErr>
    ensures { ReadsField result c.old c.new (exit_flag_at kind) }
{
    let start = c.place();
    let exit = read_flag(c)?;
    if exit && !(kind == CALL || kind == SYS) {
        return Err(form_err_at(BAD_VALUE, start));
    }
    Ok(exit)
}

/// Overwrites `out` with the exit at the cursor, in a certificate of format `version`: IE, CCPN,
/// and the values of the 14 lower registers.
#[tactic(auto, unfolding(crate::specs::Grammar::exit_at))]
pub fn read_exit(c: &mut FileCursor<'_>, version: u8, out: &mut Exit) -> Result<(), FormErr>
    ensures ok { OnOk result (exit_at version c.old ≡ Ok (out.new, c.new)) }
    ensures err { IfErr result (λ e. exit_at version c.old ≡ Err e) }
    ensures bytes { c.new.bytes ≡ c.old.bytes }
{
    out.ie = read_flag(c)?;
    out.ccpn = read_u8(c)?;
    read_values(c, version, &mut out.lower)?;
    Ok(())
}

/// Reads the number of points of a certificate's node, or returns the fault there. Together with
/// the `used` points of the nodes before there may be at most 65,536.
#[tactic(auto, unfolding(crate::specs::Grammar::point_count_at))]
pub fn read_point_count(c: &mut FileCursor<'_>, used: usize) -> Result<u32, FormErr>
    requires used { used ≤ 2 ^ 16 }
    ensures read { ReadsField result c.old c.new (point_count_at used) }
    ensures few { IfOk result (λ n. used + n ≤ 2 ^ 16) }
{
    let start = c.place();
    let count = read_u32(c)?;
    if used as u64 + u64::from(count) > MOST_POINTS {
        return Err(form_err_at(ABOVE_LIMIT, start));
    }
    Ok(count)
}
