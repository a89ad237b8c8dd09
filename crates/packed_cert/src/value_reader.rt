// Reads values over those of the state before.
// Fast path: a value whose bytes come again isn't read. Bytes are compared for many values at once.
ghost use Rattle.std.specs.Prelude.{◌≡◌, ◌≤◌, ◌<◌, ◌+◌, ◌-◌, ℕ, List, length, Ok, Err, OnOk, IfOk, IfErr, IfSome};
ghost use Rattle.packed_cert.specs.RepeatedBytes.{AreBytesRepeated, IsRepeatedStateAt};
ghost use Rattle.packed_cert.specs.ValuesInBytes.{AreValuesInBytes, offset_after_values, value_length_by_tag};
ghost use Rattle.packed_cert.specs.ChangedRows.{ChangesOnlyRow, IsRowOfValuesAt, IsRowExtendedTo};
ghost use Rattle.depth_cert.specs.Grammar.{values_at};

use crate::places::{RepeatedState, StatePlaces, ValueRow, empty_row};
use crate::repeated_bytes::{count_repeated_before, end_of_repeated};
use depth_cert::{read_value, read_values};
use tcd_base::{FileCursor, FormErr};
use value_domain::Val;

/// The greatest number of words of a value that lists them; it is the value's first byte.
pub(crate) const MOST_WORDS: u8 = 128;

/// Fewer bytes than these are compared here, as the comparison of std takes longer to begin.
pub(crate) const FEW_BYTES: usize = 64;

/// Reads the values at the cursor into `out`, skipping bytes equal to those at `before`, where
/// `out` was read, at least up to `stop`. Returns the range of slots read.
pub(crate) fn read_changed_values(
    c: &mut FileCursor<'_>,
    bytes: &[u8],
    version: u8,
    before: StatePlaces,
    stop: usize,
    out: &mut [Val],
) -> Result<ValueRow, FormErr>
    requires same { c.old.bytes ≡ bytes.now }
    requires few { length out.old ≤ 27 }
    requires held { AreValuesInBytes version bytes.now out.old before.values before.end }
    requires start { before.values ≤ stop }
    requires first { stop ≤ length bytes.now }
    requires second { c.old.place + (stop - before.values) ≤ length bytes.now }
    requires again { AreBytesRepeated bytes.now before.values c.old.place (stop - before.values) }
    ensures ok { OnOk result (values_at version (length out.old) c.old ≡ Ok (out.new, c.new)) }
    ensures err { IfErr result (λ e. values_at version (length out.old) c.old ≡ Err e) }
    ensures row { IfOk result (ChangesOnlyRow out.old out.new) }
    ensures from { IfOk result (IsRowOfValuesAt bytes.now c.old.place) }
    ensures bytes { c.new.bytes ≡ c.old.bytes }
{
    let mut row = empty_row();
    let mut from = before.values;
    let mut place = c.place();
    let mut stop = stop;
    for i in 0..out.len() {
        if stop == before.end {
            skip_values_to(c, place + (stop - from));
            return Ok(row);
        }
        let n = value_length_by_tag(bytes[from]);
        let next = from + n;
        if next <= stop {
            place += n;
        } else {
            skip_values_to(c, place);
            read_value(c, version, &mut out[i])?;
            row = row_extended_to(row, i as u8, place as u32);
            place = c.place();
            stop = next + count_repeated_before(bytes, next, place, before.end);
        }
        from = next;
    }
    skip_values_to(c, place);
    Ok(row)
}

/// Returns how many bytes a value has in a certificate, by the first, its `tag`. The tag is 0 for
/// any word, n for a Set of n words, above 128 for a Span.
#[inline(always)]
pub(crate) fn value_length_by_tag(tag: u8) -> usize
    ensures { result ≡ value_length_by_tag tag }
{
    if tag <= MOST_WORDS {
        1 + 4 * tag as usize
    } else {
        9
    }
}

/// Moves the cursor forward to the offset `place` of a certificate. Values before are skipped.
#[inline(always)]
pub(crate) fn skip_values_to(c: &mut FileCursor<'_>, place: usize)
    requires order { c.old.place ≤ place }
    requires within { place ≤ length c.old.bytes }
    ensures { c.new ≡ record c.old { place = place } }
{
    let n = place - c.place();
    let _passed = c.take(n);
}

/// Reads the values of the state that begins at offset `start` into `out`, in format `version`.
/// Equal bytes are skipped if `before` says where `out` was read. Returns the range of slots read.
pub(crate) fn read_or_skip_values(
    c: &mut FileCursor<'_>,
    bytes: &[u8],
    version: u8,
    before: Option<RepeatedState>,
    start: usize,
    out: &mut [Val],
) -> Result<ValueRow, FormErr>
    requires same { c.old.bytes ≡ bytes.now }
    requires few { length out.old ≤ 27 }
    requires held { IfSome before (IsRepeatedStateAt version bytes.now out.old start) }
    ensures ok { OnOk result (values_at version (length out.old) c.old ≡ Ok (out.new, c.new)) }
    ensures err { IfErr result (λ e. values_at version (length out.old) c.old ≡ Err e) }
    ensures row { IfOk result (ChangesOnlyRow out.old out.new) }
    ensures from { IfOk result (IsRowOfValuesAt bytes.now c.old.place) }
    ensures bytes { c.new.bytes ≡ c.old.bytes }
{
    if let Some(state) = before {
        let stop = end_of_repeated(bytes, state, start, c.place());
        return read_changed_values(c, bytes, version, state.at, stop, out);
    }
    let count = out.len() as u8;
    let from = c.place() as u32;
    match read_values(c, version, out) {
        Ok(_) => Ok(ValueRow {
            first: 0,
            behind: count,
            from,
        }),
        Err(e) => Err(e),
    }
}

/// Returns the range of register slots read so far, extended to slot `i`, whose value begins at the
/// offset `place`.
fn row_extended_to(row: ValueRow, i: u8, place: u32) -> ValueRow
    requires order { row.first ≤ row.behind }
    requires behind { row.behind ≤ i }
    requires number { i < 27 }
    ensures read { IsRowExtendedTo row i result }
    ensures from { (bytes : List ℕ) (x : ℕ) → IsRowOfValuesAt bytes x row
        → place ≡ offset_after_values bytes x i → IsRowOfValuesAt bytes x result }
{
    if row.behind == 0 {
        return ValueRow {
            first: i,
            behind: i + 1,
            from: place,
        };
    }
    ValueRow {
        first: row.first,
        behind: i + 1,
        from: row.from,
    }
}
