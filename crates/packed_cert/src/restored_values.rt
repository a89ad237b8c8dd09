// Does a state in the bytes cover the one after a return?
// That state has the lower registers' values of the exit, which stay in the bytes too.
ghost use Rattle.std.specs.Prelude.{◌≡◌, ◌<◌, ◌↔◌, if◌then◌else◌, IsTrue, slice_index_or};
ghost use Rattle.value_domain.specs.Values.{any_val, IsBelow};
ghost use Rattle.value_domain.specs.State.{AreWellFormed, AreBelow, is_lower_slot};
ghost use Rattle.depth_cert.specs.Exits.{values_after_return};
ghost use Rattle.packed_cert.specs.ValuesInBytes.{offset_after_value, decoded_value, decoded_values, PointsToValue, PointsToValues};

use crate::certs::cert_bytes_below_256;
use crate::covered_values::is_encoded_value_below;
use crate::places::VALUES;
use crate::value_reader::value_length_by_tag;
use crate::values_at_places::{is_below_value_at, value_at_offset};
use value_domain::Val;
use vd_transfer::is_lower_slot;

/// Values in the bytes, by the place of the first.
#[derive(Clone, Copy)]
pub(crate) struct ValuesAt<'a> {
    pub(crate) bytes: &'a [u8],
    pub(crate) version: u8,
    pub(crate) place: usize,
}

/// Returns true if each register's value after a return is below the one that a certificate has at
/// `high`. Lower registers get the exit's values at `lower`, others keep the caller's `regs`.
pub(crate) fn are_restored_below(regs: &[Val; 27], lower: ValuesAt<'_>, high: ValuesAt<'_>) -> bool
    requires well { AreWellFormed regs.now }
    requires low { PointsToValues lower 14 }
    requires high { PointsToValues high 27 }
    ensures { IsTrue result
        ↔ AreBelow (values_after_return (decoded_values lower.entry 14) regs.now)
        (decoded_values high.entry 27) }
{
    cert_bytes_below_256(high.bytes);
    let mut from = lower.place;
    let mut at = high.place;
    for i in 0..VALUES {
        let low = ValuesAt {
            bytes: lower.bytes,
            version: lower.version,
            place: from,
        };
        let here = ValuesAt {
            bytes: high.bytes,
            version: high.version,
            place: at,
        };
        if !is_restored_below(regs, i, low, here) {
            return false;
        }
        from = next_exit_value_offset(i, low);
        at += value_length_by_tag(high.bytes[at]);
    }
    true
}

/// Returns true if the value in register slot `i` after a return is below the one at `high` in a
/// certificate. A lower register gets the exit's value at `low`, others keep that of `regs`.
fn is_restored_below(regs: &[Val; 27], i: usize, low: ValuesAt<'_>, high: ValuesAt<'_>) -> bool
    requires place { i < 27 }
    requires well { AreWellFormed regs.now }
    requires low { IsTrue (is_lower_slot i) → PointsToValue low }
    requires high { PointsToValue high }
    ensures { IsTrue result
        ↔ IsBelow
        (if is_lower_slot i then decoded_value low.entry else slice_index_or regs.now i any_val)
        (decoded_value high.entry) }
{
    cert_bytes_below_256(low.bytes);
    cert_bytes_below_256(high.bytes);
    // All words: each value is below it.
    if high.bytes[high.place] == 0 {
        return true;
    }
    if is_lower_slot(i) {
        return is_encoded_value_below(low, high);
    }
    is_below_value_at(&regs[i], high.bytes, high.version, high.place)
}

/// Returns the byte offset of the exit's value for the next lower register. If slot `i` is a lower
/// register's, that is after the value at `low`, else at `low`.
fn next_exit_value_offset(i: usize, low: ValuesAt<'_>) -> usize
    requires { IsTrue (is_lower_slot i) → PointsToValue low }
    ensures { result
        ≡ (if is_lower_slot i then offset_after_value low.entry.bytes.now low.entry.place
        else low.entry.place) }
{
    cert_bytes_below_256(low.bytes);
    if is_lower_slot(i) {
        return low.place + value_length_by_tag(low.bytes[low.place]);
    }
    low.place
}
