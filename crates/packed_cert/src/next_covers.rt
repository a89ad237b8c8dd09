// Fast path: does the state of the next point cover the one at hand, changed?
// A point keeps the row of values outside which its state is that of the point before. So only what
// is put, and the values of that row, are compared, and not all 27.
ghost use Rattle.std.specs.Prelude.{◌≡◌, ◌<◌, ◌-◌, ℕ, IsTrue, Some, false};
ghost use Rattle.value_domain.specs.State.{AreWellFormed, Covers};
ghost use Rattle.vd_transfer.specs.Changes.{state_after};
ghost use Rattle.vd_transfer.specs.declared.change.Base.TheVariants.{Same};
ghost use Rattle.packed_cert.specs.PointsInBytes.{state_in_bytes, StateBeginsAt};
ghost use Rattle.packed_cert.specs.Moves.{DiffersOnlyInRow};
ghost use Rattle.packed_cert.specs.ToCover.{IsChangedValueBelow};
ghost use Rattle.packed_cert.specs.ChangedRows.{AreBelowInRow, IsOutsideRow};

use crate::places::{PointPlace, VALUES, ValueRow};
use crate::states::StateAt;
use crate::value_reader::value_length_by_tag;
use crate::values_at_places::is_below_value_at;
use std::marker::Model;
use value_domain::{State, Val, flags_imply, leq};
use vd_transfer::{Change, changed_value};

/// Returns true only if each value that the change `c` writes is below the value that `s` had in
/// the same register slot. Slots in the range `row` aren't compared.
pub(crate) fn are_changed_values_below(s: &State, c: &Change, row: ValueRow) -> bool
    requires base { c.now.base ≡ Same }
    requires hand { AreWellFormed s.now.regs }
    requires well { AreWellFormed (state_after s.now c.now).regs }
    ensures { IsTrue result → (i : ℕ) → i < 27 → IsOutsideRow row i
        → IsChangedValueBelow s.now c.now i }
{
    let _regs = &s.regs[..];
    if !is_changed_value_below(s, c, row, c.first.at) {
        return false;
    }
    if !is_changed_value_below(s, c, row, c.second.at) {
        return false;
    }
    is_changed_value_below(s, c, row, c.third.at)
}

/// Returns true only if each value of `s` after the change `c` in the slots of `point.row` is below
/// that of `point`'s state. In other slots that state has the values of `s`.
pub(crate) fn is_changed_row_below(
    s: &State,
    c: &Change,
    bytes: &[u8],
    version: u8,
    point: PointPlace,
) -> bool
    requires well { AreWellFormed (state_after s.now c.now).regs }
    requires moved { DiffersOnlyInRow version bytes.now s.now point }
    ensures { IsTrue result → AreBelowInRow point.row (state_after s.now c.now).regs
        (state_in_bytes version bytes.now point.place).regs }
{
    let _regs = &s.regs[..];
    let any = Val::any();
    let mut at = point.row.from as usize;
    for i in point.row.first as usize..point.row.behind as usize {
        let tag = bytes[at];
        // All words: each value is below it.
        if tag != 0 && !is_below_value_at(changed_value(s, c, &any, i), bytes, version, at) {
            return false;
        }
        at += value_length_by_tag(tag);
    }
    true
}

/// Returns true only if the next point's state, in format `version`, covers `s` after the change
/// `c`. Only values that `c` writes, or that may differ at that point, are compared.
pub(crate) fn is_covered_by_next_point(
    s: &State,
    c: &Change,
    bytes: &[u8],
    version: u8,
    point: PointPlace,
) -> bool
    requires base { c.now.base ≡ Same }
    requires hand { AreWellFormed s.now.regs }
    requires well { AreWellFormed (state_after s.now c.now).regs }
    requires state { StateBeginsAt version bytes.now point.place }
    requires moved { DiffersOnlyInRow version bytes.now s.now point }
    ensures { IsTrue result
        → Covers (state_in_bytes version bytes.now point.place) (state_after s.now c.now) }
{
    let _regs = &s.regs[..];
    let upper = StateAt::new(bytes, version, point.place as usize);
    if !upper.covers_context(c.ie, c.ccpn, c.lower) {
        return false;
    }
    if !flags_imply(upper.locals().as_slice(), c.locals.as_slice()) {
        return false;
    }
    are_changed_values_below(s, c, point.row) && is_changed_row_below(s, c, bytes, version, point)
}

/// Returns true only if the value of `s` in slot `place` after the change `c` is below the
/// unchanged one. Without a slot, or for one in `row`, the answer is true, and nothing is compared.
fn is_changed_value_below(s: &State, c: &Change, row: ValueRow, place: Option<usize>) -> bool
    requires hand { AreWellFormed s.now.regs }
    requires well { AreWellFormed (state_after s.now c.now).regs }
    ensures { IsTrue result → (i : ℕ) → place ≡ Some i → i < 27 → IsOutsideRow row i
        → IsChangedValueBelow s.now c.now i }
{
    let Some(i) = place else {
        return true;
    };
    if i >= VALUES || row.first as usize <= i && i < row.behind as usize {
        return true;
    }
    let regs = &s.regs[..];
    let any = Val::any();
    let low = changed_value(s, c, &any, i);
    let high = &regs[i];
    // To see that two sets are equal takes less than to see that one is below the other.
    if let Val::Set(own) = low {
        if let Val::Set(words) = high {
            if own.as_slice() == words.as_slice() {
                return true;
            }
        }
    }
    leq(low, high)
}
