// The least needs.
ghost use Rattle.std.specs.Prelude.{Ok, IfOk, IfSome, IsTrue, Some, ℕ, ◌+◌, ◌<◌, ◌≤◌, ◌^◌, Contains, length, slice_index, MatchOption, EachIndex};
ghost use Rattle.frame_places.specs.RowNeeds.{AreRowsWithin, AreLowerBounds, MeetsRowUpToCap, RaisesNeedByRow, RaisesNeedsByRows, IsLeastNeedsResult};
ghost use Rattle.frame_places.specs.declared.needs.row.NeedRow.{NeedRow};

use crate::needs::row::{NeedRow, need_by_row};
use std::alloc::{AllocError, Global};

/// Makes one pass over the rows, last to first: raises each frame's need of areas to what the rows
/// demand, at most `cap + 1`. Returns whether any need changed.
fn raise_needs_by_rows(needs: &mut [u32], rows: &[NeedRow], cap: u32) -> bool
    requires cap { cap < 2 ^ 16 }
    requires nodes { length needs.old < 2 ^ 16 }
    requires within { AreRowsWithin rows.now (length needs.old) }
    requires capped { (k : ℕ) → slice_index needs.old k ≤ cap + 1 }
    ensures pass { RaisesNeedsByRows cap needs.old needs.new rows.now result }
{
    let mut changed = false;
    for i in (0..rows.len()).rev() {
        if raise_need_by_row(needs, &rows[i], cap) {
            changed = true;
        }
    }
    changed
}

/// Raises the needs of frames, pass by pass over the rows, until no need changes. A need above the
/// cap stays at `cap + 1`.
fn raise_needs_until_met(needs: &mut [u32], rows: &[NeedRow], cap: u32)
    requires cap { cap < 2 ^ 16 }
    requires nodes { length needs.old < 2 ^ 16 }
    requires within { AreRowsWithin rows.now (length needs.old) }
    requires capped { (k : ℕ) → slice_index needs.old k ≤ cap + 1 }
    requires low { AreLowerBounds needs.old rows.now }
    ensures low { AreLowerBounds needs.new rows.now }
    ensures met { (row : NeedRow) → Contains rows.now row → MeetsRowUpToCap cap needs.new row }
{
    while raise_needs_by_rows(needs, rows, cap) {}
}

/// Raises `needs[row.node]`, the areas that a frame needs, to what one of its points demands by
/// `row`, at most `cap + 1`. Returns whether the need changed.
fn raise_need_by_row(needs: &mut [u32], row: &NeedRow, cap: u32) -> bool
    requires cap { cap < 2 ^ 16 }
    requires nodes { length needs.old < 2 ^ 16 }
    requires node { row.now.node < length needs.old }
    requires into { (t : ℕ) → Contains row.now.into.items t → t < length needs.old }
    requires held { row.now.held < 2 ^ 8 }
    requires capped { (k : ℕ) → slice_index needs.old k ≤ cap + 1 }
    ensures pass { RaisesNeedByRow cap needs.old needs.new row.now result }
{
    let need = need_by_row(needs, row, cap);
    if needs[row.node] < need {
        needs[row.node] = need;
        return true;
    }
    false
}

/// The number of passes that is mostly enough: one or two for frames that were found before those
/// that they enter.
const FEW: u32 = 4;

/// Returns the least needs of `nodes` frames in areas, by frame number, that meet the demands of
/// all rows. `None` if one of them would be above the cap.
pub fn least_needs(
    alloc: Global,
    nodes: usize,
    rows: &[NeedRow],
    cap: u32,
) -> Result<Option<Vec<u32>>, AllocError>
    requires cap { cap < 2 ^ 16 }
    requires nodes { nodes < 2 ^ 16 }
    requires within { AreRowsWithin rows.now nodes }
    ensures { IsLeastNeedsResult nodes rows.now cap result }
{
    let mut needs = vec![in alloc; 0u32; nodes]?;
    raise_needs_until_met(&mut needs, rows, cap);
    match first_frame_above_cap(&needs, cap) {
        None => Ok(Some(needs)),
        Some(_) => Ok(None),
    }
}

/// Returns the least needs of `nodes` frames, by their numbers, if four passes over the rows find
/// them within the cap. Otherwise `None`, as mostly with a recursive frame.
pub fn needs_in_few_passes(
    alloc: Global,
    nodes: usize,
    rows: &[NeedRow],
    cap: u32,
) -> Result<Option<Vec<u32>>, AllocError>
    requires cap { cap < 2 ^ 16 }
    requires nodes { nodes < 2 ^ 16 }
    requires within { AreRowsWithin rows.now nodes }
    ensures { IfOk result (λ o. IfSome o
        (λ needs. IsLeastNeedsResult nodes rows.now cap (Ok (Some needs)))) }
{
    let mut needs = vec![in alloc; 0u32; nodes]?;
    if !raise_needs_in_few_passes(&mut needs, rows, cap) {
        return Ok(None);
    }
    match first_frame_above_cap(&needs, cap) {
        None => Ok(Some(needs)),
        Some(_) => Ok(None),
    }
}

/// Returns the number of the first frame whose need is above the cap, or `None` if all needs are
/// within the cap.
fn first_frame_above_cap(needs: &[u32], cap: u32) -> Option<usize>
    ensures { MatchOption result
        (EachIndex needs.now (λ k. slice_index needs.now k ≤ cap))
        (λ k. (k < length needs.now) × (cap < slice_index needs.now k)) }
{
    needs.iter().position(|need| *need > cap)
}

/// Raises the needs of frames by up to four passes over the rows. Returns true if the last pass
/// changed no need.
fn raise_needs_in_few_passes(needs: &mut [u32], rows: &[NeedRow], cap: u32) -> bool
    requires cap { cap < 2 ^ 16 }
    requires nodes { length needs.old < 2 ^ 16 }
    requires within { AreRowsWithin rows.now (length needs.old) }
    requires capped { (k : ℕ) → slice_index needs.old k ≤ cap + 1 }
    requires low { AreLowerBounds needs.old rows.now }
    ensures low { AreLowerBounds needs.new rows.now }
    ensures met { IsTrue result → (row : NeedRow) → Contains rows.now row
        → MeetsRowUpToCap cap needs.new row }
{
    for _done in 0..FEW {
        if !raise_needs_by_rows(needs, rows, cap) {
            return true;
        }
    }
    false
}
