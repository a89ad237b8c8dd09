// Refusals by values: arrays that are too long, save areas, vectors, and ranges that overlap.
ghost use Rattle.std.specs.Prelude.{◌≡◌, ◌<◌, ◌≤◌, ◌+◌, IfSome, None, length, map, not, position, sum_by};
ghost use Rattle.serde_json.specs.View.{view};
ghost use Rattle.tcd_plan.specs.PlanData.{areas_range, are_ranges_disjoint, are_valid_areas, are_ranges_within_limits, has_valid_areas, has_even_vector_bases, first_oversized_array, first_overlap_from, plan_range_overlap};
ghost use Rattle.tcd_plan.specs.PlanReader.{HasShortPlanArrays, plan_range_of, unchecked_plan_of};

use crate::json_values::{json_elements_or_empty, json_nested_number, json_number_or_zero};
use crate::key_table::{DEVICES, IRQS, KeyParent, RAM, ROM};
use crate::object_forms::plan_objects_of;
use crate::plan_parts::{areas_range, push_ranges};
use crate::{PlanErr, PlanKey};
use arrayvec::ArrayVec;
use serde_json::Value;
use tcd_base::Range;

/// Returns the key of the first array of the plan's document, `value`, with too many elements, or
/// too many bytes in its ranges; or None.
#[tactic(auto, unfolding(crate::specs::PlanReader::unchecked_plan_of, crate::specs::PlanData::first_oversized_array))]
pub fn first_oversized_array(value: &Value) -> Option<PlanKey>
    ensures { result ≡ first_oversized_array (unchecked_plan_of (view value.now)) }
{
    if !are_ranges_within_limits(plan_objects_of(KeyParent::Rom, value)) {
        return Some(PlanKey(ROM));
    }
    if !are_ranges_within_limits(plan_objects_of(KeyParent::Ram, value)) {
        return Some(PlanKey(RAM));
    }
    if plan_objects_of(KeyParent::Devices, value).len() > 16 {
        return Some(PlanKey(DEVICES));
    }
    if json_elements_or_empty(value, "irqs").len() > 32 {
        return Some(PlanKey(IRQS));
    }
    None
}

/// Returns true if the plan's context save areas have a valid address, number and reserve.
#[tactic(auto, unfolding(crate::specs::PlanReader::unchecked_plan_of, crate::specs::PlanData::has_valid_areas))]
pub fn has_valid_areas(value: &Value) -> bool
    ensures { result ≡ has_valid_areas (unchecked_plan_of (view value.now)) }
{
    are_valid_areas(
        json_nested_number(value, "csa", "at"),
        json_nested_number(value, "csa", "areas"),
        json_nested_number(value, "csa", "reserve"),
    )
}

/// Returns true if BIV and BTV, the bases of the vector tables, are even in the plan's document,
/// `value`.
#[tactic(auto, unfolding(crate::specs::PlanReader::unchecked_plan_of, crate::specs::PlanData::has_even_vector_bases))]
pub fn has_even_vector_bases(value: &Value) -> bool
    ensures { result ≡ has_even_vector_bases (unchecked_plan_of (view value.now)) }
{
    json_number_or_zero(value, "biv") % 2 == 0 && json_number_or_zero(value, "btv") % 2 == 0
}

/// Returns the refusal for the first two ranges of a plan that share a byte, or None. Ranges are
/// numbered over rom, ram, peripherals and the save areas.
pub fn plan_range_overlap(value: &Value) -> Option<PlanErr>
    requires { HasShortPlanArrays (view value.now) }
    ensures { result ≡ plan_range_overlap (unchecked_plan_of (view value.now)) }
{
    let mut ranges: ArrayVec<Range, 49> = ArrayVec::new();
    push_ranges(&mut ranges, plan_objects_of(KeyParent::Rom, value));
    push_ranges(&mut ranges, plan_objects_of(KeyParent::Ram, value));
    push_ranges(&mut ranges, plan_objects_of(KeyParent::Devices, value));
    ranges.push(areas_range(value));
    first_overlap(ranges.as_slice())
}

/// Returns true if a plan's rom or ram is within its limits: there are at most 16 ranges, with at
/// most 2^22 bytes together.
fn are_ranges_within_limits(objects: &[Value]) -> bool
    ensures { result ≡ are_ranges_within_limits (map plan_range_of (map view objects.now)) }
{
    objects.len() <= 16 && total_len_of_ranges(objects) <= 1 << 22
}

/// Returns the number of bytes in all ranges that these objects of a plan's document state.
fn total_len_of_ranges(objects: &[Value]) -> u64
    requires { length objects.now ≤ 16 }
    ensures { result ≡ sum_by (λ r. r.len) (map plan_range_of (map view objects.now)) }
{
    let mut total = 0u64;
    for object in objects {
        total += u64::from(json_number_or_zero(object, "len"));
    }
    total
}

/// Returns true if a plan has 1 to 4096 context save areas, aligned to 64 bytes and in one segment
/// that links can address. At least one is in reserve.
fn are_valid_areas(at: u32, areas: u32, reserve: u32) -> bool
    ensures { result ≡ are_valid_areas at areas reserve }
{
    1 <= areas
        && areas <= 4096
        && 1 <= reserve
        && reserve <= areas
        && at % 64 == 0
        && at / 0x40_0000 % 64 == 0
        && at > 0
        && at % 0x40_0000 + 64 * areas <= 0x40_0000
}

/// Returns the refusal for the first two of a plan's ranges that share a byte, with their indices;
/// or None.
fn first_overlap(ranges: &[Range]) -> Option<PlanErr>
    requires { length ranges.now ≤ 49 }
    ensures { result ≡ first_overlap_from 0 ranges.now }
{
    for i in 0..ranges.len() {
        let range = ranges[i];
        if let Some(further) = first_overlapping_range(range, &ranges[i + 1..]) {
            return Some(PlanErr::Overlap(i as u32, (i + 1 + further) as u32));
        }
    }
    None
}

/// Returns the index of the first of the others that shares a byte with a range, or None.
fn first_overlapping_range(range: Range, others: &[Range]) -> Option<usize>
    ensures value { result ≡ position (λ other. not (are_ranges_disjoint range other)) others.now }
    ensures within { IfSome result (λ k. k < length others.now) }
{
    others
        .iter()
        .position(|other| !are_ranges_disjoint(&range, other))
}

/// Returns true if two ranges of a plan share no byte.
fn are_ranges_disjoint(range: &Range, other: &Range) -> bool
    ensures { result ≡ are_ranges_disjoint range.now other.now }
{
    range.end() <= u64::from(other.at) || other.end() <= u64::from(range.at)
}
