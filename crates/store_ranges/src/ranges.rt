// The ranges that hold an access.
ghost use Rattle.std.specs.Prelude.{◌≡◌, ◌&&◌, find, ◌≤◌, ◌<◌, ◌-◌, ◌*◌, ◌/◌, ◌↔◌, All, IsTrue, MatchOption, ◌+◌, ◌^◌};
ghost use Rattle.tcd_base.specs.Ranges.{is_within_range};
ghost use Rattle.tcd_plan.specs.MappedAddresses.{IsStoreInRange};
ghost use Rattle.value_domain.specs.Sets.{alignment_log2};
ghost use Rattle.value_domain.specs.declared.values.Val.TheVariants.{Span};
ghost use Rattle.store_ranges.specs.Loads.{first_device_holding};
ghost use Rattle.store_ranges.specs.Accesses.{AreStoresInRange, AreStoresInRangeUntil, IsNextStoreAddress};

use tcd_base::Range;
use tcd_plan::{Device, Plan};
use value_domain::alignment_log2;

/// Returns the first of these memory ranges that holds all `n` bytes of a store at `x`, or `None`.
pub(crate) fn range_of_store(ranges: &[Range], x: u32, n: u8) -> Option<Range>
    ensures { result ≡ find (is_within_range x n) ranges.now }
{
    ranges.iter().find(|r| r.holds(x, u32::from(n))).copied()
}

/// Returns the first peripheral whose range holds an access of `n` bytes both at `low` and at
/// `high`, or `None`.
pub(crate) fn device_of_accesses(devices: &[Device], low: u32, high: u32, n: u8) -> Option<Device>
    ensures { result ≡ first_device_holding devices.now low high n }
{
    let n = u32::from(n);
    devices
        .iter()
        .find(|d| d.range.holds(low, n) && d.range.holds(high, n))
        .copied()
}

/// Returns true if each store of `size` bytes at these addresses is wholly in one ram or peripheral
/// range (rule K9 on stores).
pub(crate) fn are_stores_in_range(plan: &Plan, words: &[u32], size: u8) -> bool
    ensures { IsTrue result ↔ All (λ x. IsStoreInRange plan.now (x, size)) words.now }
{
    for x in words {
        if !is_store_in_range(plan, *x, size) {
            return false;
        }
    }
    true
}

/// Returns true if a store of `size` bytes at `x` is wholly in one ram or peripheral range (rule K9
/// on stores).
pub fn is_store_in_range(plan: &Plan, x: u32, size: u8) -> bool
    ensures { IsTrue result ↔ IsStoreInRange plan.now (x, size) }
{
    store_range_end(plan, x, size).is_some()
}

/// Returns true if each store of `size` bytes at a multiple of `2 ^ step` in `least..=last` is
/// wholly in one ram or peripheral range. Walks from range to range.
pub(crate) fn is_span_store_in_range(plan: &Plan, least: u32, last: u32, step: u8, size: u8) -> bool
    requires step { step ≤ 2 }
    requires least { step ≤ alignment_log2 least }
    ensures { IsTrue result ↔ AreStoresInRange plan.now (Span least last step) size }
{
    let mut x = u64::from(least);
    while x <= u64::from(last) {
        let Some(end) = store_range_end(plan, x as u32, size) else {
            return false;
        };
        x = next_store_address(end - u64::from(size), step);
    }
    true
}

/// Returns the least multiple of `2 ^ step` above `x`: the next address to test after the last
/// store that a range holds.
pub(crate) fn next_store_address(x: u64, step: u8) -> u64
    requires step { step ≤ 2 }
    requires small { x ≤ 2 ^ 32 }
    ensures { IsNextStoreAddress step x result }
{
    let unit = 1u64 << step;
    (x / unit + 1) * unit
}

/// Returns the end of the ram or peripheral range that holds a store of `size` bytes at `x`, or
/// `None`. Later stores up to that end are in the range too.
fn store_range_end(plan: &Plan, x: u32, size: u8) -> Option<u64>
    ensures { MatchOption result (¬ IsStoreInRange plan.now (x, size))
        (λ end. AreStoresInRangeUntil plan.now size x end) }
{
    match range_of_store(plan.ram.as_slice(), x, size) {
        Some(range) => Some(range.end()),
        None => {
            let device = device_of_accesses(plan.devices.as_slice(), x, x, size)?;
            Some(device.range.end())
        }
    }
}
