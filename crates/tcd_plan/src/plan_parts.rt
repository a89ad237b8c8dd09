// Reads the parts of a plan from its document.
ghost use Rattle.std.specs.Prelude.{◌≡◌, ◌<◌, ◌≤◌, ◌+◌, ◌^◌, ◌++◌, All, length, map};
ghost use Rattle.serde_json.specs.View.{view};
ghost use Rattle.tcd_plan.specs.PlanReader.{plan_core_of, plan_device_of, plan_globals_of, plan_irq_of, plan_range_of, HasShortPlanArrays, unchecked_plan_of};
ghost use Rattle.tcd_plan.specs.JsonValues.{is_json_string, json_nested_number};
ghost use Rattle.tcd_plan.specs.PlanData.{areas_range};

use crate::Device;
use crate::json_values::{is_json_string, json_nested_number, json_number_of, json_number_or_zero};
use arrayvec::ArrayVec;
use serde_json::Value;
use tcd_base::{Core, Range};

/// Reads a range of a plan from an object of its document: `at` and `len`.
pub fn plan_range_of(object: &Value) -> Range
    ensures { result ≡ plan_range_of (view object.now) }
{
    Range {
        at: json_number_or_zero(object, "at"),
        len: json_number_or_zero(object, "len"),
    }
}

/// Appends the ranges of a plan that these objects of its document state.
pub fn push_ranges<const N: usize>(ranges: &mut ArrayVec<Range, N>, objects: &[Value])
    requires { length ranges.old.items + length objects.now ≤ N }
    ensures { ranges.new.items ≡ ranges.old.items ++ map plan_range_of (map view objects.now) }
{
    for object in objects {
        ranges.push(plan_range_of(object));
    }
}

/// Reads the ranges of a plan's rom or ram from the objects of its document.
pub fn plan_ranges_of(objects: &[Value]) -> ArrayVec<Range, 16>
    requires { length objects.now ≤ 16 }
    ensures { result.items ≡ map plan_range_of (map view objects.now) }
{
    let mut ranges = ArrayVec::new();
    push_ranges(&mut ranges, objects);
    ranges
}

/// Reads the peripherals of a plan from the objects of its document.
pub fn plan_devices_of(objects: &[Value]) -> ArrayVec<Device, 16>
    requires { length objects.now ≤ 16 }
    ensures { result.items ≡ map plan_device_of (map view objects.now) }
{
    let mut devices = ArrayVec::new();
    for object in objects {
        devices.push(plan_device_of(object));
    }
    devices
}

/// Reads the priorities of a plan's interrupts from `places`, the elements of the array `irqs` in
/// its document.
pub fn plan_irqs_of(places: &[Value]) -> ArrayVec<u8, 32>
    requires few { length places.now ≤ 32 }
    requires bytes { All (λ q. plan_irq_of q < 2 ^ 8) (map view places.now) }
    ensures { result.items ≡ map plan_irq_of (map view places.now) }
{
    let mut irqs = ArrayVec::new();
    for place in places {
        irqs.push(json_number_of(place).unwrap_or(0) as u8);
    }
    irqs
}

/// Reads the version of the core from a plan's document, `value`; `V13` if the key is absent.
pub fn plan_core_of(value: &Value) -> Core
    ensures { result ≡ plan_core_of (view value.now) }
{
    match value.get("core") {
        Some(core) if is_json_string(core, "1.6") => Core::V16,
        _ => Core::V13,
    }
}

/// Reads the words of A0, A1, A8 and A9 at the start from a plan's document, `value`.
pub fn plan_globals_of(value: &Value) -> [u32; 4]
    ensures { result ≡ plan_globals_of (view value.now) }
{
    [
        json_nested_number(value, "globals", "a0"),
        json_nested_number(value, "globals", "a1"),
        json_nested_number(value, "globals", "a8"),
        json_nested_number(value, "globals", "a9"),
    ]
}

/// Reads the range of the save areas, of 64 bytes each, from a plan's document.
#[tactic(auto, unfolding(crate::specs::PlanReader::unchecked_plan_of))]
pub(crate) fn areas_range(value: &Value) -> Range
    requires { HasShortPlanArrays (view value.now) }
    ensures { result ≡ areas_range (unchecked_plan_of (view value.now)) }
{
    Range {
        at: json_nested_number(value, "csa", "at"),
        len: 64 * json_nested_number(value, "csa", "areas"),
    }
}

/// Reads a peripheral of a plan from an object of its JSON document: the range, and bounds of the
/// words that loads give.
fn plan_device_of(object: &Value) -> Device
    ensures { result ≡ plan_device_of (view object.now) }
{
    Device {
        range: plan_range_of(object),
        lo: json_number_or_zero(object, "lo"),
        hi: json_number_or_zero(object, "hi"),
    }
}
