// Reads a plan from the bytes of a file.
ghost use Rattle.std.specs.Prelude.{◌≡◌, ◌≤◌, ◌^◌, ◌⊎◌, IfErr, None, length};
ghost use Rattle.serde_json.specs.Errors.{IsMemory};
ghost use Rattle.serde_json.specs.View.{view};
ghost use Rattle.tcd_plan.specs.PlanReader.{IsPlanResult, HasPrintedKey, plan_of, plan_refusal, unchecked_plan_of};

use crate::json_values::{
    has_json_string, json_elements_or_empty, json_nested_byte, json_nested_number,
    json_number_or_zero,
};
use crate::key_refusals::{
    first_key_with_bad_value, first_missing_key, first_object_with_unknown_key,
};
use crate::key_table::KeyParent;
use crate::limits::{
    first_oversized_array, has_even_vector_bases, has_valid_areas, plan_range_overlap,
};
use crate::object_forms::plan_objects_of;
use crate::plan_parts::{
    plan_core_of, plan_devices_of, plan_globals_of, plan_irqs_of, plan_ranges_of,
};
use crate::{Plan, PlanErr};
use serde_json::{Error, Value};
use std::alloc::Global;

impl Plan {
    /// Reads a plan, the description of a board, from the bytes of a JSON file, or returns the
    /// first refusal. Only parsing the JSON allocates.
    pub fn read(alloc: Global, bytes: &[u8]) -> Result<Plan, PlanErr>
        requires { length bytes.now ≤ 2 ^ 30 }
        ensures answer { IsPlanResult bytes.now result }
        ensures keys { IfErr result HasPrintedKey }
    {
        match Value::from_slice(alloc, bytes) {
            Ok(value) => plan_of(&value),
            Err(e) => Err(plan_read_error(&e)),
        }
    }
}

/// Returns why serde_json read no document: out of memory, or the bytes are no JSON.
fn plan_read_error(e: &Error) -> PlanErr
    ensures either { (result ≡ PlanErr.NoMemory) ⊎ ((result ≡ PlanErr.NotJson) × ¬ IsMemory e.now) }
{
    if e.is_memory() {
        PlanErr::NoMemory
    } else {
        PlanErr::NotJson
    }
}

/// Returns the plan in a document, or the first refusal.
fn plan_of(value: &Value) -> Result<Plan, PlanErr>
    ensures answer { result ≡ plan_of (view value.now) }
    ensures keys { IfErr result HasPrintedKey }
{
    match plan_refusal(value) {
        Some(err) => Err(err),
        None => Ok(unchecked_plan_of(value)),
    }
}

/// Returns the first error of a plan's JSON document, in the order of `PlanErr`, or None if the
/// document is a plan.
#[tactic(auto, unfolding(crate::specs::PlanReader::plan_refusal))]
fn plan_refusal(value: &Value) -> Option<PlanErr>
    ensures { result ≡ plan_refusal (view value.now) }
{
    if !value.is_object() {
        return Some(PlanErr::NotJson);
    }
    if let Some(key) = first_missing_key(value) {
        return Some(PlanErr::Missing(key));
    }
    if let Some(key) = first_object_with_unknown_key(value) {
        return Some(PlanErr::Unknown(key));
    }
    if let Some(key) = first_key_with_bad_value(value) {
        return Some(PlanErr::BadValue(key));
    }
    if let Some(key) = first_oversized_array(value) {
        return Some(PlanErr::TooMany(key));
    }
    if !has_valid_areas(value) {
        return Some(PlanErr::BadCsa);
    }
    if !has_even_vector_bases(value) {
        return Some(PlanErr::BadVector);
    }
    plan_range_overlap(value)
}

/// Builds the plan from a JSON document that `plan_refusal` accepts, without further checks.
#[tactic(auto, unfolding(crate::specs::PlanReader::unchecked_plan_of))]
fn unchecked_plan_of(value: &Value) -> Plan
    requires { plan_refusal (view value.now) ≡ None }
    ensures { result ≡ unchecked_plan_of (view value.now) }
{
    Plan {
        rom: plan_ranges_of(plan_objects_of(KeyParent::Rom, value)),
        ram: plan_ranges_of(plan_objects_of(KeyParent::Ram, value)),
        devices: plan_devices_of(plan_objects_of(KeyParent::Devices, value)),
        csa_at: json_nested_number(value, "csa", "at"),
        areas: json_nested_number(value, "csa", "areas"),
        reserve: json_nested_number(value, "csa", "reserve"),
        sp: json_number_or_zero(value, "sp"),
        isp: json_number_or_zero(value, "isp"),
        biv: json_number_or_zero(value, "biv"),
        btv: json_number_or_zero(value, "btv"),
        irqs: plan_irqs_of(json_elements_or_empty(value, "irqs")),
        sys: has_json_string(json_elements_or_empty(value, "traps"), "sys"),
        aln: has_json_string(json_elements_or_empty(value, "traps"), "aln"),
        start_ie: json_nested_number(value, "start", "ie") == 1,
        start_ccpn: json_nested_byte(value, "start", "ccpn"),
        start_is: json_nested_number(value, "start", "is") == 1,
        globals: plan_globals_of(value),
        core: plan_core_of(value),
    }
}
