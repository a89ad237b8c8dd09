// The objects of a document, and the tests of their values.
ghost use Rattle.std.specs.Prelude.{◌≡◌, [], map, count_by, option_map};
ghost use Rattle.std.specs.List.{list_all};
ghost use Rattle.serde_json.specs.View.{view};
ghost use Rattle.tcd_plan.specs.Objects.{array_objects_at, single_object_at, plan_objects_of};
ghost use Rattle.tcd_plan.specs.ValueForms.{are_traps, are_irqs_above, has_value_form, is_core_version_or_absent, is_range_len, is_trap_name};
ghost use Rattle.tcd_plan.specs.JsonValues.{is_object, is_json_string, json_number_of};

use crate::json_values::{
    is_json_string, json_elements_at, json_number_at, json_number_of, json_number_or_zero,
};
use crate::key_table::{KeyParent, ValueForm};
use serde_json::Value;
use std::slice;

/// Returns the objects at `parent` in the plan's document, `value`: one object, or the elements of
/// an array. An array with an element that is no object gives none.
pub fn plan_objects_of(parent: KeyParent, value: &Value) -> &[Value]
    ensures { map view result.now ≡ plan_objects_of parent (view value.now) }
{
    match parent {
        KeyParent::Root => slice::from_ref(value),
        KeyParent::Rom => array_objects_at(value, "rom"),
        KeyParent::Ram => array_objects_at(value, "ram"),
        KeyParent::Devices => array_objects_at(value, "devices"),
        KeyParent::Csa => single_object_at(value, "csa"),
        KeyParent::Start => single_object_at(value, "start"),
        KeyParent::Globals => single_object_at(value, "globals"),
    }
}

/// Returns true if the key `name` of an object has a value of this form.
pub fn has_value_form(form: ValueForm, name: &str, object: &Value) -> bool
    ensures { result ≡ has_value_form form name.now (view object.now) }
{
    match form {
        ValueForm::Ranges => json_elements_at(object, name).is_some_and(|places| !places.is_empty()
            && are_objects(places)),
        ValueForm::Objects => json_elements_at(object, name).is_some_and(are_objects),
        ValueForm::Object => object.get(name).is_some_and(|inner| inner.is_object()),
        ValueForm::At => json_number_at(object, name).is_some_and(|at| at % 4 == 0),
        ValueForm::Len => json_number_at(object, name).is_some_and(|len| is_range_len(
            json_number_or_zero(object, "at"),
            len,
        )),
        ValueForm::Hi => json_number_at(object, name).is_some_and(|hi| json_number_or_zero(
            object, "lo",
        ) <= hi),
        ValueForm::Word => json_number_at(object, name).is_some(),
        ValueForm::Byte => json_number_at(object, name).is_some_and(|byte| byte < 256),
        ValueForm::Truth => json_number_at(object, name).is_some_and(|truth| truth < 2),
        ValueForm::Irqs => json_elements_at(object, name).is_some_and(are_irqs),
        ValueForm::Traps => json_elements_at(object, name).is_some_and(are_traps),
        ValueForm::CoreText => is_core_version_or_absent(object.get(name)),
    }
}

/// Returns the elements of the array at a key of a document; an empty slice unless the value is an
/// array of objects alone.
fn array_objects_at<'a>(value: &'a Value, name: &str) -> &'a [Value]
    ensures { map view result.now ≡ array_objects_at name.now (view value.now) }
{
    match json_elements_at(value, name) {
        Some(places) if are_objects(places) => places,
        _ => &[],
    }
}

/// Returns the object at a key of a document as a slice of one; an empty slice if no object is
/// there.
fn single_object_at<'a>(value: &'a Value, name: &str) -> &'a [Value]
    ensures { map view result.now ≡ single_object_at name.now (view value.now) }
{
    match value.get(name) {
        Some(inner) if inner.is_object() => slice::from_ref(inner),
        _ => &[],
    }
}

/// Returns true if all of `places`, the elements of a JSON array, are objects.
fn are_objects(places: &[Value]) -> bool
    ensures { result ≡ list_all is_object (map view places.now) }
{
    places.iter().all(|place| place.is_object())
}

/// Returns true if a number is the length of a range at `at`: a multiple of 4, not 0, with the
/// range's end at 2^32 or below.
fn is_range_len(at: u32, len: u32) -> bool
    ensures { result ≡ is_range_len at len }
{
    len > 0 && len % 4 == 0 && u64::from(at) + u64::from(len) <= 1 << 32
}

/// Returns true if `places`, the elements of the array `irqs`, are ascending numbers from 1 to 255.
fn are_irqs(places: &[Value]) -> bool
    ensures { result ≡ are_irqs_above 0 (map view places.now) }
{
    let mut low = 0;
    for place in places {
        match json_number_of(place) {
            Some(irq) if low < irq && irq < 256 => low = irq,
            _ => return false,
        }
    }
    true
}

/// Returns true if `places`, the elements of the array `traps`, are only `sys` and `aln`, each at
/// most once.
fn are_traps(places: &[Value]) -> bool
    ensures { result ≡ are_traps (map view places.now) }
{
    are_trap_names(places)
        && count_json_strings(places, "sys") <= 1
        && count_json_strings(places, "aln") <= 1
}

/// Returns true if the value of the key `core` is `1.3` or `1.6`, or the key is absent (None).
fn is_core_version_or_absent(value: Option<&Value>) -> bool
    ensures { result ≡ is_core_version_or_absent (option_map (λ v. view v.now) value.entry) }
{
    match value {
        Some(value) => is_json_string(value, "1.3") || is_json_string(value, "1.6"),
        None => true,
    }
}

/// Returns true if each of `places`, the elements of the array `traps`, is `sys` or `aln`.
fn are_trap_names(places: &[Value]) -> bool
    ensures { result ≡ list_all is_trap_name (map view places.now) }
{
    places.iter().all(is_trap_name)
}

/// Returns how many of `places`, the elements of a JSON array, are the string `text`.
fn count_json_strings(places: &[Value], text: &str) -> usize
    ensures { result ≡ count_by (is_json_string text.now) (map view places.now) }
{
    places
        .iter()
        .filter(|place| is_json_string(place, text))
        .count()
}

/// Returns true if `place`, an element of the array `traps`, is `sys` or `aln`.
fn is_trap_name(place: &Value) -> bool
    ensures { result ≡ is_trap_name (view place.now) }
{
    is_json_string(place, "sys") || is_json_string(place, "aln")
}
