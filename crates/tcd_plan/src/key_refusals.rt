// Refusals by keys: each is checked over the whole document.
ghost use Rattle.std.specs.Prelude.{◌≡◌, map, option_map, string_bytes};
ghost use Rattle.std.specs.List.{find, list_all, list_any};
ghost use Rattle.std.specs.BTreeMap.{keys};
ghost use Rattle.serde_json.specs.View.{view};
ghost use Rattle.tcd_plan.specs.KeyRows.{parent_key, row_of, is_row_of_key};
ghost use Rattle.tcd_plan.specs.KeyFaults.{may_key_be_absent, has_unknown_key, is_key_value_bad, is_known_key, lacks_key, first_key_with_bad_value, first_missing_key, plan_key_of, first_object_with_unknown_key};
ghost use Rattle.tcd_plan.specs.Objects.{plan_objects_of};
ghost use Rattle.tcd_plan.specs.ValueForms.{has_value_form};

use crate::PlanKey;
use crate::key_table::{
    KeyParent, Row, ValueForm, is_row_of_key, key_parents, key_table_rows, parent_key,
};
use crate::object_forms::{has_value_form, plan_objects_of};
use serde_json::{Map, Value};

/// Returns the first required key, in the order of the table of keys, that an object of a plan's
/// JSON document lacks; or None.
pub fn first_missing_key(value: &Value) -> Option<PlanKey>
    ensures { result ≡ first_missing_key (view value.now) }
{
    key_of_refused_row(
        key_table_rows()
            .iter()
            .find(|row| has_object_without_key(row, value)),
    )
}

/// Returns the first key, in the order of the table of keys, whose value in a plan's JSON document
/// has the wrong form; or None.
pub fn first_key_with_bad_value(value: &Value) -> Option<PlanKey>
    ensures { result ≡ first_key_with_bad_value (view value.now) }
{
    key_of_refused_row(
        key_table_rows()
            .iter()
            .find(|row| has_object_with_bad_value(row, value)),
    )
}

/// Returns the key of the first object or array in a plan's JSON document that has a key outside
/// the table of keys; or None.
pub fn first_object_with_unknown_key(value: &Value) -> Option<PlanKey>
    ensures { result ≡ first_object_with_unknown_key (view value.now) }
{
    key_of_parent(
        key_parents()
            .iter()
            .find(|parent| has_object_with_unknown_key(**parent, value)),
    )
}

/// Returns true if a JSON object lacks this table row's key, and the key is required.
pub fn lacks_key(row: &Row, object: &Value) -> bool
    ensures { result ≡ lacks_key (row_of row.now) (view object.now) }
{
    !may_key_be_absent(row.form) && object.get(row.name).is_none()
}

/// Returns true if a key whose value has this form may be absent: only `core` may.
pub(crate) fn may_key_be_absent(form: ValueForm) -> bool
    ensures { result ≡ may_key_be_absent form }
{
    matches!(form, ValueForm::CoreText)
}

/// Returns the key of the table row that a plan's document breaks, for the error that names the
/// key. None if there is no such row.
fn key_of_refused_row(row: Option<&Row>) -> Option<PlanKey>
    ensures { result ≡ option_map (λ r. plan_key_of r.now.key) row.entry }
{
    row.map(|row| PlanKey(row.key))
}

/// Returns true if a required key, that of this table row, is missing in one of the plan's JSON
/// objects to which the row applies.
fn has_object_without_key(row: &Row, value: &Value) -> bool
    ensures { result ≡ list_any (lacks_key (row_of row.now))
        (plan_objects_of row.now.parent (view value.now)) }
{
    plan_objects_of(row.parent, value)
        .iter()
        .any(|object| lacks_key(row, object))
}

/// Returns true if one of the JSON objects to which this table row applies has no value of the
/// right form at the row's key.
fn has_object_with_bad_value(row: &Row, value: &Value) -> bool
    ensures { result ≡ list_any (is_key_value_bad (row_of row.now))
        (plan_objects_of row.now.parent (view value.now)) }
{
    plan_objects_of(row.parent, value)
        .iter()
        .any(|object| !has_value_form(row.form, row.name, object))
}

/// Returns the key at which the plan's document has this object or array of objects; None for None.
fn key_of_parent(parent: Option<&KeyParent>) -> Option<PlanKey>
    ensures { result ≡ option_map (λ h. plan_key_of (parent_key h.now)) parent.entry }
{
    parent.map(|parent| PlanKey(parent_key(*parent)))
}

/// Returns true if one of the objects at `parent` in a plan's document has a key that the table of
/// keys doesn't list there.
fn has_object_with_unknown_key(parent: KeyParent, value: &Value) -> bool
    ensures { result ≡ list_any (has_unknown_key parent) (plan_objects_of parent (view value.now)) }
{
    plan_objects_of(parent, value)
        .iter()
        .any(|object| has_unknown_key(parent, object))
}

/// Returns true if an object at `parent` in a plan's document has a key that the table of keys
/// doesn't list there.
fn has_unknown_key(parent: KeyParent, object: &Value) -> bool
    ensures { result ≡ has_unknown_key parent (view object.now) }
{
    match object.as_object() {
        Some(members) => !are_known_keys(parent, members),
        None => false,
    }
}

/// Returns true if the table of keys lists all `members` of an object at `parent` in a plan's
/// document.
fn are_known_keys(parent: KeyParent, members: &Map<String, Value>) -> bool
    ensures { result ≡ list_all (λ name. is_known_key parent (string_bytes name))
        (keys members.now) }
{
    members
        .keys()
        .all(|name| is_known_key(parent, name.as_str()))
}

/// Returns true if the table has the key `name` for the objects at `parent` in a plan's document.
fn is_known_key(parent: KeyParent, name: &str) -> bool
    ensures { result ≡ is_known_key parent name.now }
{
    key_table_rows()
        .iter()
        .any(|row| is_row_of_key(row, parent, name))
}
