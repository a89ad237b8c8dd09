// Reads the values of a JSON document: arrays, texts, and numbers of 32 bits.
ghost use Rattle.std.specs.Prelude.{◌≡◌, ◌<◌, ◌≤◌, ◌^◌, Some, None, length, map, option_map, if◌then◌else◌, []};
ghost use Rattle.std.specs.List.{list_all, list_any};
ghost use Rattle.std.specs.Str.Parse.{digits_value};
ghost use Rattle.serde_json.specs.View.{view};
ghost use Rattle.tcd_plan.specs.JsonValues.{is_json_hex, is_json_string, json_number_of, json_number_at, json_elements_at, hex_string_value, json_number_or_zero, json_nested_number, json_elements_or_empty};

use serde_json::Value;

#[tactic(auto, using(crate::proofs::ViewLemmas::list_of_items))]
/// Returns the elements of the JSON array at a key of an object, or None if there is none.
pub fn json_elements_at<'a>(value: &'a Value, name: &str) -> Option<&'a [Value]>
    ensures { option_map (λ s. map view s.now) result ≡ json_elements_at name.now (view value.now) }
{
    let list = value.get(name)?.as_array()?;
    Some(list.as_slice())
}

/// Returns true if the JSON value is the string `text`.
pub fn is_json_string(value: &Value, text: &str) -> bool
    ensures { result ≡ is_json_string text.now (view value.now) }
{
    match value {
        Value::String(string) => string.as_str() == text,
        _ => false,
    }
}

/// Returns the number of 32 bits at the key `name` of a JSON object, or 0 if there is none.
pub fn json_number_or_zero(value: &Value, name: &str) -> u32
    ensures { result ≡ json_number_or_zero name.now (view value.now) }
{
    json_number_at(value, name).unwrap_or(0)
}

/// Returns the number of 32 bits at the key `name` of the object at the key `outer` of a JSON
/// object, or 0 if there is none.
pub fn json_nested_number(value: &Value, outer: &str, name: &str) -> u32
    ensures { result ≡ json_nested_number outer.now name.now (view value.now) }
{
    match value.get(outer) {
        Some(inner) => json_number_or_zero(inner, name),
        None => 0,
    }
}

/// Returns the number of 32 bits at the key `name` of a JSON object, or `None` if there is none.
pub fn json_number_at(value: &Value, name: &str) -> Option<u32>
    ensures { result ≡ json_number_at name.now (view value.now) }
{
    value.get(name).and_then(json_number_of)
}

/// Returns the number that a JSON value is, or None: an unsigned integer of 32 bits, or a string of
/// `0x` and 1 to 8 hex digits.
pub fn json_number_of(value: &Value) -> Option<u32>
    ensures { result ≡ json_number_of (view value.now) }
{
    match value {
        Value::Number(n) => n.as_u64().and_then(|n| u32::try_from(n).ok()),
        Value::String(text) => hex_string_value(text.as_bytes()),
        _ => None,
    }
}

/// Returns the elements of the JSON array at the key `name` of an object, or an empty slice if no
/// array is there.
pub fn json_elements_or_empty<'a>(value: &'a Value, name: &str) -> &'a [Value]
    ensures { map view result.now ≡ json_elements_or_empty name.now (view value.now) }
{
    json_elements_at(value, name).unwrap_or(&[])
}

/// Returns true if one of `places`, the elements of a JSON array, is the string `text`.
pub fn has_json_string(places: &[Value], text: &str) -> bool
    ensures { result ≡ list_any (is_json_string text.now) (map view places.now) }
{
    places.iter().any(|place| is_json_string(place, text))
}

/// Returns the number, below 256, at the key `name` of the object at the key `outer` of a JSON
/// object; 0 if there is none.
pub fn json_nested_byte(value: &Value, outer: &str, name: &str) -> u8
    requires { json_nested_number outer.now name.now (view value.now) < 2 ^ 8 }
    ensures { result ≡ json_nested_number outer.now name.now (view value.now) }
{
    json_nested_number(value, outer, name) as u8
}

/// Returns the number that a JSON string of `0x` and 1 to 8 hex digits spells, or None for another
/// string.
fn hex_string_value(text: &[u8]) -> Option<u32>
    ensures { result ≡ hex_string_value text.now }
{
    match text {
        [b'0', b'x', digits @ ..] if !digits.is_empty() && digits.len() <= 8 => json_hex_value(
            digits,
        ),
        _ => None,
    }
}

/// Returns the number that up to 8 hex digits of either case spell, or None if another character is
/// there. The digits follow the `0x` of a JSON string.
fn json_hex_value(digits: &[u8]) -> Option<u32>
    requires { length digits.now ≤ 8 }
    ensures { result ≡
        (if list_all is_json_hex digits.now then Some (digits_value 16 digits.now) else None) }
{
    let mut value = 0u32;
    for c in digits {
        let Some(digit) = char::from(*c).to_digit(16) else {
            return None;
        };
        value = value * 16 + digit;
    }
    Some(value)
}
