// Names that are all different.
ghost use Rattle.std.specs.Prelude.{◌≡◌, map, string_bytes, IfOk};
ghost use Rattle.std.specs.List.{list_any};
ghost use Rattle.std.specs.Str.{bytes_eq};
ghost use Rattle.tcd_driver.specs.DistinctNames.{are_distinct_names};

use std::alloc::{AllocError, Global};
use std::collections::HashMap;

/// Returns true if no two of these file names are equal. Compares each pair if there is no memory
/// for a map of the names.
pub(crate) fn are_distinct_names(alloc: Global, names: &[String]) -> bool
    ensures { result ≡ are_distinct_names (map string_bytes names.now) }
{
    match are_distinct_by_map(alloc, names) {
        Ok(distinct) => distinct,
        Err(_) => are_distinct_in_pairs(names),
    }
}

// Returns true if no two of these file names are equal, by a hash map of the names seen so far. An
// error means that memory ran out.
fn are_distinct_by_map(alloc: Global, names: &[String]) -> Result<bool, AllocError>
    ensures { IfOk result (λ distinct. distinct ≡ are_distinct_names (map string_bytes names.now)) }
{
    let mut seen: HashMap<&str, ()> = HashMap::new(alloc);
    let mut rest = names;
    while let [name, others @ ..] = rest {
        let earlier = seen.insert(name.as_str(), ())?;
        if earlier.is_some() {
            return Ok(false);
        }
        rest = others;
    }
    Ok(true)
}

// Returns true if no two of these file names are equal, by comparing each pair, which takes no
// memory.
fn are_distinct_in_pairs(names: &[String]) -> bool
    ensures { result ≡ are_distinct_names (map string_bytes names.now) }
{
    let mut rest = names;
    while let [name, others @ ..] = rest {
        if is_one_of_names(name.as_str(), others) {
            return false;
        }
        rest = others;
    }
    true
}

// Returns true if a file name is among the others.
fn is_one_of_names(name: &str, others: &[String]) -> bool
    ensures { result ≡ list_any (bytes_eq name.now) (map string_bytes others.now) }
{
    let mut rest = others;
    while let [other, more @ ..] = rest {
        if name == other.as_str() {
            return true;
        }
        rest = more;
    }
    false
}
