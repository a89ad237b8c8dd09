// Reads names that aren't used yet. A map holds the used ones, so each look-up is a few steps.
ghost use Rattle.std.specs.Prelude.{◌≡◌, ◌||◌, not, false, ℕ, List, Ok, Err, OnOk, IfOk, IfErr};
ghost use Rattle.std.specs.Str.{bytes_eq};
ghost use Rattle.tc_object.specs.Faults.{IsFaultOf};
ghost use Rattle.tc_object.specs.Grammar.{new_object_name_at};
ghost use Rattle.tc_object.specs.Used.{is_used_name};

use crate::ObjErr;
use crate::names::{read_name_bytes, read_name_length};
use std::alloc::{AllocError, AllocFailed, Global};
use std::collections::HashMap;
use tcd_base::{BAD_VALUE, FileCursor, form_err_at};

/// Returns an empty map for the names of an object file's symbols, with room for `count` names.
pub(crate) fn empty_used_names<'a>(
    alloc: Global,
    count: u16,
) -> Result<HashMap<&'a str, ()>, AllocError>
    ensures { IfOk result (λ names. (q : List ℕ) → is_used_name names q ≡ false) }
{
    let names = HashMap::with_capacity(alloc, count as usize)?;
    Ok(names)
}

/// Reads the name of a symbol of an object file, and adds the name to `names`, those of earlier
/// symbols. A name that is there already is the fault `BAD_VALUE`.
#[tactic(auto, unfolding(crate::specs::Grammar::new_object_name_at))]
pub(crate) fn read_new_name<'a>(
    c: &mut FileCursor<'a>,
    names: &mut HashMap<&'a str, ()>,
) -> Result<&'a str, ObjErr>
    ensures ok { IfOk result (λ name. new_object_name_at (is_used_name names.old) c.old
        ≡ Ok (name.now, c.new)) }
    ensures err { IfErr result (IsFaultOf (new_object_name_at (is_used_name names.old) c.old)) }
    ensures names { IfOk result (λ name. (q : List ℕ) → is_used_name names.new q
        ≡ (bytes_eq name.now q || is_used_name names.old q)) }
{
    let count = read_name_length(c)?;
    let start = c.place();
    let name = read_name_bytes(c, count)?;
    let is_new = insert_used_name(names, name)?;
    if !is_new {
        return Err(ObjErr::Bad(form_err_at(BAD_VALUE, start)));
    }
    Ok(name)
}

/// Adds a name to `names`, those of an object file's earlier symbols. Returns true if the name
/// wasn't there, as `HashSet::insert` does.
fn insert_used_name<'a>(
    names: &mut HashMap<&'a str, ()>,
    name: &'a str,
) -> Result<bool, AllocFailed<(&'a str, ())>>
    ensures added { IfOk result (λ added. added ≡ not (is_used_name names.old name.now)) }
    ensures names { OnOk result ((q : List ℕ) → is_used_name names.new q
        ≡ (bytes_eq name.now q || is_used_name names.old q)) }
{
    let old = names.insert(name, ())?;
    Ok(old.is_none())
}
