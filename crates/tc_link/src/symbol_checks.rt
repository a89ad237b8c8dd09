// Checks for symbols that are defined twice or not at all.
ghost use Rattle.std.specs.Prelude.{◌≡◌, ◌==◌, ◌&&◌, nat_lt, List, length, slice_set, true, Option, None, OnOk, IfOk, IfErr};
ghost use Rattle.std.specs.Option.{option_map};
ghost use Rattle.tc_object.specs.Objects.{ObjectData, undefined_symbol};
ghost use Rattle.tc_link.specs.GlobalSymbols.{is_global, count_globals_named, HasCountedAllDefinitions};
ghost use Rattle.tc_link.specs.Refusals.{twice, missing, duplicate_symbol_refusal, first_duplicate_symbol_refusal, missing_symbol_refusal, first_missing_symbol_refusal, first_refusal_over};
ghost use Rattle.tc_link.specs.Errors.{IsRefusal};
ghost use Rattle.tc_link.specs.declared.errors.LinkErr.TheVariants.{NoMemory};

use crate::LinkErr;
use crate::definitions::Definition;
use crate::global_symbols::{has_multiple_definitions, has_no_definition};
use std::alloc::Global;
use std::collections::HashMap;
use tc_object::{GLOBAL_SYMBOL, ObjectRef, SymbolRef, UNDEFINED_SYMBOL};

/// Checks that no two objects define the same global symbol. `names` is the map of all global
/// symbols. The error is `Twice` for the first that two define.
pub(crate) fn check_duplicate_symbols(
    alloc: Global,
    names: &HashMap<&str, Definition>,
    objects: &[ObjectRef<'_>],
) -> Result<(), LinkErr>
    requires { HasCountedAllDefinitions names.now objects.now }
    ensures ok { OnOk result (first_duplicate_symbol_refusal objects.now ≡ None) }
    ensures err { IfErr result (IsRefusal (first_duplicate_symbol_refusal objects.now)) }
{
    if names.values().all(|definition| !definition.is_twice) {
        return Ok(());
    }
    for object in objects {
        if let Some(name) = first_duplicate_symbol(names, &object.symbols) {
            return Err(LinkErr::Twice(String::from_str(alloc, name)?));
        }
    }
    Ok(())
}

/// Sets flag `number` of `marks`, that a symbol is used or that a section has a symbol. Nothing
/// changes if there is no such flag.
pub(crate) fn set_flag(marks: &mut Vec<bool>, number: usize)
    ensures { marks.new.items ≡ slice_set marks.old.items number true }
{
    if number < marks.len() {
        marks[number] = true;
    }
}

/// Checks that each symbol that a relocation uses is defined. `names` is the map of all global
/// symbols. The error is `Missing` for the first symbol that isn't.
pub(crate) fn check_missing_symbols(
    alloc: Global,
    names: &HashMap<&str, Definition>,
    objects: &[ObjectRef<'_>],
) -> Result<(), LinkErr>
    requires { HasCountedAllDefinitions names.now objects.now }
    ensures ok { OnOk result (first_missing_symbol_refusal objects.now ≡ None) }
    ensures err { IfErr result (IsRefusal (first_missing_symbol_refusal objects.now)) }
{
    for object in objects {
        if let Some(name) = first_missing_symbol(alloc, names, object)? {
            return Err(LinkErr::Missing(String::from_str(alloc, name)?));
        }
    }
    Ok(())
}

// Returns the name of the first of these symbols that several objects define, or None. `names` is
// the map of all global symbols.
fn first_duplicate_symbol<'a>(
    names: &HashMap<&str, Definition>,
    symbols: &[SymbolRef<'a>],
) -> Option<&'a str>
    ensures { (objects : List ObjectData) → HasCountedAllDefinitions names.now objects
        → first_refusal_over (duplicate_symbol_refusal objects) symbols.now
        ≡ option_map (λ name. twice name.now) result }
{
    for symbol in symbols {
        if is_duplicate_symbol(names, symbol) {
            return Some(symbol.name);
        }
    }
    None
}

// Returns true if a symbol is global and several objects define its name. `names` is the map of all
// global symbols.
fn is_duplicate_symbol(names: &HashMap<&str, Definition>, symbol: &SymbolRef<'_>) -> bool
    ensures { (objects : List ObjectData) → HasCountedAllDefinitions names.now objects → result
        ≡ (is_global symbol.now && nat_lt 1 (count_globals_named objects symbol.now.name)) }
{
    symbol.kind == GLOBAL_SYMBOL && has_multiple_definitions(names, symbol.name)
}

// Returns the name of an object's first undefined symbol that a relocation uses and no object
// defines as a global symbol, or None. `names` is the map of all global symbols.
fn first_missing_symbol<'a>(
    alloc: Global,
    names: &HashMap<&str, Definition>,
    object: &ObjectRef<'a>,
) -> Result<Option<&'a str>, LinkErr>
    ensures ok { IfOk result (λ found. (objects : List ObjectData)
        → HasCountedAllDefinitions names.now objects
        → first_refusal_over (missing_symbol_refusal objects object.now.relocs) object.now.symbols
        ≡ option_map (λ name. missing name.now) found) }
    ensures err { IfErr result (λ e. e ≡ NoMemory) }
{
    let mut used = vec![in alloc; false; object.symbols.len()]?;
    for reloc in &object.relocs {
        set_flag(&mut used, reloc.symbol as usize);
    }
    for (number, symbol) in object.symbols.iter().enumerate() {
        if is_missing_symbol(names, used[number], symbol) {
            return Ok(Some(symbol.name));
        }
    }
    Ok(None)
}

// Returns true if a symbol is undefined and used, and no object defines a global symbol of its
// name. `used` says whether a relocation uses the symbol.
fn is_missing_symbol(names: &HashMap<&str, Definition>, used: bool, symbol: &SymbolRef<'_>) -> bool
    ensures { (objects : List ObjectData) → HasCountedAllDefinitions names.now objects → result
        ≡ (symbol.now.kind == undefined_symbol && used
        && count_globals_named objects symbol.now.name == 0) }
{
    symbol.kind == UNDEFINED_SYMBOL && used && has_no_definition(names, symbol.name)
}
