// A map of the global symbols of objects by name, so that each look-up is a few steps.
ghost use Rattle.std.specs.Prelude.{◌≡◌, ◌+◌, ◌++◌, ◌∷◌, nat_lt, ◌==◌, ℕ, List, [], true, false, count_by, slice_get, OnOk, IfOk, IfErr, if◌then◌else◌, Some, None};
ghost use Rattle.tc_link.specs.Placing.{PlacedData};
ghost use Rattle.tc_link.specs.GlobalSymbols.{GlobalData, globals_of_symbols, has_global_name, HasCountedDefinitions, ResolvesGlobals, HasCountedAllDefinitions, ResolvesAllGlobals};
ghost use Rattle.tc_link.specs.declared.errors.LinkErr.TheVariants.{NoMemory};

use crate::LinkErr;
use crate::definitions::Definition;
use std::alloc::Global;
use std::collections::HashMap;
use tc_object::{GLOBAL_SYMBOL, ObjectRef, SymbolRef};

/// Returns a map of the global symbols of objects: for each name the first definition, marked if
/// other objects define the name too.
pub(crate) fn globals_by_name<'a>(
    alloc: Global,
    objects: &[ObjectRef<'a>],
) -> Result<HashMap<&'a str, Definition>, LinkErr>
    ensures counts { IfOk result (λ names. HasCountedAllDefinitions names objects.now) }
    ensures globals { IfOk result (λ names. ResolvesAllGlobals names objects.now) }
    ensures err { IfErr result (λ e. e ≡ NoMemory) }
{
    let mut names = HashMap::with_capacity(alloc, count_globals(objects))?;
    for (number, object) in objects.iter().enumerate() {
        add_global_symbols(&mut names, number, &object.symbols)?;
    }
    Ok(names)
}

/// Returns true if no object defines a global symbol of this name. `names` is the map of all global
/// symbols.
pub(crate) fn has_no_definition(names: &HashMap<&str, Definition>, name: &str) -> bool
    ensures { (n : ℕ) → HasCountedDefinitions names.now name.now n → result ≡ (n == 0) }
{
    !names.contains_key(name)
}

/// Returns true if several objects define a global symbol of this name. `names` is the map of all
/// global symbols.
pub(crate) fn has_multiple_definitions(names: &HashMap<&str, Definition>, name: &str) -> bool
    ensures { (n : ℕ) → HasCountedDefinitions names.now name.now n → result ≡ nat_lt 1 n }
{
    match names.get(name) {
        Some(definition) => definition.is_twice,
        None => false,
    }
}

// The number of global symbols of all objects, which bounds the number of names.
fn count_globals(objects: &[ObjectRef<'_>]) -> usize {
    let mut count = 0usize;
    for object in objects {
        for symbol in &object.symbols {
            if symbol.kind == GLOBAL_SYMBOL {
                count = count.saturating_add(1);
            }
        }
    }
    count
}

/// Adds the global symbols of object number `object` to the map of global symbols by name.
fn add_global_symbols<'a>(
    names: &mut HashMap<&'a str, Definition>,
    object: usize,
    symbols: &[SymbolRef<'a>],
) -> Result<(), LinkErr>
    ensures counts { OnOk result ((q : List ℕ) (n : ℕ) → HasCountedDefinitions names.old q n
        → HasCountedDefinitions names.new q (n + count_by (has_global_name q) symbols.now)) }
    ensures globals { OnOk result ((placed : List PlacedData) (p : PlacedData)
        (before : List GlobalData) → slice_get placed object ≡ Some p
        → ResolvesGlobals names.old placed before
        → ResolvesGlobals names.new placed (before ++ globals_of_symbols p.bases symbols.now)) }
    ensures err { IfErr result (λ e. e ≡ NoMemory) }
{
    for symbol in symbols {
        add_symbol_if_global(names, object, symbol)?;
    }
    Ok(())
}

// Adds a symbol of object number `object` to the map of global symbols, if the symbol is global. A
// name that is there already keeps the first definition, marked as defined twice.
fn add_symbol_if_global<'a>(
    names: &mut HashMap<&'a str, Definition>,
    object: usize,
    symbol: &SymbolRef<'a>,
) -> Result<(), LinkErr>
    ensures counts { OnOk result ((q : List ℕ) (n : ℕ) → HasCountedDefinitions names.old q n
        → HasCountedDefinitions names.new q
        (n + (if has_global_name q symbol.now then 1 else 0))) }
    ensures globals { OnOk result ((placed : List PlacedData) (p : PlacedData) (before : List
        GlobalData) → slice_get placed object ≡ Some p → ResolvesGlobals names.old placed before →
        ResolvesGlobals names.new placed (before ++ globals_of_symbols p.bases (symbol.now ∷ []))) }
    ensures err { IfErr result (λ e. e ≡ NoMemory) }
{
    let is_global = symbol.kind == GLOBAL_SYMBOL;
    if !is_global {
        return Ok(());
    }
    let definition = Definition {
        object,
        section: symbol.section,
        offset: symbol.offset,
        is_twice: false,
    };
    let Some(first) = names.insert(symbol.name, definition)? else {
        return Ok(());
    };
    let twice = Definition {
        object: first.object,
        section: first.section,
        offset: first.offset,
        is_twice: true,
    };
    names.insert(symbol.name, twice)?;
    Ok(())
}
