// Computes the addresses of symbols.
ghost use Rattle.std.specs.Prelude.{◌≡◌, List, slice_index, IfOk, IfErr, ◌<◌, None};
ghost use Rattle.tc_link.specs.Placing.{address_in_section};
ghost use Rattle.tc_link.specs.GlobalSymbols.{GlobalData, global_symbol_address, ResolvesGlobals};
ghost use Rattle.tc_link.specs.Relocated.{symbol_addresses};
ghost use Rattle.tc_link.specs.declared.errors.LinkErr.TheVariants.{NoMemory};

use crate::LinkErr;
use crate::definitions::Definition;
use crate::placed::Placed;
use std::alloc::Global;
use std::collections::HashMap;
use tc_object::{SymbolRef, UNDEFINED_SYMBOL};

/// Returns the address of `offset` in section number `section` of an object, modulo 2^32. `bases`
/// are the addresses of the object's sections; a missing one counts as 0.
pub(crate) fn address_in_section(bases: &[u64], section: u16, offset: u32) -> u32
    ensures { result ≡ address_in_section bases.now section offset }
{
    let base = match bases.get(section as usize) {
        Some(base) => *base,
        None => 0,
    };
    (base.wrapping_add(u64::from(offset)) % 4_294_967_296) as u32
}

/// Returns the address of the global symbol `name`, or None if no object defines the name. `placed`
/// are the objects with their sections' addresses; a missing object gives 0.
pub(crate) fn global_symbol_address(
    names: &HashMap<&str, Definition>,
    placed: &[Placed<'_, '_>],
    name: &str,
) -> Option<u32>
    ensures { result ≡ global_symbol_address names.now placed.now name.now }
{
    let Some(definition) = names.get(name) else {
        return None;
    };
    match placed.get(definition.object) {
        Some(each) => Some(address_in_section(&each.bases, definition.section, definition.offset)),
        None => Some(0),
    }
}

/// Returns the addresses of the symbols of the object `each`, by number. An undefined symbol has
/// the address of the global symbol of that name, or 0 if no object defines one.
#[tactic(auto, unfolding(crate::specs::Relocated::symbol_addresses))]
pub(crate) fn symbol_addresses(
    alloc: Global,
    names: &HashMap<&str, Definition>,
    placed: &[Placed<'_, '_>],
    each: &Placed<'_, '_>,
) -> Result<Vec<u32>, LinkErr>
    ensures ok { IfOk result (λ addresses. (all : List GlobalData)
        → ResolvesGlobals names.now placed.now all
        → addresses.items ≡ symbol_addresses all each.now) }
    ensures err { IfErr result (λ e. e ≡ NoMemory) }
{
    let object = each.object;
    let mut addresses = Vec::with_capacity(alloc, object.symbols.len())?;
    for symbol in &object.symbols {
        let address = if symbol.kind != UNDEFINED_SYMBOL {
            address_in_section(&each.bases, symbol.section, symbol.offset)
        } else {
            global_symbol_address(names, placed, symbol.name).unwrap_or(0)
        };
        addresses.push(address)?;
    }
    Ok(addresses)
}

// The address of the symbol with this number, and 0 if there is no such symbol.
pub(crate) fn symbol_address_at(addresses: &[u32], number: u16) -> u32
    ensures { result ≡ slice_index addresses.now number }
{
    match addresses.get(number as usize) {
        Some(address) => *address,
        None => 0,
    }
}
