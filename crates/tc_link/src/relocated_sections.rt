// Writes relocations into sections.
ghost use Rattle.std.specs.Prelude.{◌≡◌, ◌≤◌, ◌<◌, ◌+◌, List, length, map, Some, None, OnOk, IfOk, IfErr, MatchResult};
ghost use Rattle.tc_object.specs.Objects.{section_size_at};
ghost use Rattle.tc_reloc.specs.Refusals.{reloc_value_refusal};
ghost use Rattle.tc_link.specs.GlobalSymbols.{GlobalData, globals_of, ResolvesGlobals};
ghost use Rattle.tc_link.specs.Relocated.{symbol_addresses, section_bytes_with_field, section_with_filled_field, sections_after_reloc, relocated_sections, AreRelocatedSections, all_relocated_sections, reloc_value, reloc_field_at};
ghost use Rattle.tc_link.specs.Refusals.{reloc_error, first_reloc_refusal_in, AreRelocsApplicable, first_reloc_refusal};
ghost use Rattle.tc_link.specs.Shapes.{section_shape};
ghost use Rattle.tc_link.specs.Errors.{IsRefusal, IsRelocErrorOf};
ghost use Rattle.tc_link.specs.Placing.{PlacedData};

use crate::LinkErr;
use crate::addresses::{address_in_section, symbol_address_at, symbol_addresses};
use crate::definitions::Definition;
use crate::placed::Placed;
use crate::written_sections::{WrittenSection, append_relocated_sections, copies_of_sections};
use std::alloc::Global;
use std::collections::HashMap;
use tc_object::Reloc;
use tc_reloc::{RelocErr, apply};

/// Returns the sections of all objects, `placed`, with their relocations applied, or the first
/// relocation that is refused. `names` is the map of global symbols.
#[tactic(auto, unfolding(crate::specs::Relocated::all_relocated_sections, crate::specs::Refusals::first_reloc_refusal))]
pub(crate) fn all_relocated_sections<'a>(
    alloc: Global,
    names: &HashMap<&str, Definition>,
    placed: &[Placed<'_, 'a>],
) -> Result<Vec<WrittenSection<'a>>, LinkErr>
    requires few { length placed.now ≤ 65535 }
    requires globals { ResolvesGlobals names.now placed.now (globals_of placed.now) }
    ensures sections { IfOk result (λ ss. ss.items ≡ all_relocated_sections placed.now) }
    ensures none { OnOk result (first_reloc_refusal (globals_of placed.now) placed.now ≡ None) }
    ensures err { IfErr result
        (IsRefusal (first_reloc_refusal (globals_of placed.now) placed.now)) }
{
    let mut contents = Vec::new(alloc);
    for (number, each) in placed.iter().enumerate() {
        let sections = relocate_object(alloc, names, placed, number as u32, each)?;
        append_relocated_sections(&mut contents, sections)?;
    }
    Ok(contents)
}

/// Returns the value that a relocation writes: the address of its symbol plus the addend, modulo
/// 2^32. `addresses` are those of the object's symbols.
pub(crate) fn reloc_value(addresses: &[u32], reloc: &Reloc) -> u32
    ensures { (all : List GlobalData) (p : PlacedData) → addresses.now ≡ symbol_addresses all p
        → result ≡ reloc_value all p reloc.now }
{
    symbol_address_at(addresses, reloc.symbol).wrapping_add(reloc.addend)
}

// Returns the sections of the object `each` with its relocations applied, or its first refused
// relocation. `number` is the object's, `placed` all objects, `names` their global symbols.
fn relocate_object<'a>(
    alloc: Global,
    names: &HashMap<&str, Definition>,
    placed: &[Placed<'_, '_>],
    number: u32,
    each: &Placed<'_, 'a>,
) -> Result<Vec<WrittenSection<'a>>, LinkErr>
    ensures sections { IfOk result (λ ss. (all : List GlobalData)
        → ResolvesGlobals names.now placed.now all → ss.items ≡ relocated_sections all each.now) }
    ensures none { OnOk result ((all : List GlobalData) → ResolvesGlobals names.now placed.now all
        → first_reloc_refusal_in all number each.now ≡ None) }
    ensures err { IfErr result (λ e. (all : List GlobalData) → ResolvesGlobals names.now placed.now
        all → IsRefusal (first_reloc_refusal_in all number each.now) e) }
{
    let object = each.object;
    let addresses = symbol_addresses(alloc, names, placed, each)?;
    let mut sections = copies_of_sections(alloc, &object.sections)?;
    apply_relocs(&addresses, number, each, &mut sections)?;
    Ok(sections)
}

// Applies all relocations of the object `placed`, of number `number`, to its sections, or returns
// the first refused. `addresses` are those of the object's symbols.
#[inline(never)]
fn apply_relocs(
    addresses: &[u32],
    number: u32,
    placed: &Placed<'_, '_>,
    sections: &mut [WrittenSection<'_>],
) -> Result<(), LinkErr>
    requires { sections.old ≡ placed.now.object.sections }
    ensures sections { OnOk result (AreRelocatedSections addresses.now placed.now sections.new) }
    ensures none { OnOk result (AreRelocsApplicable addresses.now number placed.now) }
    ensures err { IfErr result (IsRelocErrorOf addresses.now number placed.now) }
{
    let object = placed.object;
    for reloc in &object.relocs {
        if let Err(err) = apply_reloc(addresses, placed, reloc, sections) {
            return Err(LinkErr::Reloc {
                object: number,
                section: u32::from(reloc.section),
                offset: reloc.offset,
                err,
            });
        }
    }
    Ok(())
}

// Applies a relocation of the object `placed` to its section, one of `sections`, or returns why the
// value doesn't fit the field. `addresses` are those of the object's symbols.
fn apply_reloc(
    addresses: &[u32],
    placed: &Placed<'_, '_>,
    reloc: &Reloc,
    sections: &mut [WrittenSection<'_>],
) -> Result<(), RelocErr>
    requires some { 1 ≤ reloc.now.kind }
    requires most { reloc.now.kind ≤ 7 }
    requires within { reloc.now.section < length sections.old }
    requires room { reloc.now.offset + 4 ≤ section_size_at sections.old reloc.now.section }
    ensures refusal { (all : List GlobalData) → addresses.now ≡ symbol_addresses all placed.now
        → MatchResult result (λ _. reloc_error all placed.now reloc.now ≡ None)
        (λ err. reloc_error all placed.now reloc.now ≡ Some err) }
    ensures written { OnOk result ((all : List GlobalData)
        → addresses.now ≡ symbol_addresses all placed.now
        → sections.new ≡ sections_after_reloc all placed.now sections.old reloc.now) }
    ensures shapes { OnOk result (map section_shape sections.new ≡ map section_shape sections.old) }
{
    let place = address_in_section(&placed.bases, reloc.section, reloc.offset);
    let value = reloc_value(addresses, reloc);
    apply_reloc_to_section(&mut sections[reloc.section as usize], reloc, place, value)
}

// Applies a relocation to its section: writes `value`, the symbol's address plus the addend, into
// the field at address `place`. The error says why the value doesn't fit.
fn apply_reloc_to_section(
    section: &mut WrittenSection<'_>,
    reloc: &Reloc,
    place: u32,
    value: u32,
) -> Result<(), RelocErr>
    requires some { 1 ≤ reloc.now.kind }
    requires most { reloc.now.kind ≤ 7 }
    requires room { reloc.now.offset + 4 ≤ length section.old.bytes }
    ensures refusal { MatchResult result
        (λ _. reloc_value_refusal reloc.now.kind place value ≡ None)
        (λ err. reloc_value_refusal reloc.now.kind place value ≡ Some err) }
    ensures written { OnOk result
        (section.new ≡ section_with_filled_field reloc.now place value section.old) }
{
    let at = reloc.offset as usize;
    let field = apply(reloc.kind, reloc_field_at(&section.bytes, at), place, value)?;
    write_reloc_field(&mut section.bytes, at, field);
    Ok(())
}

/// Returns the four bytes of a relocation's field, at offset `at` of the section's bytes.
fn reloc_field_at(bytes: &[u8], at: usize) -> [u8; 4]
    requires { at + 4 ≤ length bytes.now }
    ensures { result ≡ reloc_field_at bytes.now at }
{
    [bytes[at], bytes[at + 1], bytes[at + 2], bytes[at + 3]]
}

/// Writes the four bytes of a relocation's field at offset `at` of the section's bytes.
fn write_reloc_field(bytes: &mut [u8], at: usize, field: [u8; 4])
    requires { at + 4 ≤ length bytes.old }
    ensures { bytes.new ≡ section_bytes_with_field bytes.old at field }
{
    bytes[at..at + 4].copy_from_slice(&field);
}
