// Turns a draft into an object.
ghost use Rattle.std.specs.Prelude.{◌≡◌, ◌<◌, ◌++◌, ◌+◌, ◌^◌, map, length, All, IfOk, OnOk, is_some, true, string_bytes, ◌≤◌};
ghost use Rattle.tc_object.specs.Names.{object_name_of};
ghost use Rattle.tc_asm.specs.DraftViews.{use_of, draft_section_of};
ghost use Rattle.tc_asm.specs.Objects.{section_of, symbol_of, reloc_of, object_of_draft, relocs_of_all_sections};
ghost use Rattle.tc_asm.specs.Symbols.{symbol};
ghost use Rattle.tc_asm.specs.DraftInvariants.{IsWellFormedDraft, LabelPlaceFitsObject};

use crate::draft::Draft;
use crate::sections::{Part, Use, section_len};
use crate::symbols::{Entry, Symbols};
use std::alloc::{AllocError, Global};
use tc_object::{
    GLOBAL_SYMBOL, LOCAL_SYMBOL, Object, Reloc, Section, Symbol, UNDEFINED_SYMBOL, object_name_of,
};

/// Makes the object's symbols from `known`, the draft's table of symbols, in the same order.
pub(crate) fn emit_symbols(alloc: Global, known: &Symbols) -> Result<Vec<Symbol>, AllocError>
    requires names { All (λ s. is_some (object_name_of s.name) ≡ true) known.now }
    requires small { All (λ s. LabelPlaceFitsObject s.entry.place) known.now }
    ensures { IfOk result (λ v. v.items ≡ map symbol_of known.now) }
{
    let mut out = Vec::new(alloc);
    for i in 0..known.len() {
        let (name, entry) = known.at(i);
        let made = emit_symbol(alloc, name, entry)?;
        out.push(made)?;
    }
    Ok(out)
}

/// Adds to `out` the relocations for these uses of the symbols `known` in section `section`.
pub(crate) fn emit_section_relocs(
    out: &mut Vec<Reloc>,
    known: &Symbols,
    section: usize,
    uses: &[Use<'_>],
) -> Result<(), AllocError>
    requires symbols { length known.now < 2 ^ 16 }
    requires section { section < 2 ^ 16 }
    requires offsets { All (λ u. u.offset < 2 ^ 32) uses.now }
    ensures { OnOk result
        (out.new.items ≡ out.old.items ++ map (reloc_of known.now section) (map use_of uses.now)) }
{
    for i in 0..uses.len() {
        out.push(emit_reloc(known, section, uses[i]))?;
    }
    Ok(())
}

/// Makes the object of a draft: its sections, its symbols, and one relocation for each use of a
/// symbol.
pub(crate) fn emit_object(alloc: Global, draft: Draft<'_>) -> Result<Object, AllocError>
    requires { IsWellFormedDraft draft }
    ensures { IfOk result (λ o. o ≡ object_of_draft draft.entry) }
{
    let sections = emit_sections(alloc, &draft.parts)?;
    let symbols = emit_symbols(alloc, &draft.symbols)?;
    let relocs = emit_relocs(alloc, &draft.symbols, &draft.parts)?;
    Ok(Object {
        sections,
        symbols,
        relocs,
    })
}

/// The object's relocations, one for each use of the symbols `known` in the sections `parts`.
pub(crate) fn emit_relocs(
    alloc: Global,
    known: &Symbols,
    parts: &[Part],
) -> Result<Vec<Reloc>, AllocError>
    requires symbols { length known.now < 2 ^ 16 }
    requires few { length parts.now ≤ 64 }
    requires offsets { All (λ p. All (λ u. u.offset < 2 ^ 32) p.uses.items) parts.now }
    ensures { IfOk result (λ v. v.items
        ≡ relocs_of_all_sections known.now (map draft_section_of parts.now)) }
{
    let mut out = Vec::new(alloc);
    for i in 0..parts.len() {
        emit_section_relocs(&mut out, known, i, &parts[i].uses)?;
    }
    Ok(out)
}

/// The object's symbol for this name and entry of the draft: undefined, local or global.
fn emit_symbol(alloc: Global, name: &[u8], entry: Entry) -> Result<Symbol, AllocError>
    requires name { is_some (object_name_of name.now) ≡ true }
    requires small { LabelPlaceFitsObject entry.place }
    ensures { IfOk result (λ s. s ≡ symbol_of (symbol name.now entry)) }
{
    let name = emit_name(alloc, name)?;
    match entry.place {
        None => Ok(Symbol {
            name,
            kind: UNDEFINED_SYMBOL,
            section: 0,
            offset: 0,
        }),
        Some(place) => Ok(Symbol {
            name,
            kind: if entry.is_global {
                GLOBAL_SYMBOL
            } else {
                LOCAL_SYMBOL
            },
            section: place.section as u16,
            offset: place.offset as u32,
        }),
    }
}

// Copies the name of a section or symbol of the draft into a string that the object owns.
fn emit_name(alloc: Global, name: &[u8]) -> Result<String, AllocError>
    requires { is_some (object_name_of name.now) ≡ true }
    ensures { IfOk result (λ s. string_bytes s ≡ name.now) }
{
    String::from_str(alloc, object_name_of(name).unwrap())
}

/// Makes the relocation for a use `u` of a symbol in the section of this number. Its addend is what
/// the source adds to the symbol, modulo 2^32. `known` is the draft's table of symbols.
fn emit_reloc(known: &Symbols, section: usize, u: Use<'_>) -> Reloc
    requires symbols { length known.now < 2 ^ 16 }
    requires section { section < 2 ^ 16 }
    requires offset { u.offset < 2 ^ 32 }
    ensures { result ≡ reloc_of known.now section (use_of u.entry) }
{
    let r = u.reference;
    Reloc {
        section: section as u16,
        offset: u.offset as u32,
        kind: r.kind,
        symbol: known.number(r.name) as u16,
        addend: if r.minus {
            r.size.wrapping_neg()
        } else {
            r.size
        },
    }
}

/// Makes the object's sections from those of the draft, in the same order.
fn emit_sections(alloc: Global, parts: &[Part]) -> Result<Vec<Section>, AllocError>
    requires { All (λ p. is_some (object_name_of p.name.now) ≡ true) parts.now }
    ensures { IfOk result (λ v. v.items ≡ map section_of (map draft_section_of parts.now)) }
{
    let mut out = Vec::new(alloc);
    for i in 0..parts.len() {
        let part = &parts[i];
        let name = emit_name(alloc, part.name)?;
        let bytes = emit_section_bytes(alloc, part)?;
        out.push(Section { name, bytes })?;
    }
    Ok(out)
}

/// Copies the bytes of a draft's section for the object. The zeros at its end, of which the draft
/// keeps only the number, are written out.
fn emit_section_bytes(alloc: Global, part: &Part) -> Result<Vec<u8>, AllocError>
    ensures { IfOk result (λ v. v.items ≡ (draft_section_of part.now).bytes) }
{
    let mut bytes = Vec::from_slice(alloc, &part.bytes)?;
    bytes.resize(section_len(part), 0)?;
    Ok(bytes)
}
