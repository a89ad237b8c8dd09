// Readers of symbols.
ghost use Rattle.std.specs.Prelude.{◌≡◌, ◌≤◌, ◌+◌, ◌^◌, ◌||◌, [], ℕ, List, length, slice_index, Ok, Err, Some, None, IfOk, IfErr, MatchResult};
ghost use Rattle.tcd_base.specs.Bytes.{half_in_bytes, word_in_bytes};
ghost use Rattle.std.specs.Str.{bytes_eq};
ghost use Rattle.tcd_base.specs.FieldReaders.{ReadsField, many_fields_at};
ghost use Rattle.tc_object.specs.Faults.{IsFaultOf, symbol_fault};
ghost use Rattle.tc_object.specs.Objects.{is_valid_symbol_section, is_valid_symbol_offset};
ghost use Rattle.tc_object.specs.Grammar.{symbol_section_at, symbol_offset_at, symbol_after_name, symbol_with_new_name, new_symbol_at};
ghost use Rattle.tc_object.specs.Used.{is_used_name};

use crate::fields::{is_kind_between, read_kind};
use crate::section_reader::section_size_at;
use crate::used_names::{empty_used_names, read_new_name};
use crate::{GLOBAL_SYMBOL, ObjErr, SectionRef, SymbolRef, UNDEFINED_SYMBOL};
use std::alloc::Global;
use std::collections::HashMap;
use tcd_base::{BAD_VALUE, FileCursor, FormErr, form_err_at, read_u16, read_u32};

// The size of a symbol's kind, section and offset in the file.
const SYMBOL_BYTES: usize = 7;

/// Reads `count` symbols of an object file with these sections, or returns the first fault. A name
/// that an earlier symbol has is a fault.
#[inline(never)]
pub(crate) fn read_symbols<'a>(
    alloc: Global,
    c: &mut FileCursor<'a>,
    sections: &[SectionRef<'_>],
    count: u16,
) -> Result<Vec<SymbolRef<'a>>, ObjErr>
    ensures ok { IfOk result
        (λ ss. many_fields_at (new_symbol_at sections.now) count [] c.old ≡ Ok (ss.items, c.new)) }
    ensures err { IfErr result
        (IsFaultOf (many_fields_at (new_symbol_at sections.now) count [] c.old)) }
{
    let mut names = empty_used_names(alloc, count)?;
    let mut symbols = Vec::with_capacity(alloc, count as usize)?;
    for _i in 0..count {
        let symbol = read_symbol(c, sections, &mut names)?;
        symbols.push(symbol)?;
    }
    Ok(symbols)
}

/// Reads the next symbol of an object file with these sections, and adds its name to `names`, those
/// of earlier symbols. A name that is there already is a fault.
#[tactic(auto, unfolding(crate::specs::Grammar::symbol_with_new_name))]
fn read_symbol<'a>(
    c: &mut FileCursor<'a>,
    sections: &[SectionRef<'_>],
    names: &mut HashMap<&'a str, ()>,
) -> Result<SymbolRef<'a>, ObjErr>
    ensures ok { IfOk result
        (λ s. symbol_with_new_name sections.now (is_used_name names.old) c.old ≡ Ok (s, c.new)) }
    ensures err { IfErr result
        (IsFaultOf (symbol_with_new_name sections.now (is_used_name names.old) c.old)) }
    ensures names { IfOk result (λ s. (q : List ℕ) → is_used_name names.new q
        ≡ (bytes_eq s.name q || is_used_name names.old q)) }
{
    let name = read_new_name(c, names)?;
    let symbol = read_symbol_after_name(c, sections, name)?;
    Ok(symbol)
}

/// Reads the kind, section and offset of the symbol of this name, from 7 bytes at once if the file
/// holds all of them. `sections` are the object's.
fn read_symbol_after_name<'a>(
    c: &mut FileCursor<'_>,
    sections: &[SectionRef<'_>],
    name: &'a str,
) -> Result<SymbolRef<'a>, FormErr>
    ensures read { ReadsField result c.old c.new (symbol_after_name sections.now name.now) }
    ensures name { IfOk result (λ s. s.name ≡ name.now) }
{
    let start = c.place();
    let Some(bytes) = c.take(SYMBOL_BYTES) else {
        return read_symbol_fields(c, sections, name);
    };
    let symbol = symbol_in_bytes(bytes, name);
    check_symbol(sections, &symbol, start)?;
    Ok(symbol)
}

/// Reads the kind, section and offset of the symbol of this name, field by field. If the file ends
/// within the symbol, the fault is at the first field that is cut off.
#[inline(never)]
#[tactic(auto, unfolding(crate::specs::Grammar::symbol_after_name))]
fn read_symbol_fields<'a>(
    c: &mut FileCursor<'_>,
    sections: &[SectionRef<'_>],
    name: &'a str,
) -> Result<SymbolRef<'a>, FormErr>
    ensures read { ReadsField result c.old c.new (symbol_after_name sections.now name.now) }
    ensures name { IfOk result (λ s. s.name ≡ name.now) }
{
    let kind = read_kind(c, UNDEFINED_SYMBOL, GLOBAL_SYMBOL)?;
    let section = read_symbol_section(c, sections, kind)?;
    let offset = read_symbol_offset(c, sections, kind, section)?;
    Ok(SymbolRef {
        name,
        kind,
        section,
        offset,
    })
}

// Returns the symbol of this name whose kind, section and offset these 7 bytes of an object file
// hold, unchecked.
fn symbol_in_bytes<'a>(bytes: &[u8], name: &'a str) -> SymbolRef<'a>
    requires { length bytes.now ≡ 7 }
    ensures { result ≡ record {
      name = name.now;
      kind = slice_index bytes.now 0;
      section = half_in_bytes bytes.now 1;
      offset = word_in_bytes bytes.now 3;
    } }
{
    SymbolRef {
        name,
        kind: bytes[0],
        section: u16::from_le_bytes([bytes[1], bytes[2]]),
        offset: u32::from_le_bytes([bytes[3], bytes[4], bytes[5], bytes[6]]),
    }
}

// Checks a symbol of an object with these sections, or returns the symbol's first fault. Its kind
// is at the byte offset `start` of the file.
#[tactic(auto, unfolding(crate::specs::Faults::symbol_fault))]
fn check_symbol(
    sections: &[SectionRef<'_>],
    symbol: &SymbolRef<'_>,
    start: usize,
) -> Result<(), FormErr>
    requires { start + 7 ≤ 2 ^ 30 }
    ensures { MatchResult result (λ _. symbol_fault sections.now symbol.now start ≡ None)
        (λ e. symbol_fault sections.now symbol.now start ≡ Some e) }
{
    if !is_kind_between(UNDEFINED_SYMBOL, GLOBAL_SYMBOL, symbol.kind) {
        return Err(form_err_at(BAD_VALUE, start));
    }
    if !is_valid_symbol_section(sections, symbol.kind, symbol.section) {
        return Err(form_err_at(BAD_VALUE, start + 1));
    }
    if !is_valid_symbol_offset(sections, symbol.kind, symbol.section, symbol.offset) {
        return Err(form_err_at(BAD_VALUE, start + 3));
    }
    Ok(())
}

/// Reads the section number of a symbol of this kind: 0 for an undefined symbol, else that of one
/// of these sections. Another number is the fault `BAD_VALUE`.
#[tactic(auto, unfolding(crate::specs::Grammar::symbol_section_at))]
fn read_symbol_section(
    c: &mut FileCursor<'_>,
    sections: &[SectionRef<'_>],
    kind: u8,
) -> Result<u16, FormErr>
    ensures { ReadsField result c.old c.new (symbol_section_at sections.now kind) }
{
    let start = c.place();
    let section = read_u16(c)?;
    if !is_valid_symbol_section(sections, kind, section) {
        return Err(form_err_at(BAD_VALUE, start));
    }
    Ok(section)
}

/// Reads the offset of a symbol in its section: 0 for an undefined symbol, else at most the
/// section's size. Another offset is the fault `BAD_VALUE`.
#[tactic(auto, unfolding(crate::specs::Grammar::symbol_offset_at))]
fn read_symbol_offset(
    c: &mut FileCursor<'_>,
    sections: &[SectionRef<'_>],
    kind: u8,
    section: u16,
) -> Result<u32, FormErr>
    ensures { ReadsField result c.old c.new (symbol_offset_at sections.now kind section) }
{
    let start = c.place();
    let offset = read_u32(c)?;
    if !is_valid_symbol_offset(sections, kind, section, offset) {
        return Err(form_err_at(BAD_VALUE, start));
    }
    Ok(offset)
}

// Returns true if `section` is 0 for an undefined symbol, else the number of one of these sections.
fn is_valid_symbol_section(sections: &[SectionRef<'_>], kind: u8, section: u16) -> bool
    ensures { result ≡ is_valid_symbol_section sections.now kind section }
{
    match kind {
        UNDEFINED_SYMBOL => section == 0,
        _ => (section as usize) < sections.len(),
    }
}

// Returns true if `offset` is 0 for an undefined symbol, else in the symbol's section or at its
// end.
fn is_valid_symbol_offset(sections: &[SectionRef<'_>], kind: u8, section: u16, offset: u32) -> bool
    ensures { result ≡ is_valid_symbol_offset sections.now kind section offset }
{
    match kind {
        UNDEFINED_SYMBOL => offset == 0,
        _ => offset as usize <= section_size_at(sections, section),
    }
}
