// Readers of relocations.
ghost use Rattle.std.specs.Prelude.{◌≡◌, ◌≤◌, ◌+◌, ◌^◌, [], length, slice_index, Ok, Err, Some, None, IfOk, IfErr, MatchResult};
ghost use Rattle.tcd_base.specs.Bytes.{half_in_bytes, word_in_bytes};
ghost use Rattle.tcd_base.specs.FieldReaders.{ReadsField, many_fields_at};
ghost use Rattle.tc_object.specs.Faults.{IsFaultOf, reloc_fault};
ghost use Rattle.tc_object.specs.Objects.{section_size_at, last_reloc, is_after_last_reloc};
ghost use Rattle.tc_object.specs.Grammar.{is_reloc_section_ordered, reloc_section_at, reloc_offset_at, reloc_symbol_at, next_reloc_at};

use crate::fields::{is_kind_between, read_kind};
use crate::section_reader::section_size_at;
use crate::{ObjErr, Reloc, SectionRef};
use std::alloc::Global;
use tcd_base::{BAD_ORDER, BAD_VALUE, FileCursor, FormErr, form_err_at, read_u16, read_u32};

// The least kind of relocations.
const FIRST_KIND: u8 = 1;

// The greatest kind of relocations.
const LAST_KIND: u8 = 7;

// The size of a relocation in the file.
const RELOC_BYTES: usize = 13;

/// Reads `count` relocations of an object file with these sections, in ascending order of section
/// and offset, or returns the first fault. `symbols` is the number of symbols.
#[inline(never)]
pub(crate) fn read_relocs(
    alloc: Global,
    c: &mut FileCursor<'_>,
    sections: &[SectionRef<'_>],
    symbols: u16,
    count: u16,
) -> Result<Vec<Reloc>, ObjErr>
    ensures ok { IfOk result
        (λ rs. many_fields_at (next_reloc_at sections.now symbols) count [] c.old
        ≡ Ok (rs.items, c.new)) }
    ensures err { IfErr result
        (IsFaultOf (many_fields_at (next_reloc_at sections.now symbols) count [] c.old)) }
{
    let mut relocs = Vec::with_capacity(alloc, count as usize)?;
    for _i in 0..count {
        let reloc = read_reloc(c, sections, symbols, &relocs)?;
        relocs.push(reloc)?;
    }
    Ok(relocs)
}

/// Reads the relocation after those in `before`, from its 13 bytes at once if all are there.
/// `symbols` is the number of symbols.
fn read_reloc(
    c: &mut FileCursor<'_>,
    sections: &[SectionRef<'_>],
    symbols: u16,
    before: &[Reloc],
) -> Result<Reloc, FormErr>
    ensures { ReadsField result c.old c.new (next_reloc_at sections.now symbols before.now) }
{
    let start = c.place();
    let Some(bytes) = c.take(RELOC_BYTES) else {
        return read_reloc_fields(c, sections, symbols, before);
    };
    let reloc = reloc_in_bytes(bytes);
    check_reloc(sections, symbols, before, &reloc, start)?;
    Ok(reloc)
}

/// Reads the relocation after those in `before`, field by field. If the file ends within the
/// relocation, the fault is at the first field that is cut off. `symbols` is the number of symbols.
#[inline(never)]
#[tactic(auto, unfolding(crate::specs::Grammar::next_reloc_at))]
fn read_reloc_fields(
    c: &mut FileCursor<'_>,
    sections: &[SectionRef<'_>],
    symbols: u16,
    before: &[Reloc],
) -> Result<Reloc, FormErr>
    ensures { ReadsField result c.old c.new (next_reloc_at sections.now symbols before.now) }
{
    let start = c.place();
    let section = read_reloc_section(c, sections, before)?;
    let offset = read_reloc_offset(c, sections, before, section, start)?;
    let kind = read_kind(c, FIRST_KIND, LAST_KIND)?;
    let symbol = read_reloc_symbol(c, symbols)?;
    let addend = read_u32(c)?;
    Ok(Reloc {
        section,
        offset,
        kind,
        symbol,
        addend,
    })
}

// Returns the relocation that these 13 bytes of an object file hold, unchecked.
fn reloc_in_bytes(bytes: &[u8]) -> Reloc
    requires { length bytes.now ≡ 13 }
    ensures { result ≡ record {
      section = half_in_bytes bytes.now 0;
      offset = word_in_bytes bytes.now 2;
      kind = slice_index bytes.now 6;
      symbol = half_in_bytes bytes.now 7;
      addend = word_in_bytes bytes.now 9;
    } }
{
    Reloc {
        section: u16::from_le_bytes([bytes[0], bytes[1]]),
        offset: u32::from_le_bytes([bytes[2], bytes[3], bytes[4], bytes[5]]),
        kind: bytes[6],
        symbol: u16::from_le_bytes([bytes[7], bytes[8]]),
        addend: u32::from_le_bytes([bytes[9], bytes[10], bytes[11], bytes[12]]),
    }
}

// Checks a relocation that comes after those in `before`, or returns its first fault. Its bytes
// begin at offset `start` of the file. `symbols` is the number of symbols.
#[tactic(auto, unfolding(crate::specs::Faults::reloc_fault))]
fn check_reloc(
    sections: &[SectionRef<'_>],
    symbols: u16,
    before: &[Reloc],
    reloc: &Reloc,
    start: usize,
) -> Result<(), FormErr>
    requires { start + 13 ≤ 2 ^ 30 }
    ensures { MatchResult result
        (λ _. reloc_fault sections.now symbols before.now reloc.now start ≡ None)
        (λ e. reloc_fault sections.now symbols before.now reloc.now start ≡ Some e) }
{
    if !is_reloc_section_ordered(before, reloc.section) {
        return Err(form_err_at(BAD_ORDER, start));
    }
    if reloc.section as usize >= sections.len() {
        return Err(form_err_at(BAD_VALUE, start));
    }
    if !is_after_last_reloc(before, reloc.section, reloc.offset) {
        return Err(form_err_at(BAD_ORDER, start));
    }
    if reloc.offset as usize + 4 > section_size_at(sections, reloc.section) {
        return Err(form_err_at(BAD_VALUE, start + 2));
    }
    if !is_kind_between(FIRST_KIND, LAST_KIND, reloc.kind) {
        return Err(form_err_at(BAD_VALUE, start + 6));
    }
    if reloc.symbol >= symbols {
        return Err(form_err_at(BAD_VALUE, start + 7));
    }
    Ok(())
}

/// Reads the section number of the relocation after those in `before`. A number below the last
/// one's is the fault `BAD_ORDER`, one of no section `BAD_VALUE`.
#[tactic(auto, unfolding(crate::specs::Grammar::reloc_section_at))]
fn read_reloc_section(
    c: &mut FileCursor<'_>,
    sections: &[SectionRef<'_>],
    before: &[Reloc],
) -> Result<u16, FormErr>
    ensures { ReadsField result c.old c.new (reloc_section_at sections.now before.now) }
{
    let start = c.place();
    let section = read_u16(c)?;
    if !is_reloc_section_ordered(before, section) {
        return Err(form_err_at(BAD_ORDER, start));
    }
    if section as usize >= sections.len() {
        return Err(form_err_at(BAD_VALUE, start));
    }
    Ok(section)
}

/// Reads the offset of a relocation in its section. If relocations aren't in ascending order, the
/// fault is at `section_at`, the byte offset of the relocation's first field.
#[tactic(auto, unfolding(crate::specs::Grammar::reloc_offset_at))]
fn read_reloc_offset(
    c: &mut FileCursor<'_>,
    sections: &[SectionRef<'_>],
    before: &[Reloc],
    section: u16,
    section_at: usize,
) -> Result<u32, FormErr>
    requires { section_at ≤ 2 ^ 30 }
    ensures { ReadsField result c.old c.new
        (reloc_offset_at sections.now before.now section
        (record { bytes = c.old.bytes; place = section_at })) }
{
    let start = c.place();
    let offset = read_u32(c)?;
    if !is_after_last_reloc(before, section, offset) {
        return Err(form_err_at(BAD_ORDER, section_at));
    }
    if offset as usize + 4 > section_size_at(sections, section) {
        return Err(form_err_at(BAD_VALUE, start));
    }
    Ok(offset)
}

/// Reads the number of a relocation's symbol. A number that isn't below `symbols`, the number of
/// symbols, is the fault `BAD_VALUE`.
#[tactic(auto, unfolding(crate::specs::Grammar::reloc_symbol_at))]
fn read_reloc_symbol(c: &mut FileCursor<'_>, symbols: u16) -> Result<u16, FormErr>
    ensures { ReadsField result c.old c.new (reloc_symbol_at symbols) }
{
    let start = c.place();
    let symbol = read_u16(c)?;
    if symbol >= symbols {
        return Err(form_err_at(BAD_VALUE, start));
    }
    Ok(symbol)
}

// Returns true if `section` isn't below the section of the last relocation in `before`, or there is
// none.
fn is_reloc_section_ordered(before: &[Reloc], section: u16) -> bool
    ensures { result ≡ is_reloc_section_ordered (last_reloc before.now) section }
{
    match before.last() {
        None => true,
        Some(last) => last.section <= section,
    }
}

// Returns true if `section` and `offset` come after those of the last relocation in `before`, or
// there is none.
fn is_after_last_reloc(before: &[Reloc], section: u16, offset: u32) -> bool
    ensures { result ≡ is_after_last_reloc (last_reloc before.now) section offset }
{
    match before.last() {
        None => true,
        Some(last) => last.section < section || (last.section == section && last.offset < offset),
    }
}
