// Readers of sections.
ghost use Rattle.std.specs.Prelude.{◌≡◌, [], Ok, Err, IfOk, IfErr, MatchResult, Some, None};
ghost use Rattle.tc_object.specs.Faults.{IsFaultOf};
ghost use Rattle.tcd_base.specs.FieldReaders.{ReadsField, many_fields_at};
ghost use Rattle.tc_object.specs.Objects.{is_section_name, section_size_at};
ghost use Rattle.tc_object.specs.Grammar.{new_object_name_at, new_section_at, section_count_at};

use crate::fields::MOST_SECTIONS;
use crate::names::{read_name_bytes, read_name_length};
use crate::{ObjErr, SectionRef};
use std::alloc::Global;
use tcd_base::{
    ABOVE_LIMIT, BAD_VALUE, FileCursor, FormErr, form_err_at, read_bytes, read_u16, read_u32,
};

/// Reads `count` sections of an object file, each with a name that no earlier one has, or returns
/// the first fault.
pub(crate) fn read_sections<'a>(
    alloc: Global,
    c: &mut FileCursor<'a>,
    count: u16,
) -> Result<Vec<SectionRef<'a>>, ObjErr>
    ensures ok { IfOk result (λ ss. many_fields_at new_section_at count [] c.old
        ≡ Ok (ss.items, c.new)) }
    ensures err { IfErr result (IsFaultOf (many_fields_at new_section_at count [] c.old)) }
{
    let mut sections = Vec::with_capacity(alloc, count as usize)?;
    for _i in 0..count {
        let section = read_section(c, &sections)?;
        sections.push(section)?;
    }
    Ok(sections)
}

/// Reads the number of sections. More than 64 are the fault `ABOVE_LIMIT`.
#[tactic(auto, unfolding(crate::specs::Grammar::section_count_at))]
pub(crate) fn read_section_count(c: &mut FileCursor<'_>) -> Result<u16, FormErr>
    ensures { ReadsField result c.old c.new section_count_at }
{
    let start = c.place();
    let count = read_u16(c)?;
    if count > MOST_SECTIONS {
        return Err(form_err_at(ABOVE_LIMIT, start));
    }
    Ok(count)
}

/// Returns the length in bytes of the section with this number, among those that the reader has
/// read, and 0 if there is none.
pub(crate) fn section_size_at(sections: &[SectionRef<'_>], number: u16) -> usize
    ensures { result ≡ section_size_at sections.now number }
{
    match sections.get(number as usize) {
        Some(section) => section.bytes.len(),
        None => 0,
    }
}

/// Reads the next section of an object file. A name that one of the sections in `before` has is a
/// fault.
#[tactic(auto, unfolding(crate::specs::Grammar::new_section_at, crate::specs::Grammar::section_with_new_name))]
fn read_section<'a>(
    c: &mut FileCursor<'a>,
    before: &[SectionRef<'_>],
) -> Result<SectionRef<'a>, FormErr>
    ensures { ReadsField result c.old c.new (new_section_at before.now) }
{
    let name = read_section_name(c, before)?;
    let size = read_u32(c)?;
    let bytes = read_bytes(c, size as usize)?;
    Ok(SectionRef { name, bytes })
}

/// Reads the name of a section. A name that one of the sections in `before` has is the fault
/// `BAD_VALUE`.
#[tactic(auto, unfolding(crate::specs::Grammar::new_object_name_at))]
fn read_section_name<'a>(c: &mut FileCursor<'a>, before: &[SectionRef]) -> Result<&'a str, FormErr>
    ensures read { MatchResult result
        (λ name. new_object_name_at (is_section_name before.now) c.old ≡ Ok (name.now, c.new))
        (λ e. new_object_name_at (is_section_name before.now) c.old ≡ Err e) }
    ensures bytes { c.new.bytes ≡ c.old.bytes }
{
    let count = read_name_length(c)?;
    let start = c.place();
    let name = read_name_bytes(c, count)?;
    if is_section_name(before, name) {
        return Err(form_err_at(BAD_VALUE, start));
    }
    Ok(name)
}

// Returns true if one of these sections has the name. A linear search is enough, as there are at
// most 64.
fn is_section_name(sections: &[SectionRef<'_>], name: &str) -> bool
    ensures { result ≡ is_section_name sections.now name.now }
{
    sections.iter().any(|section| name == section.name)
}
