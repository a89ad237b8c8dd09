// Reads a whole object: the header, the sections, the symbols and the relocations.
ghost use Rattle.std.specs.Prelude.{◌≡◌, ◌≤◌, ◌^◌, length, Ok, IfOk, IfErr};
ghost use Rattle.tc_object.specs.Faults.{IsFaultOf};
ghost use Rattle.tc_object.specs.Grammar.{object_of};

use crate::fields::read_magic;
use crate::reloc_reader::read_relocs;
use crate::section_reader::{read_section_count, read_sections};
use crate::symbol_reader::read_symbols;
use crate::{ObjErr, Reloc, SectionRef, SymbolRef};
use std::alloc::Global;
use tcd_base::{FileCursor, TRAILING, form_err_at, read_u16};

/// What the bytes of an object hold, with names and bytes borrowed.
#[derive(Drop)]
pub(crate) struct Parts<'a> {
    pub(crate) sections: Vec<SectionRef<'a>>,
    pub(crate) symbols: Vec<SymbolRef<'a>>,
    pub(crate) relocs: Vec<Reloc>,
}

/// The sections, symbols and relocations that the bytes spell, or their first fault.
#[tactic(auto, unfolding(crate::specs::Grammar::object_of, crate::specs::Grammar::object_at, crate::specs::Grammar::object_contents_at))]
pub(crate) fn read_object_file(alloc: Global, bytes: &[u8]) -> Result<Parts<'_>, ObjErr>
    requires { length bytes.now ≤ 2 ^ 30 }
    ensures ok { IfOk result
        (λ o. object_of bytes.now ≡ Ok (record {
          sections = o.sections.items;
          symbols = o.symbols.items;
          relocs = o.relocs.items;
        })) }
    ensures err { IfErr result (IsFaultOf (object_of bytes.now)) }
{
    let mut c = FileCursor::new(bytes);
    let _magic = read_magic(&mut c)?;
    let section_count = read_section_count(&mut c)?;
    let symbol_count = read_u16(&mut c)?;
    let reloc_count = read_u16(&mut c)?;
    let sections = read_sections(alloc, &mut c, section_count)?;
    let symbols = read_symbols(alloc, &mut c, &sections, symbol_count)?;
    let relocs = read_relocs(alloc, &mut c, &sections, symbol_count, reloc_count)?;
    let end = c.place();
    if end != bytes.len() {
        return Err(ObjErr::Bad(form_err_at(TRAILING, end)));
    }
    Ok(Parts {
        sections,
        symbols,
        relocs,
    })
}
