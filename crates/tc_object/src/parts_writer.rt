// Writes an object in its one spelling.
ghost use Rattle.std.specs.Prelude.{◌≡◌, ◌≤◌, ◌<◌, ◌^◌, ◌++◌, length, OnOk};
ghost use Rattle.std.specs.List.{All, flat_map};
ghost use Rattle.tc_object.specs.Spelling.{bytes_of_name, bytes_of_section, bytes_of_symbol, bytes_of_reloc};

use crate::{Reloc, Section, Symbol};
use tcd_base::{NoMemory, put_u16, put_u32};

/// Appends all sections of an object to the object file `out`: of each the name, the length, and
/// the bytes.
pub(crate) fn write_sections(out: &mut Vec<u8>, sections: &[Section]) -> Result<(), NoMemory>
    requires names { All (λ s. length s.name ≤ 64) sections.now }
    requires small { All (λ s. length s.bytes < 2 ^ 32) sections.now }
    ensures { OnOk result
        (out.new.items ≡ out.old.items ++ flat_map bytes_of_section sections.now) }
{
    for section in sections {
        write_section(out, section)?;
    }
    Ok(())
}

/// Appends all symbols of an object to the object file `out`: of each the name, kind, section and
/// offset.
pub(crate) fn write_symbols(out: &mut Vec<u8>, symbols: &[Symbol]) -> Result<(), NoMemory>
    requires { All (λ s. length s.name ≤ 64) symbols.now }
    ensures { OnOk result (out.new.items ≡ out.old.items ++ flat_map bytes_of_symbol symbols.now) }
{
    for symbol in symbols {
        write_symbol(out, symbol)?;
    }
    Ok(())
}

/// Appends all relocations of an object to the object file `out`: of each the section, offset,
/// kind, symbol and addend.
pub(crate) fn write_relocs(out: &mut Vec<u8>, relocs: &[Reloc]) -> Result<(), NoMemory>
    ensures { OnOk result (out.new.items ≡ out.old.items ++ flat_map bytes_of_reloc relocs.now) }
{
    for reloc in relocs {
        write_reloc(out, reloc)?;
    }
    Ok(())
}

/// Appends a section to the object file `out`: its name, its length, and its bytes.
#[tactic(auto, unfolding(crate::specs::Spelling::bytes_of_section))]
fn write_section(out: &mut Vec<u8>, section: &Section) -> Result<(), NoMemory>
    requires name { length section.now.name ≤ 64 }
    requires small { length section.now.bytes < 2 ^ 32 }
    ensures { OnOk result (out.new.items ≡ out.old.items ++ bytes_of_section section.now) }
{
    write_name(out, section.name.as_str())?;
    put_u32(out, section.bytes.len() as u32)?;
    out.extend_from_slice(&section.bytes)?;
    Ok(())
}

/// Appends a name to the object file `out`: its length in one byte, and its bytes.
#[tactic(auto, unfolding(crate::specs::Spelling::bytes_of_name))]
fn write_name(out: &mut Vec<u8>, name: &str) -> Result<(), NoMemory>
    requires { length name.now ≤ 64 }
    ensures { OnOk result (out.new.items ≡ out.old.items ++ bytes_of_name name.now) }
{
    out.push(name.len() as u8)?;
    out.extend_from_slice(name.as_bytes())?;
    Ok(())
}

/// Appends a symbol to the object file `out`: its name, kind, section and offset.
#[tactic(auto, unfolding(crate::specs::Spelling::bytes_of_symbol))]
fn write_symbol(out: &mut Vec<u8>, symbol: &Symbol) -> Result<(), NoMemory>
    requires { length symbol.now.name ≤ 64 }
    ensures { OnOk result (out.new.items ≡ out.old.items ++ bytes_of_symbol symbol.now) }
{
    write_name(out, symbol.name.as_str())?;
    out.push(symbol.kind)?;
    put_u16(out, symbol.section)?;
    put_u32(out, symbol.offset)
}

/// Appends a relocation to the object file `out`: its section, offset, kind, symbol and addend.
#[tactic(auto, unfolding(crate::specs::Spelling::bytes_of_reloc))]
fn write_reloc(out: &mut Vec<u8>, reloc: &Reloc) -> Result<(), NoMemory>
    ensures { OnOk result (out.new.items ≡ out.old.items ++ bytes_of_reloc reloc.now) }
{
    put_u16(out, reloc.section)?;
    put_u32(out, reloc.offset)?;
    out.push(reloc.kind)?;
    put_u16(out, reloc.symbol)?;
    put_u32(out, reloc.addend)
}
