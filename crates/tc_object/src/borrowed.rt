// Objects that borrow their names and bytes.
ghost use Rattle.std.specs.Prelude.{◌≡◌, IfOk};

use crate::reading::read_object_file;
use crate::{ObjErr, Object, Reloc, Section, SectionRef, Symbol, SymbolRef};
use std::alloc::Global;
use std::marker::Model;
use tcd_base::NoMemory;

/// An object that borrows its names and bytes, from another object or from the bytes of a file.
#[derive(Drop)]
pub struct ObjectRef<'a> {
    /// The sections, at most 64.
    pub sections: Vec<SectionRef<'a>>,
    /// The symbols, at most 65,535.
    pub symbols: Vec<SymbolRef<'a>>,
    /// The relocations, at most 65,535, in ascending order of section and offset.
    pub relocs: Vec<Reloc>,
}

impl<'a> Model for ObjectRef<'a> {
    ghost use Rattle.tc_object.specs.Objects.{ObjectData, IsObject};

    ghost Value = { ObjectData };

    ghost view = { λ o. record { sections = o.sections.items; symbols = o.symbols.items; relocs = o.relocs.items } };

    ghost invariant = { λ o. IsObject (record { sections = o.sections.items; symbols = o.symbols.items; relocs = o.relocs.items }) };
}

impl<'a> ObjectRef<'a> {
    ghost use Rattle.std.specs.Prelude.{◌≡◌, ◌≤◌, ◌^◌, length, Ok, IfOk, IfErr};
    ghost use Rattle.tc_object.specs.Faults.{IsFaultOf};
    ghost use Rattle.tc_object.specs.Grammar.{object_of};
    ghost use Rattle.tc_object.specs.Spelling.{bytes_of_object};

    /// Parses the bytes of an object file. The `ObjectRef` borrows its names and contents from
    /// them; an error has their first fault.
    pub fn read(alloc: Global, bytes: &'a [u8]) -> Result<ObjectRef<'a>, ObjErr>
        requires { length bytes.now ≤ 2 ^ 30 }
        ensures ok { IfOk result (λ o. object_of bytes.now ≡ Ok o) }
        ensures err { IfErr result (IsFaultOf (object_of bytes.now)) }

        // each object has exactly one spelling
        ensures one { IfOk result (λ o. bytes_of_object o ≡ bytes.now) }
    {
        let parts = read_object_file(alloc, bytes)?;
        Ok(ObjectRef {
            sections: parts.sections,
            symbols: parts.symbols,
            relocs: parts.relocs,
        })
    }

    /// Returns the `ObjectRef` that borrows the names and contents of this object.
    pub fn of(alloc: Global, object: &'a Object) -> Result<ObjectRef<'a>, NoMemory>
        ensures { IfOk result (λ o. o ≡ object.now) }
    {
        let sections = borrow_sections(alloc, &object.sections)?;
        let symbols = borrow_symbols(alloc, &object.symbols)?;
        let relocs = Vec::from_slice(alloc, &object.relocs)?;
        Ok(ObjectRef {
            sections,
            symbols,
            relocs,
        })
    }

    /// Copies the names and bytes into an object that owns them.
    pub(crate) fn into_object(self, alloc: Global) -> Result<Object, NoMemory>
        ensures { IfOk result (λ o. o ≡ self.entry) }
    {
        let ObjectRef {
            sections,
            symbols,
            relocs,
        } = self;
        let own_sections = copy_sections(alloc, &sections)?;
        let own_symbols = copy_symbols(alloc, &symbols)?;
        Ok(Object {
            sections: own_sections,
            symbols: own_symbols,
            relocs,
        })
    }
}

// Borrows the name and the bytes of each section of an object.
fn borrow_sections(alloc: Global, sections: &[Section]) -> Result<Vec<SectionRef<'_>>, NoMemory>
    ensures { IfOk result (λ parts. parts.items ≡ sections.now) }
{
    let mut parts = Vec::with_capacity(alloc, sections.len())?;
    for section in sections {
        parts.push(SectionRef {
            name: section.name.as_str(),
            bytes: section.bytes.as_slice(),
        })?;
    }
    Ok(parts)
}

// Borrows the name of each symbol of an object.
fn borrow_symbols(alloc: Global, symbols: &[Symbol]) -> Result<Vec<SymbolRef<'_>>, NoMemory>
    ensures { IfOk result (λ parts. parts.items ≡ symbols.now) }
{
    let mut parts = Vec::with_capacity(alloc, symbols.len())?;
    for symbol in symbols {
        parts.push(SymbolRef {
            name: symbol.name.as_str(),
            kind: symbol.kind,
            section: symbol.section,
            offset: symbol.offset,
        })?;
    }
    Ok(parts)
}

// Copies the names and bytes of each section.
fn copy_sections(alloc: Global, sections: &[SectionRef<'_>]) -> Result<Vec<Section>, NoMemory>
    ensures { IfOk result (λ copies. copies.items ≡ sections.now) }
{
    let mut copies = Vec::with_capacity(alloc, sections.len())?;
    for section in sections {
        let name = String::from_str(alloc, section.name)?;
        let bytes = Vec::from_slice(alloc, section.bytes)?;
        copies.push(Section { name, bytes })?;
    }
    Ok(copies)
}

// Copies the name of each symbol.
fn copy_symbols(alloc: Global, symbols: &[SymbolRef<'_>]) -> Result<Vec<Symbol>, NoMemory>
    ensures { IfOk result (λ copies. copies.items ≡ symbols.now) }
{
    let mut copies = Vec::with_capacity(alloc, symbols.len())?;
    for symbol in symbols {
        let name = String::from_str(alloc, symbol.name)?;
        copies.push(Symbol {
            name,
            kind: symbol.kind,
            section: symbol.section,
            offset: symbol.offset,
        })?;
    }
    Ok(copies)
}
