// Objects that own their names and bytes, with the invariant of each object.
use crate::fields::MAGIC;
use crate::parts_writer::{write_relocs, write_sections, write_symbols};
use crate::{ObjErr, ObjectRef, Reloc, Section, Symbol};
use std::alloc::Global;
use std::marker::Model;
use tcd_base::{put_u16, put_u32};

/// An object file: sections, symbols for offsets in them, and relocations in ascending order of
/// section and offset. At most 64 sections, 65,535 symbols and 65,535 relocations. Names have 1 to
/// 64 bytes; no two sections share a name, and no two symbols do.
#[derive(Drop)]
pub struct Object {
    /// The sections, at most 64.
    pub sections: Vec<Section>,
    /// The symbols, at most 65,535.
    pub symbols: Vec<Symbol>,
    /// The relocations, at most 65,535, in ascending order of section and offset.
    pub relocs: Vec<Reloc>,
}

impl Model for Object {
    ghost use Rattle.tc_object.specs.Objects.{ObjectData, IsObject};

    ghost Value = { ObjectData };

    ghost view = { λ o. record { sections = o.sections.items; symbols = o.symbols.items; relocs = o.relocs.items } };

    ghost invariant = { λ o. IsObject (record { sections = o.sections.items; symbols = o.symbols.items; relocs = o.relocs.items }) };
}

impl Object {
    ghost use Rattle.std.specs.Prelude.{◌≡◌, ◌≤◌, ◌^◌, length, Ok, IfOk, IfErr};
    ghost use Rattle.tc_object.specs.declared.errors.ObjErr.TheVariants.{NoMemory};
    ghost use Rattle.tc_object.specs.Faults.{IsFaultOf};
    ghost use Rattle.tc_object.specs.Grammar.{object_of};
    ghost use Rattle.tc_object.specs.Spelling.{bytes_of_object};

    /// Parses the bytes of an object file into an `Object` that owns its names and contents. An
    /// error has the first fault of the bytes.
    pub fn read(alloc: Global, bytes: &[u8]) -> Result<Object, ObjErr>
        requires { length bytes.now ≤ 2 ^ 30 }
        ensures ok { IfOk result (λ o. object_of bytes.now ≡ Ok o) }
        ensures err { IfErr result (IsFaultOf (object_of bytes.now)) }

        // each object has exactly one spelling
        ensures one { IfOk result (λ o. bytes_of_object o ≡ bytes.now) }
    {
        let object = ObjectRef::read(alloc, bytes)?;
        Ok(object.into_object(alloc)?)
    }

    /// Returns the bytes of the object file with these sections, symbols and relocations.
    /// `Object::read` gives the object back.
    #[tactic(auto, unfolding(crate::specs::Spelling::bytes_of_object, crate::specs::Spelling::bytes_of_header))]
    pub fn write(&self, alloc: Global) -> Result<Vec<u8>, ObjErr>
        ensures bytes { IfOk result (λ out. out.items ≡ bytes_of_object self.now) }
        ensures again { IfOk result (λ out. object_of out.items ≡ Ok self.now) }
        ensures err { IfErr result (λ e. e ≡ NoMemory) }
    {
        let mut out = Vec::new(alloc);
        put_u32(&mut out, MAGIC)?;
        put_u16(&mut out, self.sections.len() as u16)?;
        put_u16(&mut out, self.symbols.len() as u16)?;
        put_u16(&mut out, self.relocs.len() as u16)?;
        write_sections(&mut out, &self.sections)?;
        write_symbols(&mut out, &self.symbols)?;
        write_relocs(&mut out, &self.relocs)?;
        Ok(out)
    }
}
