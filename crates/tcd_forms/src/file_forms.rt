// The forms of input files, from executables to objects.
use crate::error_lines::{
    bad_cert_line, bad_elf_line, bad_layout_line, bad_object_line, bad_plan_line, bad_script_line,
    bad_source_line, cert_too_long_line, copy_printed_line, elf_too_long_line,
    layout_too_long_line, object_too_long_line, plan_too_long_line, script_too_long_line,
    source_too_long_line,
};
use bumpalo::Bump;
use depth_cert::CertErr;
use elf_image::Image;
use packed_cert::Cert;
use std::alloc::Global;
use std::marker::Model;
use tc_asm::{AsmErr, assemble};
use tc_link::Layout;
use tc_object::{ObjErr, Object, ObjectRef};
use tc_script::Script;
use tcd_base::NoMemory;
use tcd_plan::Plan;
use tcd_reading::{Form, Stop, bad_input_stop};

/// The most bytes of a file other than a certificate.
pub const LIMIT: u32 = 16_777_216;

// The most bytes of a certificate.
const CERT_LIMIT: u32 = 1_073_741_824;

/// An executable.
#[derive(Clone, Copy)]
pub struct ElfFile;

impl Form for ElfFile {
    ghost use Rattle.tcd_forms.specs.Forms.{elf_form};

    type Out = Image;

    ghost form = { λ _. elf_form };

    ghost Fits = { λ _ _. Unit {0} };

    /// The most bytes of an executable's file.
    fn limit(&self) -> u32 {
        LIMIT
    }

    /// Copies the line that is printed for an executable above the size limit.
    fn too_long_line(&self, alloc: Global) -> Result<Vec<u8>, NoMemory> {
        copy_printed_line(alloc, elf_too_long_line())
    }

    /// Reads the executable in these bytes. `Err` has the line on a fault, or no memory.
    fn parse(&self, alloc: Global, bytes: Vec<u8>) -> Result<Image, Stop> {
        match Image::read(alloc, &bytes) {
            Ok(image) => Ok(image),
            Err(e) => Err(bad_input_stop(bad_elf_line(alloc, e))),
        }
    }
}

/// A plan.
#[derive(Clone, Copy)]
pub struct PlanFile;

impl Form for PlanFile {
    ghost use Rattle.tcd_forms.specs.Forms.{plan_form};

    type Out = Plan;

    ghost form = { λ _. plan_form };

    ghost Fits = { λ _ _. Unit {0} };

    /// The most bytes of a plan's file.
    fn limit(&self) -> u32 {
        LIMIT
    }

    /// Copies the line that is printed for a plan above the size limit.
    fn too_long_line(&self, alloc: Global) -> Result<Vec<u8>, NoMemory> {
        copy_printed_line(alloc, plan_too_long_line())
    }

    /// Reads the plan in these bytes. `Err` has the line on a fault, or no memory.
    fn parse(&self, alloc: Global, bytes: Vec<u8>) -> Result<Plan, Stop> {
        match Plan::read(alloc, &bytes) {
            Ok(plan) => Ok(plan),
            Err(e) => Err(bad_input_stop(bad_plan_line(alloc, e))),
        }
    }
}

/// A certificate, which keeps the bytes of its file.
#[derive(Clone, Copy)]
pub struct CertFile;

impl Form for CertFile {
    ghost use Rattle.tcd_forms.specs.Forms.{cert_form};

    type Out = Cert;

    ghost form = { λ _. cert_form };

    ghost Fits = { λ _ _. Unit {0} };

    /// The most bytes of a certificate's file.
    fn limit(&self) -> u32 {
        CERT_LIMIT
    }

    /// Copies the line that is printed for a certificate above the size limit.
    fn too_long_line(&self, alloc: Global) -> Result<Vec<u8>, NoMemory> {
        copy_printed_line(alloc, cert_too_long_line())
    }

    /// Reads the certificate in these bytes. `Err` has the line on a fault, or no memory.
    fn parse(&self, alloc: Global, bytes: Vec<u8>) -> Result<Cert, Stop> {
        match Cert::read(alloc, bytes) {
            Ok(cert) => Ok(cert),
            Err(CertErr::Bad(e)) => Err(bad_input_stop(bad_cert_line(alloc, e))),
            Err(CertErr::NoMemory) => Err(Stop::NoMemory),
        }
    }
}

/// A turn script for a plan.
#[derive(Clone, Copy)]
pub struct ScriptFile<'a> {
    /// The plan of the machine that the script drives.
    pub plan: &'a Plan,
}

impl<'a> Form for ScriptFile<'a> {
    ghost use Rattle.tc_script.specs.ScriptsFitPlans.{FitsPlan};
    ghost use Rattle.tcd_forms.specs.Forms.{script_form};

    type Out = Script;

    ghost form = { λ f. script_form f.plan.now };

    ghost Fits = { λ f script. FitsPlan f.plan.now script };

    /// The most bytes of a turn script's file.
    fn limit(&self) -> u32 {
        LIMIT
    }

    /// Copies the line that is printed for a turn script above the size limit.
    fn too_long_line(&self, alloc: Global) -> Result<Vec<u8>, NoMemory> {
        copy_printed_line(alloc, script_too_long_line())
    }

    /// Reads the turn script in these bytes. `Err` has the line on a fault, or no memory.
    fn parse(&self, alloc: Global, bytes: Vec<u8>) -> Result<Script, Stop> {
        match Script::read(alloc, &bytes, self.plan) {
            Ok(script) => Ok(script),
            Err(e) => Err(bad_input_stop(bad_script_line(alloc, e))),
        }
    }
}

/// A single source, whose value is its object.
#[derive(Clone, Copy)]
pub struct SourceFile;

impl Form for SourceFile {
    ghost use Rattle.tcd_forms.specs.Forms.{source_form};

    type Out = Object;

    ghost form = { λ _. source_form };

    ghost Fits = { λ _ _. Unit {0} };

    /// The most bytes of a source's file.
    fn limit(&self) -> u32 {
        LIMIT
    }

    /// Returns the line that is printed for a source above the size limit.
    fn too_long_line(&self, alloc: Global) -> Result<Vec<u8>, NoMemory> {
        source_too_long_line(alloc, 0)
    }

    /// Assembles the source in these bytes. `Err` has the line on a broken rule, or no memory.
    fn parse(&self, alloc: Global, bytes: Vec<u8>) -> Result<Object, Stop> {
        match assemble(alloc, &bytes) {
            Ok(object) => Ok(object),
            Err(AsmErr::Bad { line, rule }) => {
                Err(bad_input_stop(bad_source_line(alloc, 0, rule, line)))
            }
            Err(AsmErr::NoMemory) => Err(Stop::NoMemory),
        }
    }
}

/// The value of a source among several: its text and its object.
#[derive(Drop)]
pub struct Source {
    /// The bytes of the source.
    pub text: Vec<u8>,
    /// The object that it is assembled to.
    pub object: Object,
}

impl Model for Source {
    ghost use Rattle.tcd_forms.specs.Forms.{IsSource, SourceData};

    ghost Value = { SourceData };

    ghost view = { λ s. record { text = s.text.items; object = s.object } };

    ghost invariant = { λ s. IsSource s.text.items s.object };
}

/// A source among several, with its place among them.
#[derive(Clone, Copy)]
pub struct PlacedSourceFile {
    /// The place among the sources, from 0.
    pub place: u32,
}

impl Form for PlacedSourceFile {
    ghost use Rattle.tcd_forms.specs.Forms.{numbered_source_form};

    type Out = Source;

    ghost form = { λ f. numbered_source_form f.place };

    ghost Fits = { λ _ _. Unit {0} };

    /// The most bytes of a source's file.
    fn limit(&self) -> u32 {
        LIMIT
    }

    /// Returns the line for a source above the size limit, with its number among the sources.
    fn too_long_line(&self, alloc: Global) -> Result<Vec<u8>, NoMemory> {
        source_too_long_line(alloc, self.place)
    }

    /// Assembles the source in these bytes. `Err` has the line on a broken rule, or no memory.
    fn parse(&self, alloc: Global, bytes: Vec<u8>) -> Result<Source, Stop> {
        match assemble(alloc, &bytes) {
            Ok(object) => Ok(Source {
                text: bytes,
                object,
            }),
            Err(AsmErr::Bad { line, rule }) => {
                Err(bad_input_stop(bad_source_line(alloc, self.place, rule, line)))
            }
            Err(AsmErr::NoMemory) => Err(Stop::NoMemory),
        }
    }
}

/// A layout.
#[derive(Clone, Copy)]
pub struct LayoutFile;

impl Form for LayoutFile {
    ghost use Rattle.tcd_forms.specs.Forms.{layout_form};

    type Out = Layout;

    ghost form = { λ _. layout_form };

    ghost Fits = { λ _ _. Unit {0} };

    /// The most bytes of a layout's file.
    fn limit(&self) -> u32 {
        LIMIT
    }

    /// Copies the line that is printed for a layout above the size limit.
    fn too_long_line(&self, alloc: Global) -> Result<Vec<u8>, NoMemory> {
        copy_printed_line(alloc, layout_too_long_line())
    }

    /// Reads the layout in these bytes. `Err` has the line on a fault, or no memory.
    fn parse(&self, alloc: Global, bytes: Vec<u8>) -> Result<Layout, Stop> {
        match Layout::read(alloc, &bytes) {
            Ok(layout) => Ok(layout),
            Err(e) => Err(bad_input_stop(bad_layout_line(alloc, e))),
        }
    }
}

/// An object among several, with its place among them. Its bytes are kept in the arena.
#[derive(Clone, Copy)]
pub struct ObjectFile<'a> {
    /// The place among the objects, from 0.
    pub place: u32,
    /// The arena that keeps the bytes.
    pub arena: &'a Bump,
}

impl<'a> Form for ObjectFile<'a> {
    ghost use Rattle.tcd_forms.specs.Forms.{object_form};

    type Out = ObjectRef<'a>;

    ghost form = { λ f. object_form f.place };

    ghost Fits = { λ _ _. Unit {0} };

    /// The most bytes of an object's file.
    fn limit(&self) -> u32 {
        LIMIT
    }

    /// Returns the line for an object above the size limit, with its number among the objects.
    fn too_long_line(&self, alloc: Global) -> Result<Vec<u8>, NoMemory> {
        object_too_long_line(alloc, self.place)
    }

    /// Keeps these bytes in the arena, and reads the object in them. `Err` has the line on a
    /// fault, or no memory.
    fn parse(&self, alloc: Global, bytes: Vec<u8>) -> Result<ObjectRef<'a>, Stop> {
        let Ok(kept) = self.arena.try_alloc_slice_copy(&bytes) else {
            return Err(Stop::NoMemory);
        };
        match ObjectRef::read(alloc, kept) {
            Ok(object) => Ok(object),
            Err(ObjErr::Bad(e)) => Err(bad_input_stop(bad_object_line(alloc, self.place, e))),
            Err(ObjErr::NoMemory) => Err(Stop::NoMemory),
        }
    }
}
