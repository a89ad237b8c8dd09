// Assembles the listing of an image.
ghost use Rattle.std.specs.Prelude.{◌≡◌, IfOk, IfErr};
ghost use Rattle.tc_asm.specs.declared.errors.AsmErr.TheVariants.{NoMemory};
ghost use Rattle.tc_disasm.specs.Assembled.{HoldsSegments};

use crate::images::listing;
use elf_image::Image;
use std::alloc::Global;
use tc_asm::{AsmErr, assemble};
use tc_object::Object;

/// Assembles the listing of an image. The object's sections have the bytes of the image's segments,
/// in ascending order of addresses; the only possible error is out of memory.
pub fn reassemble(alloc: Global, image: &Image) -> Result<Object, AsmErr>
    ensures holds { IfOk result (λ o. HoldsSegments image.now.segments o) }
    ensures never { IfErr result (λ e. e ≡ NoMemory) }
{
    // A look at a field tells the prover the invariant of the image.
    let _entry = image.entry;
    match listing(alloc, image) {
        Ok(text) => assemble(alloc, text.as_bytes()),
        Err(_) => Err(AsmErr::NoMemory),
    }
}
