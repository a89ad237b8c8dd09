// An instruction and its address.
ghost use Rattle.std.specs.Prelude.{◌<◌, Some, IfSome};
ghost use Rattle.cfg_recover.specs.Code.{FindsShapeAndSize, HasShapeInBounds};

use crate::local_rules::Located;
use crate::rom_code::code_at;
use elf_image::Image;
use tc_isa::{Inst, shape};
use tcd_plan::Plan;

/// An instruction, its address, and its size in bytes.
#[derive(Clone, Copy)]
pub(crate) struct InstAt<'a> {
    pub(crate) addr: u32,
    pub(crate) inst: &'a Inst,
    pub(crate) size: u32,
}

/// Decodes the instruction at an address: returns its shape and size, or `None` if rom has no
/// instruction there.
#[inline(never)]
pub(crate) fn decode_at(image: &Image, plan: &Plan, addr: u32) -> Option<Located>
    ensures code { FindsShapeAndSize image.now plan.now addr result }
    ensures shape { IfSome result HasShapeInBounds }
{
    let (inst, size) = code_at(image, plan, addr)?;
    Some(Located {
        shape: shape(&inst),
        size,
    })
}
