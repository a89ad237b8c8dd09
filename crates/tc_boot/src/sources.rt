// Prints the boot sequence as an assembler source.
ghost use Rattle.std.specs.Prelude.{◌≡◌, ◌≤◌, ◌+◌, ◌^◌, IfOk, string_bytes};
ghost use Rattle.tc_disasm.specs.Listing.{listing_of};
ghost use Rattle.tc_boot.specs.Sequence.{boot_image_of};

use crate::bytes::boot_bytes;
use elf_image::{Image, Segment, establish_segment_bytes};
use std::alloc::Global;
use tc_disasm::listing;
use tcd_base::NoMemory;
use tcd_plan::Plan;

/// Returns the boot sequence of a plan and an entry address as an assembler source: the listing of
/// an image with only the sequence, at `at`.
pub fn boot_source(alloc: Global, plan: &Plan, entry: u32, at: u32) -> Result<String, NoMemory>
    requires { at + 224 ≤ 2 ^ 32 }
    ensures { IfOk result (λ text. string_bytes text
        ≡ listing_of (boot_image_of plan.now entry at)) }
{
    let bytes = Vec::from_slice(alloc, &boot_bytes(plan, entry))?;
    let mut segments = Vec::new(alloc);
    segments.push(Segment { at, bytes })?;
    establish_segment_bytes(&segments);
    let image = Image {
        entry: at,
        segments,
    };
    listing(alloc, &image)
}
