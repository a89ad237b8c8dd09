// Lists an image: its sections, with a line for each instruction.
ghost use Rattle.std.specs.Prelude.{◌≡◌, ◌++◌, ◌≤◌, ◌+◌, ◌^◌, length, IfOk, OnOk, string_bytes, IsTrue, map};
ghost use Rattle.std.specs.List.{list_all};
ghost use Rattle.elf_image.specs.Images.{segment_data, is_segment};
ghost use Rattle.tc_disasm.specs.Listing.{section_text, listing_sections_from, listing_of};
ghost use Rattle.tc_disasm.specs.LentSegments.{borrowed_segment_data};

use crate::lines::append_listing;
use crate::ordering::segments_in_listing_order;
use crate::texts::append_listing_decimal;
use elf_image::{Image, Segment};
use std::alloc::Global;
use tcd_base::NoMemory;
use tcd_text::{append_hex_word, append_str};

/// The listing of an image.
///
/// For each segment, in ascending order of addresses, it has a line `.section` with the section's
/// number and address. After it is a line for each instruction, with its address and bytes. Bytes
/// that are no instruction are `.half`, or `.byte` for a single last one. Each line ends with a
/// line feed.
///
/// The time is linear in the size of the image.
#[tactic(auto, unfolding(crate::specs::Listing::listing_of))]
pub fn listing(alloc: Global, image: &Image) -> Result<String, NoMemory>
    ensures { IfOk result (λ text. string_bytes text ≡ listing_of image.now) }
{
    let mut text = String::new(alloc);
    let sorted = segments_in_listing_order(alloc, &image.segments)?;
    append_sections(&mut text, &sorted)?;
    Ok(text)
}

// Appends the sections of a listing, one for each segment in the given order, numbered from 0.
fn append_sections(text: &mut String, segments: &[&Segment]) -> Result<(), NoMemory>
    requires few { length segments.now ≤ 64 }
    requires segments { IsTrue (list_all is_segment (map borrowed_segment_data segments.now)) }
    ensures { OnOk result (string_bytes text.new ≡ string_bytes text.old
        ++ listing_sections_from 0 (map borrowed_segment_data segments.now)) }
{
    for i in 0..segments.len() {
        append_section(text, i as u32, segments[i])?;
    }
    Ok(())
}

/// Appends section `number` of a listing: its first line, and those of the segment's bytes.
#[tactic(auto, unfolding(crate::specs::Listing::section_text, crate::specs::Listing::listing_section_line))]
fn append_section(text: &mut String, number: u32, segment: &Segment) -> Result<(), NoMemory>
    requires { segment.now.at + length segment.now.bytes.items ≤ 2 ^ 32 }
    ensures { OnOk result
        (string_bytes text.new
        ≡ string_bytes text.old ++ section_text number (segment_data segment.now)) }
{
    append_str(text, ".section s")?;
    append_listing_decimal(text, number)?;
    append_str(text, " # ")?;
    append_hex_word(text, segment.at)?;
    append_str(text, "\n")?;
    append_listing(text, segment.at, &segment.bytes)
}
