// Joins sections to the segments of an image.
ghost use Rattle.std.specs.Prelude.{◌≡◌, ◌++◌, map, OnOk, IfOk, IfErr};
ghost use Rattle.elf_image.specs.Images.{segment_data};
ghost use Rattle.tc_link.specs.Segments.{segments_of, with_segment_padding};
ghost use Rattle.tc_link.specs.declared.errors.LinkErr.TheVariants.{NoMemory};

use crate::layouts::find_place;
use crate::written_sections::WrittenSection;
use crate::{Layout, LinkErr};
use elf_image::Segment;
use std::alloc::Global;

static ZEROS: [u8; 4] = [0, 0, 0, 0];

/// Returns the segments of the linked image: one for each of the layout's places that has bytes of
/// these relocated sections.
#[tactic(auto, unfolding(crate::specs::Segments::joined_sections))]
pub(crate) fn segments_of(
    alloc: Global,
    layout: &Layout,
    sections: &[WrittenSection<'_>],
) -> Result<Vec<Segment>, LinkErr>
    ensures ok { IfOk result (λ segments. map segment_data segments.items
        ≡ segments_of layout.now.places sections.now) }
    ensures err { IfErr result (λ e. e ≡ NoMemory) }
{
    let mut segments = Vec::with_capacity(alloc, layout.places.len())?;
    for place in &layout.places {
        let bytes = Vec::new(alloc);
        segments.push(Segment {
            at: place.at,
            bytes,
        })?;
    }
    let mut near = 0;
    for section in sections {
        if let Some(place) = find_place(layout, section.name, near) {
            append_section(&mut segments[place].bytes, &section.bytes)?;
            near = place + 1;
        }
    }
    segments.retain(|segment| !segment.bytes.is_empty());
    Ok(segments)
}

// Appends a section to the bytes of a segment, at the next multiple of 4, with zeros in the gap.
fn append_section(bytes: &mut Vec<u8>, section: &[u8]) -> Result<(), LinkErr>
    ensures ok { OnOk result (bytes.new.items
        ≡ with_segment_padding bytes.old.items ++ section.now) }
    ensures err { IfErr result (λ e. e ≡ NoMemory) }
{
    let gap = (4 - bytes.len() % 4) % 4;
    bytes.extend_from_slice(&ZEROS[..gap])?;
    bytes.extend_from_slice(section)?;
    Ok(())
}
