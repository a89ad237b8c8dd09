// Links objects to an image.
ghost use Rattle.std.specs.Prelude.{◌≡◌, ◌≤◌, ◌<◌, length, Ok, IfOk, IfErr};
ghost use Rattle.tc_link.specs.Segments.{segments_of};
ghost use Rattle.tc_link.specs.Linked.{image_of_objects};
ghost use Rattle.tc_link.specs.Placing.{placed_in_layout};
ghost use Rattle.tc_link.specs.Relocated.{all_relocated_sections};
ghost use Rattle.tc_link.specs.Errors.{IsRefusalOf};

use crate::addresses::global_symbol_address;
use crate::global_symbols::globals_by_name;
use crate::placed::place_objects;
use crate::relocated_sections::all_relocated_sections;
use crate::section_checks::check_section_places;
use crate::segments::segments_of;
use crate::symbol_checks::{check_duplicate_symbols, check_missing_symbols};
use crate::{Layout, LinkErr};
use elf_image::{Image, establish_segment_bytes};
use std::alloc::Global;
use tc_object::{Object, ObjectRef};

/// Links objects that borrow their names and bytes: returns their image in this layout, or the
/// first refusal, as `link` does.
pub fn link_borrowed(
    alloc: Global,
    objects: &[ObjectRef<'_>],
    layout: &Layout,
) -> Result<Image, LinkErr>
    requires { length objects.now ≤ 65535 }
    ensures ok { IfOk result (λ image. image_of_objects objects.now layout.now ≡ Ok image) }
    ensures err { IfErr result (IsRefusalOf (image_of_objects objects.now layout.now)) }
{
    let names = globals_by_name(alloc, objects)?;
    check_duplicate_symbols(alloc, &names, objects)?;
    check_missing_symbols(alloc, &names, objects)?;
    check_section_places(alloc, layout, objects)?;
    let placed = place_objects(alloc, layout, objects)?;
    let contents = all_relocated_sections(alloc, &names, &placed)?;
    let Some(entry) = global_symbol_address(&names, &placed, layout.entry.as_str()) else {
        return Err(LinkErr::NoEntry);
    };
    let segments = segments_of(alloc, layout, &contents)?;
    establish_segment_bytes(&segments);
    Ok(Image { entry, segments })
}

/// The image of objects in this layout, or the first refusal.
///
/// The sections of one name are in their place one after another, in the order of the objects. Each
/// begins at a multiple of 4, and the gaps are zero. Each place with bytes becomes one segment, in
/// the order of the layout.
pub fn link(alloc: Global, objects: &[Object], layout: &Layout) -> Result<Image, LinkErr>
    requires { length objects.now ≤ 65535 }
    ensures ok { IfOk result (λ image. image_of_objects objects.now layout.now ≡ Ok image) }
    ensures err { IfErr result (IsRefusalOf (image_of_objects objects.now layout.now)) }
{
    let mut parts = Vec::with_capacity(alloc, objects.len())?;
    for object in objects {
        parts.push(ObjectRef::of(alloc, object)?)?;
    }
    link_borrowed(alloc, &parts, layout)
}
