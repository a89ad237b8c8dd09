// Gives the sections of objects their addresses.
ghost use Rattle.std.specs.Prelude.{◌≡◌, [], IfOk, IfErr, None};
ghost use Rattle.tc_link.specs.Placing.{AreValidObjects, placed_after, sections_to_link};
ghost use Rattle.tc_link.specs.Refusals.{first_no_room_refusal};
ghost use Rattle.tc_link.specs.Errors.{IsRefusal};

use crate::layouts::find_place;
use crate::{Layout, LinkErr};
use std::alloc::Global;
use std::marker::Model;
use tc_object::ObjectRef;

// The most bytes of an image.
const MOST_BYTES: u64 = 0x100_0000;

/// An object, and the address of each of its sections.
#[derive(Drop)]
pub(crate) struct Placed<'a, 'b> {
    pub(crate) object: &'a ObjectRef<'b>,
    pub(crate) bases: Vec<u64>,
}

impl<'a, 'b> Model for Placed<'a, 'b> {
    ghost use Rattle.tc_link.specs.Placing.{PlacedData};

    ghost Value = { PlacedData };

    ghost view = { λ p. record { object = p.object.now; bases = p.bases.items } };
}

/// Places the sections of all objects in the layout's places (memory regions). Returns the objects
/// with their sections' addresses, or `NoRoom` for the first section that doesn't fit. Each section
/// begins at a multiple of 4.
pub(crate) fn place_objects<'a, 'b>(
    alloc: Global,
    layout: &Layout,
    objects: &'a [ObjectRef<'b>],
) -> Result<Vec<Placed<'a, 'b>>, LinkErr>
    ensures placed { IfOk result
        (λ placed. placed.items ≡ placed_after layout.now.places [] objects.now) }
    ensures good { IfOk result (λ _. AreValidObjects objects.now) }
    ensures room { IfOk result
        (λ _. first_no_room_refusal layout.now.places [] (sections_to_link objects.now) ≡ None) }
    ensures err { IfErr result
        (IsRefusal (first_no_room_refusal layout.now.places [] (sections_to_link objects.now))) }
{
    let mut sizes = vec![in alloc; 0u64; layout.places.len()]?;
    let mut total = 0u64;
    let mut near = 0;
    let mut placed = Vec::with_capacity(alloc, objects.len())?;
    for object in objects {
        let mut bases = Vec::with_capacity(alloc, object.sections.len())?;
        for section in &object.sections {
            let Some(i) = find_place(layout, section.name, near) else {
                bases.push(0)?;
                continue;
            };
            near = i + 1;
            let place = &layout.places[i];
            let used = sizes[i];
            let from = (used + 3) / 4 * 4;
            bases.push(u64::from(place.at) + from)?;
            let size = from + section.bytes.len() as u64;
            sizes[i] = size;
            total += size - used;
            if size > u64::from(place.most) || total > MOST_BYTES {
                return Err(LinkErr::NoRoom(String::from_str(alloc, section.name)?));
            }
        }
        placed.push(Placed { object, bases })?;
    }
    Ok(placed)
}
