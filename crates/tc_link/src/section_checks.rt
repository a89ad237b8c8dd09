// Checks that sections have places.
ghost use Rattle.std.specs.Prelude.{◌≡◌, None, OnOk, IfOk, IfErr};
ghost use Rattle.std.specs.Option.{option_map};
ghost use Rattle.tc_link.specs.Refusals.{no_place, no_place_refusal, first_no_place_refusal, first_refusal_over};
ghost use Rattle.tc_link.specs.Errors.{IsRefusal};
ghost use Rattle.tc_link.specs.declared.errors.LinkErr.TheVariants.{NoMemory};

use crate::layouts::find_place;
use crate::symbol_checks::set_flag;
use crate::{Layout, LinkErr};
use std::alloc::Global;
use tc_object::{ObjectRef, UNDEFINED_SYMBOL};

/// Checks that each section with bytes, or with a symbol, has a place in the layout. The error is
/// `NoPlace` for the first section that has none.
pub(crate) fn check_section_places(
    alloc: Global,
    layout: &Layout,
    objects: &[ObjectRef<'_>],
) -> Result<(), LinkErr>
    ensures ok { OnOk result (first_no_place_refusal layout.now.places objects.now ≡ None) }
    ensures err { IfErr result (IsRefusal (first_no_place_refusal layout.now.places objects.now)) }
{
    for object in objects {
        if let Some(name) = first_unplaced_section(alloc, layout, object)? {
            return Err(LinkErr::NoPlace(String::from_str(alloc, name)?));
        }
    }
    Ok(())
}

// Returns the name of the first section of an object with bytes or a symbol, but without a memory
// region (place); or None.
fn first_unplaced_section<'a>(
    alloc: Global,
    layout: &Layout,
    object: &ObjectRef<'a>,
) -> Result<Option<&'a str>, LinkErr>
    ensures ok { IfOk result (λ found.
        first_refusal_over (no_place_refusal layout.now.places object.now.symbols)
        object.now.sections ≡ option_map (λ name. no_place name.now) found) }
    ensures err { IfErr result (λ e. e ≡ NoMemory) }
{
    let mut held = vec![in alloc; false; object.sections.len()]?;
    for symbol in &object.symbols {
        if symbol.kind != UNDEFINED_SYMBOL {
            set_flag(&mut held, symbol.section as usize);
        }
    }
    let mut near = 0;
    for (number, section) in object.sections.iter().enumerate() {
        if let Some(place) = find_place(layout, section.name, near) {
            near = place + 1;
        } else if !section.bytes.is_empty() || held[number] {
            return Ok(Some(section.name));
        }
    }
    Ok(None)
}
