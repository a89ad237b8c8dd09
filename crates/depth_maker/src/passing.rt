// Fast path: points whose instruction only passes the state on. Their successor shares it if it is
// new, and a nop takes some 400 instructions less of `cert`.
ghost use Rattle.std.specs.Prelude.{IsTrue, IfSome};
ghost use Rattle.frame_places.specs.declared.places.Spot.TheVariants.{Point};
ghost use Rattle.depth_maker.specs.SharedStates.{IsLocatedShapeInBounds, LocatesInstructionIfAny, MayShareState, JoinsBySharing, PassesStateTo};
ghost use Rattle.depth_maker.specs.TableInvariant.{TableInvariantHoldsForInputs};
ghost use Rattle.depth_maker.specs.Visits.{IsVisitedPlace};

use crate::inputs_and_limits::Site;
use crate::interrupt_contexts::has_covering_context_for_ccpn;
use crate::join_place::add_place_if_new;
use crate::spelling::ccpn_fits_byte;
use crate::table::Table;
use cfg_recover::direct_target;
use frame_places::{Refusal, Spot};
use std::alloc::Global;
use tc_isa::Shape;

/// Fast path of a visit: adds an unknown successor of a nop or direct jump with a copy of its
/// state, and returns true. If that isn't possible, joins nothing and returns false.
pub(crate) fn share_state(alloc: Global, table: &mut Table, site: &Site) -> Result<bool, Refusal>
    requires fine { TableInvariantHoldsForInputs site.now.ground.now table.old }
    requires near { IsVisitedPlace table.old (Point site.now.key site.now.addr) }
    requires code { LocatesInstructionIfAny site.now }
    requires shape { IsLocatedShapeInBounds site.now }
    ensures { JoinsBySharing site.now table.old table.new result }
{
    let Some(to) = unchanged_state_successor(site) else {
        return Ok(false);
    };
    if !may_share_state(&*table, site) {
        return Ok(false);
    }
    let Some((_, own)) = table.places.get_index(table.near) else {
        unreachable!();
    };
    let value = own.value.copy()?;
    match add_place_if_new(table, Spot::Point(site.key, to), value)? {
        None => Ok(true),
        Some(_) => Ok(false),
    }
}

/// Returns the only successor of an instruction that changes no state, a nop or a jump to one
/// address, or None for others.
#[inline(always)]
fn unchanged_state_successor(site: &Site) -> Option<u32>
    requires code { LocatesInstructionIfAny site.now }
    requires shape { IsLocatedShapeInBounds site.now }
    ensures { IfSome result
        (PassesStateTo site.now.ground.now.image.now site.now.ground.now.plan.now site.now.addr) }
{
    let Some(found) = site.located else {
        return None;
    };
    match found.shape {
        Shape::Nothing => Some(site.addr.wrapping_add(found.size)),
        Shape::Jump { to } => direct_target(site.addr, to),
        _ => None,
    }
}

/// Returns true only if the visited point was added to the table last, and the entries of its
/// interrupts' handlers are covered. Then a new successor may get a copy of its state.
#[inline(always)]
fn may_share_state(table: &Table, site: &Site) -> bool
    requires fine { TableInvariantHoldsForInputs site.now.ground.now table.now }
    requires near { IsVisitedPlace table.now (Point site.now.key site.now.addr) }
    ensures { IsTrue result → MayShareState site.now table.now }
{
    if table.near < table.places.len().saturating_sub(1) {
        return false;
    }
    let Some((_, own)) = table.places.get_index(table.near) else {
        return false;
    };
    match own.value.outline() {
        Some(outline) => {
            ccpn_fits_byte(outline.ccpn);
            !outline.ie || has_covering_context_for_ccpn(table, site.key.is, outline.ccpn)
        }
        None => false,
    }
}
