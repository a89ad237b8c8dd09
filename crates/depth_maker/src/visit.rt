// A visit joins all that a point owes, in the order of its duties.
ghost use Rattle.std.specs.Prelude.{◌≡◌, IsTrue, OnOk, IfErr, IfOk};
ghost use Rattle.frame_places.specs.declared.places.Spot.TheVariants.{Point};
ghost use Rattle.cfg_recover.specs.SetOperations.{IsCorrectCache};
ghost use Rattle.depth_maker.specs.SharedStates.{IsLocatedShapeInBounds, LocatesInstructionIfAny};
ghost use Rattle.depth_maker.specs.EnteredFrames.{InstructionEntersNoFrame, PlaceEntersNoFrame};
ghost use Rattle.depth_maker.specs.VisitDuties.{JoinsDuties, IsFaultlessInstruction, IsVisitStateCurrent, visit_duties, state_after_step};
ghost use Rattle.depth_maker.specs.Answers.{NamesDerivedFault};
ghost use Rattle.depth_maker.specs.Visits.{IsVisitedPlace, VisitJoinsDutiesForInputs, VisitInvariantHolds};
ghost use Rattle.frame_places.specs.declared.places.Spot.{Spot};
ghost use Rattle.depth_maker.specs.TableInvariant.{TableInvariantHoldsForInputs};
ghost use Rattle.tc_isa.specs.InBounds.{IsShapeInBounds};
ghost use Rattle.value_domain.specs.State.{AreInLattice};
ghost use Rattle.vd_transfer.specs.Changes.{state_after};
ghost use Rattle.vd_transfer.specs.EffectsOnStates.{LocalsFitInstruction};

use crate::entered_frames::enters_no_frame;
use crate::fixpoint::VisitScratch;
use crate::inputs_and_limits::{Ground, Site, Visit};
use crate::join_entries::{join_entry_duties, join_irq_duties, join_misaligned_duties};
use crate::join_successors::{join_exit_if_leaving, join_successors};
use crate::passing::share_state;
use crate::table::Table;
use cfg_recover::{Located, OperationCache, check_decoded_instruction, write_successor_change};
use frame_places::{Refusal, Spot};
use std::alloc::Global;
use tc_isa::Shape;
use vd_transfer::Change;

/// Visits the place number `table.near`: for a point, joins the states that its instruction leads
/// to. Returns true only if that enters no frame. `scratch` and `change` are overwritten.
pub(crate) fn visit_place(
    alloc: Global,
    ground: &Ground,
    table: &mut Table,
    scratch: &mut VisitScratch,
    change: &mut Change,
    cache: &mut OperationCache,
) -> Result<bool, Refusal>
    requires fine { TableInvariantHoldsForInputs ground.now table.old }
    requires results { IsCorrectCache ground.now.bounds.now cache.old }
    ensures ok { (x : Spot) → IsVisitedPlace table.old x
        → OnOk result (VisitJoinsDutiesForInputs ground.now table.old table.new x) }
    ensures plain { (x : Spot) → IsVisitedPlace table.old x
        → IfOk result (λ plain. IsTrue plain
        → PlaceEntersNoFrame ground.now.image.now ground.now.plan.now x) }
    ensures err { IfErr result (NamesDerivedFault ground.now) }
    ensures results { IsCorrectCache ground.now.bounds.now cache.new }
{
    let Some((at, _)) = table.places.get_index(table.near) else {
        return Ok(false);
    };
    let Spot::Point(key, addr) = *at else {
        return Ok(false);
    };
    let located = scratch.codes.decode_cached(ground.image, ground.plan, addr);
    let site = Site {
        ground,
        key,
        addr,
        located: &located,
    };
    if share_state(alloc, table, &site)? {
        return Ok(true);
    }
    visit_point(alloc, table, &site, scratch, change, cache)
}

/// Writes to `c` the change from the visited point's state to the state after its instruction. The
/// result of an operation on two sets may come from `cache`.
#[inline(always)]
pub(crate) fn write_step_change(v: &Visit, shape: Shape, c: &mut Change, cache: &mut OperationCache)
    requires shape { IsShapeInBounds shape }
    requires values { AreInLattice v.now.ground.now.bounds.now v.now.state.now.regs }
    requires room { LocalsFitInstruction v.now.ground.now.bounds.now shape v.now.state.now }
    requires results { IsCorrectCache v.now.ground.now.bounds.now cache.old }
    ensures change { state_after v.now.state.now c.new ≡ state_after_step v.now shape }
    ensures results { IsCorrectCache v.now.ground.now.bounds.now cache.new }
{
    let g = v.ground;
    if cache.write_change(g.bounds, g.plan, shape, v.state, c) {
        return;
    }
    write_successor_change(g.bounds, g.image, g.plan, shape, v.state, c);
}

/// Joins all that the visited point owes: states at successors, entries of frames, interrupts, and
/// the exit. `c` is overwritten; `cache` has results of set operations.
fn join_visit_duties(
    alloc: Global,
    table: &mut Table,
    v: &Visit,
    found: &Located,
    c: &mut Change,
    cache: &mut OperationCache,
) -> Result<(), Refusal>
    requires visited { VisitInvariantHolds v.now table.old }
    requires at { IsVisitStateCurrent v.now table.old }
    requires found { IsFaultlessInstruction v.now found.now }
    requires results { IsCorrectCache v.now.ground.now.bounds.now cache.old }
    ensures ok { OnOk result (JoinsDuties v.now table.old table.new
        (visit_duties v.now found.now)) }
    ensures err { IfErr result (NamesDerivedFault v.now.ground.now) }
    ensures results { IsCorrectCache v.now.ground.now.bounds.now cache.new }
{
    join_successors(alloc, table, v, found, c, cache)?;
    join_entry_duties(alloc, table, v, found.shape, found.size, c)?;
    join_misaligned_duties(alloc, table, v, found)?;
    join_irq_duties(alloc, table, v)?;
    join_exit_if_leaving(alloc, table, v, found.shape)
}

/// Joins what follows from the instruction at `site`, or refuses with a rule that fails there.
/// Returns true only if the instruction enters no frame. `scratch` and `change` are overwritten.
fn visit_point(
    alloc: Global,
    table: &mut Table,
    site: &Site,
    scratch: &mut VisitScratch,
    change: &mut Change,
    cache: &mut OperationCache,
) -> Result<bool, Refusal>
    requires fine { TableInvariantHoldsForInputs site.now.ground.now table.old }
    requires near { IsVisitedPlace table.old (Point site.now.key site.now.addr) }
    requires code { LocatesInstructionIfAny site.now }
    requires shape { IsLocatedShapeInBounds site.now }
    requires results { IsCorrectCache site.now.ground.now.bounds.now cache.old }
    ensures ok { OnOk result (VisitJoinsDutiesForInputs site.now.ground.now table.old table.new
        (Point site.now.key site.now.addr)) }
    ensures plain { IfOk result (λ plain. IsTrue plain
        → InstructionEntersNoFrame site.now.ground.now.image.now site.now.ground.now.plan.now
        site.now.addr) }
    ensures err { IfErr result (NamesDerivedFault site.now.ground.now) }
    ensures results { IsCorrectCache site.now.ground.now.bounds.now cache.new }
{
    let Some((_, place)) = table.places.get_index(table.near) else {
        unreachable!();
    };
    place
        .value
        .write_state(site.ground.bounds, &mut scratch.state);
    let v = Visit {
        ground: site.ground,
        key: site.key,
        addr: site.addr,
        state: scratch.state.state(),
    };
    let g = v.ground;
    match check_decoded_instruction(g.bounds, g.plan, &v.key, v.state, site.located) {
        Ok(found) => {
            join_visit_duties(alloc, table, &v, found, change, cache)?;
            Ok(enters_no_frame(g.plan, found.shape))
        }
        Err(rule) => Err(Refusal::Fault(rule, Spot::Point(v.key, v.addr))),
    }
}
