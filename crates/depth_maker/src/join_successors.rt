// Joins the successors of the visited point in its frame.
ghost use Rattle.std.specs.Prelude.{OnOk, IfErr, ◌++◌, false, true, ℕ};
ghost use Rattle.tc_isa.specs.InBounds.{IsShapeInBounds, IsTargetInBounds};
ghost use Rattle.vd_transfer.specs.Changes.{state_after};
ghost use Rattle.cfg_recover.specs.SetOperations.{IsCorrectCache};
ghost use Rattle.cfg_recover.specs.Duties.{exit_duties_of, jump, jump_duty, jump_duties_to, leave, leave_duty, resume, resume_duty};
ghost use Rattle.depth_maker.specs.Answers.{NamesDerivedFault};
ghost use Rattle.depth_maker.specs.VisitDuties.{OwesDuties, JoinsDuties, JoinsDuty, IsFaultlessInstruction, IsVisitStateCurrent, branch_duties, next_duties, possible_targets, successor_duties, OwesDuty};
ghost use Rattle.depth_maker.specs.Visits.{VisitInvariantHolds};
ghost use Rattle.indexmap.specs.IndexMap.{get};
ghost use Rattle.depth_cert.specs.Exits.{exit_of_state};
ghost use Rattle.frame_places.specs.declared.places.Spot.TheVariants.{Exit, Point};
ghost use Rattle.frame_places.specs.Spots.{spot_eq};
ghost use Rattle.frame_places.specs.Marks.{IsAmongReaders};

use crate::inputs_and_limits::Visit;
use crate::join_place::join_at_place;
use crate::table::Table;
use crate::visit::write_step_change;
use cfg_recover::{Located, OperationCache, direct_target, targets};
use depth_cert::{Key, SYS};
use frame_places::{Refusal, Spot, is_place_queued};
use small_states::Incoming;
use std::alloc::Global;
use tc_isa::{Shape, Target};
use vd_transfer::{Change, write_branch_change};

/// A side of a branch: its shape, whether the branch is taken, and the next address.
#[derive(Clone, Copy)]
struct Side {
    shape: Shape,
    taken: bool,
    to: u32,
}

/// Joins the state after the visited instruction `found` at its successors in the frame, except
/// after calls (`join_entry_duties`). `c` is overwritten; `cache` has results of set operations.
pub(crate) fn join_successors(
    alloc: Global,
    table: &mut Table,
    v: &Visit,
    found: &Located,
    c: &mut Change,
    cache: &mut OperationCache,
) -> Result<(), Refusal>
    requires visited { VisitInvariantHolds v.now table.old }
    requires at { IsVisitStateCurrent v.now table.old }
    requires found { IsFaultlessInstruction v.now found.now }
    requires owes { OwesDuties v.now (successor_duties v.now found.now) }
    requires results { IsCorrectCache v.now.ground.now.bounds.now cache.old }
    ensures ok { OnOk result (JoinsDuties v.now table.old table.new
        (successor_duties v.now found.now)) }
    ensures err { IfErr result (NamesDerivedFault v.now.ground.now) }
    ensures results { IsCorrectCache v.now.ground.now.bounds.now cache.new }
{
    let shape = found.shape;
    match shape {
        Shape::Branch { by, .. } => {
            let straight = Side {
                shape,
                taken: false,
                to: v.addr.wrapping_add(found.size),
            };
            let taken = Side {
                shape,
                taken: true,
                to: v.addr.wrapping_add(by),
            };
            join_branch_sides(alloc, table, v, straight, taken, c)
        }
        Shape::Jump { to } => join_jump_targets(alloc, table, v, to, c),
        Shape::Call { .. } | Shape::Ret | Shape::Rfe | Shape::Syscall { .. } | Shape::Mtcr { .. } =>
            Ok(()),
        _ => join_next_instruction(alloc, table, v, found, c, cache),
    }
}

/// Joins the visited point's state, changed by `c`, at the address `to` in the same frame. Does
/// nothing if the point is queued again.
pub(crate) fn join_successor(
    alloc: Global,
    table: &mut Table,
    v: &Visit,
    to: u32,
    c: &Change,
) -> Result<(), Refusal>
    requires visited { VisitInvariantHolds v.now table.old }
    requires owes { OwesDuty v.now (jump to (state_after v.now.state.now c.now)) }
    ensures ok { OnOk result (JoinsDuty v.now table.old table.new
        (jump_duty to (state_after v.now.state.now c.now))) }
    ensures err { IfErr result (NamesDerivedFault v.now.ground.now) }
{
    if is_place_queued(&table.places, table.near) {
        return Ok(());
    }
    join_first_successor(alloc, table, v, to, c)
}

/// Joins the visited point's state, changed by `c`, at the address `to` in the same frame. Only for
/// the first join of a visit, when the table still has that state.
pub(crate) fn join_first_successor(
    alloc: Global,
    table: &mut Table,
    v: &Visit,
    to: u32,
    c: &Change,
) -> Result<(), Refusal>
    requires visited { VisitInvariantHolds v.now table.old }
    requires at { IsVisitStateCurrent v.now table.old }
    requires owes { OwesDuty v.now (jump to (state_after v.now.state.now c.now)) }
    ensures ok { OnOk result (JoinsDuty v.now table.old table.new
        (jump_duty to (state_after v.now.state.now c.now))) }
    ensures err { IfErr result (NamesDerivedFault v.now.ground.now) }
{
    let incoming = Incoming::Changed(v.state, c);
    join_at_place(alloc, table, v, &Spot::Point(v.key, to), &incoming)
}

/// Joins the lower registers, IE and CCPN of the visited state at the exit of its frame, which RET
/// or RFE leaves.
pub(crate) fn join_exit(alloc: Global, table: &mut Table, v: &Visit) -> Result<(), Refusal>
    requires visited { VisitInvariantHolds v.now table.old }
    requires owes { OwesDuty v.now (leave (exit_of_state v.now.state.now)) }
    ensures ok { (rule : ℕ) → OnOk result (JoinsDuty v.now table.old table.new
        (leave_duty rule (exit_of_state v.now.state.now))) }
    ensures err { IfErr result (NamesDerivedFault v.now.ground.now) }
{
    if is_place_queued(&table.places, table.near) {
        return Ok(());
    }
    let incoming = Incoming::Leaving(v.state);
    join_at_place(alloc, table, v, &Spot::Exit(v.key), &incoming)
}

/// Joins, at the address `back`, the visited state after the frame `key` returned, if the exit of
/// that frame is known.
pub(crate) fn join_return(
    alloc: Global,
    table: &mut Table,
    v: &Visit,
    key: Key,
    back: u32,
) -> Result<(), Refusal>
    requires visited { VisitInvariantHolds v.now table.old }
    requires registered { IsAmongReaders (get spot_eq table.old.readers (Exit key))
        (Point v.now.key v.now.addr) }
    requires owes { OwesDuty v.now (resume key back) }
    ensures ok { OnOk result (JoinsDuty v.now table.old table.new (resume_duty key back)) }
    ensures err { IfErr result (NamesDerivedFault v.now.ground.now) }
{
    if is_place_queued(&table.places, table.near) {
        return Ok(());
    }
    let Some(place) = table.places.get(&Spot::Exit(key)) else {
        return Ok(());
    };
    let Some(exit) = place.value.exit() else {
        unreachable!();
    };
    let copy = exit.copy()?;
    let incoming = Incoming::After(v.state, &copy, key.kind);
    join_at_place(alloc, table, v, &Spot::Point(v.key, back), &incoming)
}

/// Joins the visited point's state at its frame's exit if the instruction leaves the frame: RET, or
/// RFE in the handler of system calls.
pub(crate) fn join_exit_if_leaving(
    alloc: Global,
    table: &mut Table,
    v: &Visit,
    shape: Shape,
) -> Result<(), Refusal>
    requires visited { VisitInvariantHolds v.now table.old }
    requires owes { OwesDuties v.now (exit_duties_of v.now.key v.now.state.now shape) }
    ensures ok { OnOk result
        (JoinsDuties v.now table.old table.new (exit_duties_of v.now.key v.now.state.now shape)) }
    ensures err { IfErr result (NamesDerivedFault v.now.ground.now) }
{
    match shape {
        Shape::Ret => join_exit(alloc, table, v),
        Shape::Rfe => {
            if v.key.kind == SYS {
                return join_exit(alloc, table, v);
            }
            Ok(())
        }
        _ => Ok(()),
    }
}

/// Joins the state of a visited branch, refined by its condition, on both sides: `next` at the next
/// address, `taken` at the target. `c` is overwritten.
fn join_branch_sides(
    alloc: Global,
    table: &mut Table,
    v: &Visit,
    next: Side,
    taken: Side,
    c: &mut Change,
) -> Result<(), Refusal>
    requires visited { VisitInvariantHolds v.now table.old }
    requires next { IsShapeInBounds next.shape }
    requires taken { IsShapeInBounds taken.shape }
    requires owes { OwesDuties v.now (branch_duties v.now next.to next.shape next.taken
        ++ branch_duties v.now taken.to taken.shape taken.taken) }
    ensures ok { OnOk result (JoinsDuties v.now table.old table.new
        (branch_duties v.now next.to next.shape next.taken
        ++ branch_duties v.now taken.to taken.shape taken.taken)) }
    ensures err { IfErr result (NamesDerivedFault v.now.ground.now) }
{
    join_branch_side(alloc, table, v, next, c)?;
    join_branch_side(alloc, table, v, taken, c)
}

/// Joins the visited point's unchanged state at the targets of its jump, as the first join of a
/// visit. `c` is overwritten.
fn join_jump_targets(
    alloc: Global,
    table: &mut Table,
    v: &Visit,
    to: Target,
    c: &mut Change,
) -> Result<(), Refusal>
    requires visited { VisitInvariantHolds v.now table.old }
    requires at { IsVisitStateCurrent v.now table.old }
    requires target { IsTargetInBounds to }
    requires owes { OwesDuties v.now (jump_duties_to v.now.state.now (possible_targets v.now to)) }
    ensures ok { OnOk result (JoinsDuties v.now table.old table.new
        (jump_duties_to v.now.state.now (possible_targets v.now to))) }
    ensures err { IfErr result (NamesDerivedFault v.now.ground.now) }
{
    match direct_target(v.addr, to) {
        Some(target) => {
            c.set_to_identity(v.state);
            join_first_successor(alloc, table, v, target, &*c)
        }
        None => join_indirect_jump_targets(alloc, table, v, to, c),
    }
}

/// Joins the state after the visited instruction `found` at the next address, as the first join of
/// a visit. `c` is overwritten; `cache` has results of set operations.
fn join_next_instruction(
    alloc: Global,
    table: &mut Table,
    v: &Visit,
    found: &Located,
    c: &mut Change,
    cache: &mut OperationCache,
) -> Result<(), Refusal>
    requires visited { VisitInvariantHolds v.now table.old }
    requires at { IsVisitStateCurrent v.now table.old }
    requires found { IsFaultlessInstruction v.now found.now }
    requires owes { OwesDuties v.now (next_duties v.now found.now) }
    requires results { IsCorrectCache v.now.ground.now.bounds.now cache.old }
    ensures ok { OnOk result (JoinsDuties v.now table.old table.new (next_duties v.now found.now)) }
    ensures err { IfErr result (NamesDerivedFault v.now.ground.now) }
    ensures results { IsCorrectCache v.now.ground.now.bounds.now cache.new }
{
    write_step_change(v, found.shape, c, cache);
    join_first_successor(alloc, table, v, v.addr.wrapping_add(found.size), &*c)
}

/// Joins the state of a visited branch, refined by its condition, at the successor on one side.
/// Does nothing if that state rules the side out. `c` is overwritten.
fn join_branch_side(
    alloc: Global,
    table: &mut Table,
    v: &Visit,
    side: Side,
    c: &mut Change,
) -> Result<(), Refusal>
    requires visited { VisitInvariantHolds v.now table.old }
    requires shape { IsShapeInBounds side.shape }
    requires owes { OwesDuties v.now (branch_duties v.now side.to side.shape side.taken) }
    ensures ok { OnOk result (JoinsDuties v.now table.old table.new
        (branch_duties v.now side.to side.shape side.taken)) }
    ensures err { IfErr result (NamesDerivedFault v.now.ground.now) }
{
    let g = v.ground;
    if !write_branch_change(g.bounds, g.plan, side.shape, v.state, side.taken, c) {
        return Ok(());
    }
    join_successor(alloc, table, v, side.to, &*c)
}

/// Joins the visited point's unchanged state at each target of its JI. `c` is overwritten.
#[inline(never)]
fn join_indirect_jump_targets(
    alloc: Global,
    table: &mut Table,
    v: &Visit,
    to: Target,
    c: &mut Change,
) -> Result<(), Refusal>
    requires visited { VisitInvariantHolds v.now table.old }
    requires target { IsTargetInBounds to }
    requires owes { OwesDuties v.now (jump_duties_to v.now.state.now (possible_targets v.now to)) }
    ensures ok { OnOk result (JoinsDuties v.now table.old table.new
        (jump_duties_to v.now.state.now (possible_targets v.now to))) }
    ensures err { IfErr result (NamesDerivedFault v.now.ground.now) }
{
    let targets = targets(v.ground.plan, v.state, v.addr, to);
    join_each_jump_target(alloc, table, v, targets.as_slice(), c)
}

/// Joins the visited point's unchanged state at each of these addresses. `c` is overwritten.
fn join_each_jump_target(
    alloc: Global,
    table: &mut Table,
    v: &Visit,
    targets: &[u32],
    c: &mut Change,
) -> Result<(), Refusal>
    requires visited { VisitInvariantHolds v.now table.old }
    requires owes { OwesDuties v.now (jump_duties_to v.now.state.now targets.now) }
    ensures ok { OnOk result
        (JoinsDuties v.now table.old table.new (jump_duties_to v.now.state.now targets.now)) }
    ensures err { IfErr result (NamesDerivedFault v.now.ground.now) }
{
    c.set_to_identity(v.state);
    for t in targets {
        join_successor(alloc, table, v, *t, &*c)?;
    }
    Ok(())
}
