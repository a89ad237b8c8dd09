// Joins the entries of frames that the visited point enters.
ghost use Rattle.std.specs.Prelude.{◌≡◌, OnOk, IfErr, [], ◌∷◌, ℕ};
ghost use Rattle.tc_isa.specs.InBounds.{IsShapeInBounds};
ghost use Rattle.vd_transfer.specs.Changes.{state_after};
ghost use Rattle.cfg_recover.specs.Entries.{call_entry, possible_irqs_of};
ghost use Rattle.cfg_recover.specs.FlowDuties.{duties_of_irqs};
ghost use Rattle.frame_places.specs.declared.places.Spot.TheVariants.{Point, Exit};
ghost use Rattle.depth_maker.specs.Answers.{NamesDerivedFault};
ghost use Rattle.depth_maker.specs.VisitDuties.{OwesDuties, JoinsDuties, JoinsDuty, IsFaultlessInstruction, misaligned_duties, entry_duties, interrupt_duties, misaligned_duty, system_call_duties, enter_duties, OwesDuty};
ghost use Rattle.depth_maker.specs.Visits.{VisitInvariantHolds};
ghost use Rattle.cfg_recover.specs.Duties.{enter, enter_duty, entry_and_return, resume, resume_duty};
ghost use Rattle.depth_cert.specs.Known.{state};

use crate::calls::join_call_duties;
use crate::entered_frames::may_enter_misaligned_handler;
use crate::inputs_and_limits::Visit;
use crate::interrupt_contexts::{cache_interrupt_context, has_covering_context};
use crate::join_place::join_at_place;
use crate::join_successors::join_return;
use crate::table::Table;
use cfg_recover::{
    Located, aln_entry_change, aln_key, entered_key, handler_entry_change, irq_key, possible_irqs,
    sys_entry_change, sys_key, targets,
};
use depth_cert::{CALL, Key};
use frame_places::{Refusal, Spot, is_place_queued, register_reader};
use small_states::Incoming;
use std::alloc::Global;
use tc_isa::Shape;
use vd_transfer::Change;

/// Joins the state of a visited call or SYSCALL at the entries of the frames entered, and the
/// states after their returns. Does nothing for other instructions. `c` is overwritten.
pub(crate) fn join_entry_duties(
    alloc: Global,
    table: &mut Table,
    v: &Visit,
    shape: Shape,
    size: u32,
    c: &mut Change,
) -> Result<(), Refusal>
    requires visited { VisitInvariantHolds v.now table.old }
    requires shape { IsShapeInBounds shape }
    requires owes { OwesDuties v.now (entry_duties v.now shape size) }
    ensures ok { OnOk result (JoinsDuties v.now table.old table.new
        (entry_duties v.now shape size)) }
    ensures err { IfErr result (NamesDerivedFault v.now.ground.now) }
{
    let back = v.addr.wrapping_add(size);
    match shape {
        Shape::Call { to } => join_call_duties(alloc, table, v, to, back, c),
        Shape::Syscall { tin } => join_system_call_duties(alloc, table, v, tin, back),
        _ => Ok(()),
    }
}

/// Joins the visited point's state at the entry of the handler of misaligned accesses. Does nothing
/// if the access is aligned or the plan has no such trap.
pub(crate) fn join_misaligned_duties(
    alloc: Global,
    table: &mut Table,
    v: &Visit,
    found: &Located,
) -> Result<(), Refusal>
    requires visited { VisitInvariantHolds v.now table.old }
    requires found { IsFaultlessInstruction v.now found.now }
    requires owes { OwesDuties v.now (misaligned_duties v.now found.now) }
    ensures ok { OnOk result (JoinsDuties v.now table.old table.new
        (misaligned_duties v.now found.now)) }
    ensures err { IfErr result (NamesDerivedFault v.now.ground.now) }
{
    if !may_enter_misaligned_handler(v, found) {
        return Ok(());
    }
    join_misaligned_entry(alloc, table, v)
}

/// Joins the visited point's state at the entries of the handlers of all interrupts that may be
/// taken there; none if IE is off.
pub(crate) fn join_irq_duties(alloc: Global, table: &mut Table, v: &Visit) -> Result<(), Refusal>
    requires visited { VisitInvariantHolds v.now table.old }
    requires owes { OwesDuties v.now (interrupt_duties v.now) }
    ensures ok { OnOk result (JoinsDuties v.now table.old table.new (interrupt_duties v.now)) }
    ensures err { IfErr result (NamesDerivedFault v.now.ground.now) }
{
    if !v.state.ie {
        return Ok(());
    }
    if has_covering_context(&*table, v) {
        return Ok(());
    }
    let irqs = possible_irqs(v.ground.plan, v.state);
    if irqs.is_empty() {
        return Ok(());
    }
    join_interrupt_entries(alloc, table, v, irqs.as_slice())?;
    cache_interrupt_context(table, v);
    Ok(())
}

/// Joins the visited point's state, changed by `entry` as by a call, at the entry of each function
/// in `targets`.
pub(crate) fn join_call_entries(
    alloc: Global,
    table: &mut Table,
    v: &Visit,
    entry: &Change,
    targets: &[u32],
) -> Result<(), Refusal>
    requires visited { VisitInvariantHolds v.now table.old }
    requires entry { state_after v.now.state.now entry.now ≡ call_entry v.now.state.now }
    requires owes { OwesDuties v.now (enter_duties v.now targets.now) }
    ensures ok { OnOk result (JoinsDuties v.now table.old table.new
        (enter_duties v.now targets.now)) }
    ensures err { IfErr result (NamesDerivedFault v.now.ground.now) }
{
    for t in targets {
        let key = entered_key(&v.key, CALL, *t);
        join_entry(alloc, table, v, key, entry)?;
    }
    Ok(())
}

/// Joins the visited point's state, changed by `c`, at the entry point of the frame `key`, which
/// the point enters.
pub(crate) fn join_entry(
    alloc: Global,
    table: &mut Table,
    v: &Visit,
    key: Key,
    c: &Change,
) -> Result<(), Refusal>
    requires visited { VisitInvariantHolds v.now table.old }
    requires owes { OwesDuty v.now (enter key (state_after v.now.state.now c.now)) }
    ensures ok { (rule : ℕ) → OnOk result (JoinsDuty v.now table.old table.new
        (enter_duty rule key (state_after v.now.state.now c.now))) }
    ensures err { IfErr result (NamesDerivedFault v.now.ground.now) }
{
    if is_place_queued(&table.places, table.near) {
        return Ok(());
    }
    let incoming = Incoming::Changed(v.state, c);
    join_at_place(alloc, table, v, &Spot::Point(key, key.entry), &incoming)
}

/// Records that the visited point depends on the exit of the frame `key`, and joins the state after
/// that frame's return at the address `back`.
pub(crate) fn read_exit_and_join_return(
    alloc: Global,
    table: &mut Table,
    v: &Visit,
    key: Key,
    back: u32,
) -> Result<(), Refusal>
    requires visited { VisitInvariantHolds v.now table.old }
    requires owes { OwesDuty v.now (resume key back) }
    ensures ok { OnOk result (JoinsDuty v.now table.old table.new (resume_duty key back)) }
    ensures err { IfErr result (NamesDerivedFault v.now.ground.now) }
{
    register_reader(
        alloc,
        &mut table.readers,
        Spot::Exit(key),
        Spot::Point(v.key, v.addr),
    )?;
    join_return(alloc, table, v, key, back)
}

/// Joins the visited point's state, changed by `c`, at the entry of the frame `key`. Also joins the
/// state after that frame's return at the address `back`.
pub(crate) fn join_entry_and_return(
    alloc: Global,
    table: &mut Table,
    v: &Visit,
    key: Key,
    c: &Change,
    back: u32,
) -> Result<(), Refusal>
    requires visited { VisitInvariantHolds v.now table.old }
    requires enters { OwesDuty v.now (enter key (state_after v.now.state.now c.now)) }
    requires resumes { OwesDuty v.now (resume key back) }
    ensures ok { (rule : ℕ) → OnOk result (JoinsDuties v.now table.old table.new
        (entry_and_return rule key (state_after v.now.state.now c.now) back)) }
    ensures err { IfErr result (NamesDerivedFault v.now.ground.now) }
{
    join_entry(alloc, table, v, key, c)?;
    read_exit_and_join_return(alloc, table, v, key, back)
}

/// Joins the visited point's state at the entry of the handler of SYSCALL `tin`, and the state
/// after its return at `back`. Never inlined, to keep a large `Change` off the caller's stack.
#[inline(never)]
fn join_system_call_duties(
    alloc: Global,
    table: &mut Table,
    v: &Visit,
    tin: u8,
    back: u32,
) -> Result<(), Refusal>
    requires visited { VisitInvariantHolds v.now table.old }
    requires owes { OwesDuties v.now (system_call_duties v.now tin back) }
    ensures ok { OnOk result (JoinsDuties v.now table.old table.new
        (system_call_duties v.now tin back)) }
    ensures err { IfErr result (NamesDerivedFault v.now.ground.now) }
{
    let g = v.ground;
    let entry = sys_entry_change(g.bounds, g.plan, &v.key, v.state, tin);
    join_entry_and_return(alloc, table, v, sys_key(g.plan, &v.key), &entry, back)
}

/// Joins the visited point's state at the entry of the handler of misaligned accesses, which its
/// load or store may enter. Never inlined, to keep a large `Change` off the caller's stack.
#[inline(never)]
fn join_misaligned_entry(alloc: Global, table: &mut Table, v: &Visit) -> Result<(), Refusal>
    requires visited { VisitInvariantHolds v.now table.old }
    requires owes { OwesDuties v.now (misaligned_duty v.now ∷ []) }
    ensures ok { OnOk result (JoinsDuty v.now table.old table.new (misaligned_duty v.now)) }
    ensures err { IfErr result (NamesDerivedFault v.now.ground.now) }
{
    let g = v.ground;
    let entry = aln_entry_change(g.bounds, g.plan, &v.key, v.state);
    join_entry(alloc, table, v, aln_key(g.plan, &v.key), &entry)
}

/// Joins the visited point's state at the entries of the handlers of `irqs`, all interrupts that
/// may be taken there. Never inlined, to keep a large `Change` off the caller's stack.
#[inline(never)]
fn join_interrupt_entries(
    alloc: Global,
    table: &mut Table,
    v: &Visit,
    irqs: &[u8],
) -> Result<(), Refusal>
    requires visited { VisitInvariantHolds v.now table.old }
    requires irqs { irqs.now ≡ possible_irqs_of v.now.ground.now.plan.now v.now.state.now }
    requires owes { OwesDuties v.now (interrupt_duties v.now) }
    ensures ok { OnOk result (JoinsDuties v.now table.old table.new (interrupt_duties v.now)) }
    ensures err { IfErr result (NamesDerivedFault v.now.ground.now) }
{
    let entry = handler_entry_change(v.ground.bounds, v.ground.plan, &v.key, v.state, 0);
    join_each_handler_entry(alloc, table, v, irqs, entry)
}

/// Joins the visited point's state at the entry of the handler of each interrupt in `irqs`. The
/// state is changed by `entry`, with CCPN at the interrupt's priority.
fn join_each_handler_entry(
    alloc: Global,
    table: &mut Table,
    v: &Visit,
    irqs: &[u8],
    entry: Change,
) -> Result<(), Refusal>
    requires visited { VisitInvariantHolds v.now table.old }
    requires owes { OwesDuties v.now
        (duties_of_irqs v.now.ground.now.plan.now (state_after v.now.state.now entry) irqs.now) }
    ensures ok { OnOk result
        (JoinsDuties v.now table.old table.new
        (duties_of_irqs v.now.ground.now.plan.now (state_after v.now.state.now entry) irqs.now)) }
    ensures err { IfErr result (NamesDerivedFault v.now.ground.now) }
{
    let mut entry = entry;
    for p in irqs {
        entry.ccpn = *p;
        join_entry(alloc, table, v, irq_key(v.ground.plan, *p), &entry)?;
    }
    Ok(())
}
