// Joins the entries of the functions that the visited point calls, and the states after them.
ghost use Rattle.std.specs.Prelude.{◌≡◌, OnOk, IfErr, IfOk, IsTrue};
ghost use Rattle.tc_isa.specs.InBounds.{IsTargetInBounds};
ghost use Rattle.vd_transfer.specs.Changes.{state_after};
ghost use Rattle.cfg_recover.specs.Entries.{call_entry};
ghost use Rattle.depth_maker.specs.Answers.{NamesDerivedFault};
ghost use Rattle.depth_maker.specs.VisitDuties.{enter_duties, resume_duties, AreDutiesCovered, OwesDuties, JoinsDuties, KeepsDutiesJoined, IsCoveredEntry, call_duties, possible_targets};
ghost use Rattle.depth_maker.specs.Visits.{VisitInvariantHolds};

use crate::inputs_and_limits::Visit;
use crate::join_entries::{join_call_entries, join_entry_and_return, read_exit_and_join_return};
use crate::last_call::{LastCall, MOST_CALLS, find_cached_call};
use crate::table::Table;
use arrayvec::ArrayVec;
use cfg_recover::{direct_target, entered_key, targets};
use depth_cert::CALL;
use frame_places::{Refusal, is_place_queued};
use small_states::{Incoming, SmallKnown};
use std::alloc::{AllocError, Global};
use tc_isa::Target;
use value_domain::State;
use vd_transfer::Change;

/// Joins what a visited CALL, CALLA or CALLI owes: its state at the entry of each function at `to`,
/// and the state after each return at `back`. `c` is overwritten.
pub(crate) fn join_call_duties(
    alloc: Global,
    table: &mut Table,
    v: &Visit,
    to: Target,
    back: u32,
    c: &mut Change,
) -> Result<(), Refusal>
    requires visited { VisitInvariantHolds v.now table.old }
    requires target { IsTargetInBounds to }
    requires owes { OwesDuties v.now (call_duties v.now back (possible_targets v.now to)) }
    ensures ok { OnOk result (JoinsDuties v.now table.old table.new
        (call_duties v.now back (possible_targets v.now to))) }
    ensures err { IfErr result (NamesDerivedFault v.now.ground.now) }
{
    write_call_entry_change(c, v.state);
    match direct_target(v.addr, to) {
        Some(target) => {
            let key = entered_key(&v.key, CALL, target);
            join_entry_and_return(alloc, table, v, key, &*c, back)
        }
        None => join_indirect_calls(alloc, table, v, &*c, to, back),
    }
}

/// Writes to `c` the change by which the caller's state `s` becomes the state at a called
/// function's entry.
#[inline(always)]
fn write_call_entry_change(c: &mut Change, s: &State)
    ensures { state_after s.now c.new ≡ call_entry s.now }
{
    c.set_to_identity(s);
    c.lower = false;
    c.locals = ArrayVec::new();
}

/// Joins the state of a visited CALLI, changed by `entry`, at the entry of each function that `to`
/// may name. Also joins the states after their returns at `back`.
#[inline(never)]
fn join_indirect_calls(
    alloc: Global,
    table: &mut Table,
    v: &Visit,
    entry: &Change,
    to: Target,
    back: u32,
) -> Result<(), Refusal>
    requires visited { VisitInvariantHolds v.now table.old }
    requires target { IsTargetInBounds to }
    requires entry { state_after v.now.state.now entry.now ≡ call_entry v.now.state.now }
    requires owes { OwesDuties v.now (call_duties v.now back (possible_targets v.now to)) }
    ensures ok { OnOk result (JoinsDuties v.now table.old table.new
        (call_duties v.now back (possible_targets v.now to))) }
    ensures err { IfErr result (NamesDerivedFault v.now.ground.now) }
{
    let targets = targets(v.ground.plan, v.state, v.addr, to);
    join_indirect_call_entries(alloc, table, v, entry, &targets)?;
    join_call_returns(alloc, table, v, targets.as_slice(), back)
}

/// Joins the state of a visited CALLI, changed by `entry`, at the entries of the functions
/// `targets`. Joins nothing if a cached call shows that these are covered.
fn join_indirect_call_entries(
    alloc: Global,
    table: &mut Table,
    v: &Visit,
    entry: &Change,
    targets: &ArrayVec<u32, 128>,
) -> Result<(), Refusal>
    requires visited { VisitInvariantHolds v.now table.old }
    requires entry { state_after v.now.state.now entry.now ≡ call_entry v.now.state.now }
    requires owes { OwesDuties v.now (enter_duties v.now targets.now.items) }
    ensures ok { OnOk result
        (JoinsDuties v.now table.old table.new (enter_duties v.now targets.now.items)) }
    ensures err { IfErr result (NamesDerivedFault v.now.ground.now) }
{
    if has_covering_call(&*table, v, entry, targets) {
        return Ok(());
    }
    join_call_entries(alloc, table, v, entry, targets.as_slice())?;
    cache_covered_call(alloc, table, v, entry, targets)?;
    Ok(())
}

/// Joins, at the address `back`, the states after the functions `targets` return, and records that
/// the visited call depends on their exits.
fn join_call_returns(
    alloc: Global,
    table: &mut Table,
    v: &Visit,
    targets: &[u32],
    back: u32,
) -> Result<(), Refusal>
    requires visited { VisitInvariantHolds v.now table.old }
    requires owes { OwesDuties v.now (resume_duties v.now back targets.now) }
    ensures ok { OnOk result
        (JoinsDuties v.now table.old table.new (resume_duties v.now back targets.now)) }
    ensures err { IfErr result (NamesDerivedFault v.now.ground.now) }
{
    for t in targets {
        let key = entered_key(&v.key, CALL, *t);
        read_exit_and_join_return(alloc, table, v, key, back)?;
    }
    Ok(())
}

/// Returns whether the latest cached call of the functions `targets` covers the visited state
/// changed by `entry`. If so, their entries cover that state too.
fn has_covering_call(table: &Table, v: &Visit, entry: &Change, targets: &ArrayVec<u32, 128>) -> bool
    requires visited { VisitInvariantHolds v.now table.now }
    requires entry { state_after v.now.state.now entry.now ≡ call_entry v.now.state.now }
    ensures { IsTrue result
        → AreDutiesCovered v.now table.now (enter_duties v.now targets.now.items) }
{
    match find_cached_call(table.covered.calls.as_slice(), &v.key, targets) {
        Some(last) => {
            let incoming = Incoming::Changed(v.state, entry);
            last.entry.covers(v.ground.bounds, &incoming)
        }
        None => false,
    }
}

/// Caches a call of the functions `targets`, whose entries now cover its state, as the latest of
/// 16. Caches nothing for fewer than two functions, or if the visited point is queued again.
#[inline(never)]
fn cache_covered_call(
    alloc: Global,
    table: &mut Table,
    v: &Visit,
    entry: &Change,
    targets: &ArrayVec<u32, 128>,
) -> Result<(), Refusal>
    requires visited { VisitInvariantHolds v.now table.old }
    requires entry { state_after v.now.state.now entry.now ≡ call_entry v.now.state.now }
    ensures ok { OnOk result
        (KeepsDutiesJoined v.now table.old table.new (enter_duties v.now targets.now.items)) }
    ensures err { IfErr result (NamesDerivedFault v.now.ground.now) }
{
    if targets.len() < 2 {
        return Ok(());
    }
    if is_place_queued(&table.places, table.near) {
        return Ok(());
    }
    let entry = entry_to_cache(alloc, &*table, v, entry, targets)?;
    let calls = &mut table.covered.calls;
    calls.truncate(MOST_CALLS - 1);
    calls.insert(0, LastCall::of(&v.key, targets, entry))?;
    Ok(())
}

/// Returns the entry state to cache for a call of the functions `targets`: the visited state
/// changed by `entry`, joined with that of their latest cached call, if any.
fn entry_to_cache(
    alloc: Global,
    table: &Table,
    v: &Visit,
    entry: &Change,
    targets: &ArrayVec<u32, 128>,
) -> Result<SmallKnown, AllocError>
    requires visited { VisitInvariantHolds v.now table.now }
    requires entry { state_after v.now.state.now entry.now ≡ call_entry v.now.state.now }
    ensures { IfOk result (IsCoveredEntry v.now table.now targets.now.items) }
{
    let b = v.ground.bounds;
    let incoming = Incoming::Changed(v.state, entry);
    if let Some(last) = find_cached_call(table.covered.calls.as_slice(), &v.key, targets) {
        if let Some(joined) = last.entry.join(alloc, b, &incoming)? {
            return Ok(joined);
        }
    }
    let entry = SmallKnown::new(alloc, b, &incoming)?;
    Ok(entry)
}
