// Joins what flows from the visited point into a place.
ghost use Rattle.std.specs.Prelude.{◌≡◌, IfErr, None, OnOk, map};
ghost use Rattle.indexmap.specs.IndexMap.{get};
ghost use Rattle.small_states.specs.Incoming.{incoming_known, sender_state};
ghost use Rattle.frame_places.specs.declared.places.Spot.TheVariants.{Point};
ghost use Rattle.frame_places.specs.Marks.{AreQueuedPlacesListed, AreKnownPlaces, ForgetsReaders, IsAmongReaders, RequeuesPlaces};
ghost use Rattle.frame_places.specs.Work.{all_work};
ghost use Rattle.frame_places.specs.Numbers.{PlaceHasNumber};
ghost use Rattle.frame_places.specs.Spots.{spot_eq};
ghost use Rattle.depth_maker.specs.TableInvariant.{OnlyExitsHaveReaders, TableInvariantHoldsForInputs};
ghost use Rattle.depth_maker.specs.AssignmentCounts.{AreWithinCertLimits};
ghost use Rattle.depth_maker.specs.SpotsAsPlaces.{place_of_spot};
ghost use Rattle.depth_maker.specs.Answers.{NamesDerivedFault};
ghost use Rattle.depth_maker.specs.VisitDuties.{IsVisitStateCurrent};
ghost use Rattle.depth_maker.specs.Visits.{IsVisitedPlace};
ghost use Rattle.depth_maker.specs.Joins.{AddsPlaceIfNew, FlowsInto, JoinsAtPlace, JoinsWithoutRequeuing};
ghost use Rattle.depth_maker.specs.declared.inputs_and_limits.Ground.{Ground};

use crate::inputs_and_limits::Visit;
use crate::table::Table;
use frame_places::{
    LOCALS_RULE, Marked, Refusal, Spot, Work, add_or_find_place, record_place, requeue_readers_of,
    set_and_queue_place,
};
use indexmap::IndexMap;
use small_states::{Incoming, SmallKnown, incoming_ccpn};
use std::alloc::{AllocError, Global};

/// Adds the place `y` (a point or an exit) with this value to the table and returns `None`, or
/// returns its number if known. Never inlined, so that LLVM inlines the functions called here.
#[inline(never)]
pub(crate) fn add_place_if_new(
    table: &mut Table,
    y: Spot,
    value: SmallKnown,
) -> Result<Option<usize>, Refusal>
    requires listed { AreQueuedPlacesListed table.old.places (all_work table.old.work) }
    requires few { AreWithinCertLimits
        (map place_of_spot table.old.points.items) table.old.frames.items }
    ensures { (g : Ground) → TableInvariantHoldsForInputs g table.old
        → FlowsInto g table.old y value → AddsPlaceIfNew g table.old table.new y value result }
{
    match add_or_find_place(&mut table.places, &mut table.work, y, value)? {
        None => {
            record_place(false, &mut table.points, &mut table.frames, y)?;
            Ok(None)
        }
        Some(number) => Ok(Some(number)),
    }
}

/// Joins the value `incoming`, which flows from the visited point, at the place `y` (a point or an
/// exit) of the maker's table. If an exit `y` rose, the points that depend on `y` are queued.
pub(crate) fn join_at_place(
    alloc: Global,
    table: &mut Table,
    v: &Visit,
    y: &Spot,
    incoming: &Incoming,
) -> Result<(), Refusal>
    requires fine { TableInvariantHoldsForInputs v.now.ground.now table.old }
    requires near { IsVisitedPlace table.old (Point v.now.key v.now.addr) }
    requires at { IsVisitStateCurrent v.now table.old }
    requires own { sender_state incoming.now ≡ v.now.state.now }
    requires incoming { FlowsInto v.now.ground.now table.old y.now (incoming_known incoming.now) }
    ensures ok { OnOk result
        (JoinsAtPlace v.now.ground.now table.old table.new y.now (incoming_known incoming.now)) }
    ensures err { IfErr result (NamesDerivedFault v.now.ground.now) }
{
    let _byte = incoming_ccpn(incoming);
    let known = table.places.len();
    if join_without_requeuing(alloc, table, v, y, incoming)? {
        let again = table.places.len() == known;
        requeue_readers_after_join(
            &mut table.places,
            &mut table.work,
            &mut table.readers,
            y,
            again,
        )?;
    }
    Ok(())
}

/// Joins the value `incoming` from the visited point at the place `y` (a point or an exit), without
/// queuing readers of `y`. Returns false if `y` covered that value already.
fn join_without_requeuing(
    alloc: Global,
    table: &mut Table,
    v: &Visit,
    y: &Spot,
    incoming: &Incoming,
) -> Result<bool, Refusal>
    requires fine { TableInvariantHoldsForInputs v.now.ground.now table.old }
    requires near { IsVisitedPlace table.old (Point v.now.key v.now.addr) }
    requires at { IsVisitStateCurrent v.now table.old }
    requires own { sender_state incoming.now ≡ v.now.state.now }
    requires incoming { FlowsInto v.now.ground.now table.old y.now (incoming_known incoming.now) }
    ensures { JoinsWithoutRequeuing v.now.ground.now table.old table.new y.now
        (incoming_known incoming.now) result }
{
    if table.near < table.places.len().saturating_sub(1) {
        if let Some(number) = table.places.get_index_of(y) {
            return join_known_place(alloc, table, v, number, y, incoming);
        }
    }
    let Some((_, own)) = table.places.get_index(table.near) else {
        unreachable!();
    };
    let value = own.value.copy_incoming(alloc, incoming)?;
    match add_place_if_new(table, *y, value)? {
        None => Ok(true),
        Some(number) => join_known_place(alloc, table, v, number, y, incoming),
    }
}

/// Puts the points that read the raised exit `y` on the work list, for the next round if `waits`,
/// and forgets that they read `y`. A point `y` has no readers.
fn requeue_readers_after_join(
    places: &mut IndexMap<Spot, Marked<SmallKnown>>,
    work: &mut Work,
    readers: &mut IndexMap<Spot, Vec<Spot>>,
    y: &Spot,
    waits: bool,
) -> Result<(), AllocError>
    requires listed { AreQueuedPlacesListed places.old (all_work work.old) }
    requires exits { OnlyExitsHaveReaders readers.old }
    requires known { AreKnownPlaces places.old (IsAmongReaders (get spot_eq readers.old y.now)) }
    ensures marks { OnOk result
        (RequeuesPlaces places.old places.new (IsAmongReaders (get spot_eq readers.old y.now))) }
    ensures work { OnOk result (AreQueuedPlacesListed places.new (all_work work.new)) }
    ensures readers { OnOk result (ForgetsReaders readers.old readers.new y.now) }
{
    if let Spot::Point(_, _) = *y {
        return Ok(());
    }
    requeue_readers_of(places, work, readers, *y, waits)
}

/// Joins the value `incoming` from the visited point at the known place `y` with this number, and
/// queues `y`. Returns false if `y` covered that value already.
fn join_known_place(
    alloc: Global,
    table: &mut Table,
    v: &Visit,
    number: usize,
    y: &Spot,
    incoming: &Incoming,
) -> Result<bool, Refusal>
    requires fine { TableInvariantHoldsForInputs v.now.ground.now table.old }
    requires there { PlaceHasNumber table.old.places number y.now }
    requires near { IsVisitedPlace table.old (Point v.now.key v.now.addr) }
    requires at { IsVisitStateCurrent v.now table.old }
    requires own { sender_state incoming.now ≡ v.now.state.now }
    requires incoming { FlowsInto v.now.ground.now table.old y.now (incoming_known incoming.now) }
    ensures { JoinsWithoutRequeuing v.now.ground.now table.old table.new y.now
        (incoming_known incoming.now) result }
{
    let Some((_, place)) = table.places.get_index(number) else {
        unreachable!();
    };
    let Some((_, own)) = table.places.get_index(table.near) else {
        unreachable!();
    };
    let b = v.ground.bounds;
    if place.value.covers(b, incoming) {
        return Ok(false);
    }
    let Some(cell) = place.value.join_sharing(alloc, b, &own.value, incoming)? else {
        return Err(Refusal::Fault(LOCALS_RULE, *y));
    };
    set_and_queue_place(
        &mut table.places,
        &mut table.work,
        number,
        cell,
        y.is_entry(),
    )?;
    Ok(true)
}
