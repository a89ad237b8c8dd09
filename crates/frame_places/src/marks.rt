// The work of places. A place is queued by its number in the order of the map.
ghost use Rattle.std.specs.Prelude.{◌≡◌, ◌↔◌, IsTrue, None, OnOk, Contains, Some, IsSome};
ghost use Rattle.frame_places.specs.declared.places.Spot.{Spot};
ghost use Rattle.frame_places.specs.declared.places.Mark.TheVariants.{Open, Plain, Queued};
ghost use Rattle.frame_places.specs.Numbers.{PlaceHasNumber};
ghost use Rattle.frame_places.specs.Work.{all_work};
ghost use Rattle.frame_places.specs.Marks.{AreQueuedPlacesListed, AreKnownPlaces, MarksPlaceAs, RequeuesPlaces, mark_without_work, is_queued, mark_of_place, mark_at_visit_end, value_of_place};

use crate::places::{Mark, Marked, Spot};
use crate::work_list::{Work, enqueue};
use indexmap::IndexMap;
use std::alloc::AllocError;
use std::hash::{Hash, Hasher};

/// Returns whether a place is an entry point (`entry`) that wasn't visited yet. Such a queued place
/// moves to the front when its state rises.
#[inline(always)]
pub(crate) fn is_unvisited_entry(entry: bool, visits: u8) -> bool {
    entry && visits == 0
}

/// Sets the mark of a place (a point or an exit), by number: idle, plain, queued or being visited.
#[inline(always)]
pub(crate) fn mark_place<V>(places: &mut IndexMap<Spot, Marked<V>>, number: usize, mark: Mark)
    ensures { (x : Spot) → PlaceHasNumber places.old number x
        → MarksPlaceAs places.old places.new x mark }
{
    if let Some(place) = places.get_index_mut(number) {
        place.mark = mark;
    }
}

/// The number of visits after which a place waits for the next round whenever an exit that it reads
/// rises.
const PATIENT: u8 = 2;

/// Returns whether the place with this number, if queued again, waits for the next round: if
/// `waits`, or if visited twice. So a call of many functions waits until their exits have risen.
#[inline(always)]
pub(crate) fn must_wait_for_round<V>(
    places: &IndexMap<Spot, Marked<V>>,
    number: usize,
    waits: bool,
) -> bool {
    match places.get_index(number) {
        None => waits,
        Some((_, place)) => waits || place.visits >= PATIENT,
    }
}

/// Puts each of these known places on the work list unless queued: for the next round if `waits` or
/// if visited twice, else at the end of the queue.
pub(crate) fn requeue_places<V>(
    places: &mut IndexMap<Spot, Marked<V>>,
    work: &mut Work,
    readers: &[Spot],
    waits: bool,
) -> Result<(), AllocError>
    requires listed { AreQueuedPlacesListed places.old (all_work work.old) }
    requires known { AreKnownPlaces places.old (Contains readers.now) }
    ensures marks { OnOk result (RequeuesPlaces places.old places.new (Contains readers.now)) }
    ensures work { OnOk result (AreQueuedPlacesListed places.new (all_work work.new)) }
{
    for x in readers {
        requeue_place(places, work, *x, waits)?;
    }
    Ok(())
}

/// Returns whether the place (a point or an exit) with this number is queued for a visit.
#[inline(always)]
pub fn is_place_queued<V>(places: &IndexMap<Spot, Marked<V>>, number: usize) -> bool
    ensures { (x : Spot) → PlaceHasNumber places.now number x
        → result ≡ is_queued (mark_of_place places.now x) }
{
    match places.get_index(number) {
        None => false,
        Some((_, place)) => matches!(place.mark, Mark::Queued),
    }
}

/// Marks the place with this number as being visited, and counts the visit, up to 255.
#[inline(always)]
pub fn begin_visit<V>(places: &mut IndexMap<Spot, Marked<V>>, number: usize)
    ensures { (x : Spot) → PlaceHasNumber places.old number x
        → MarksPlaceAs places.old places.new x Open }
{
    if let Some(place) = places.get_index_mut(number) {
        place.mark = Mark::Open;
        place.visits = place.visits.saturating_add(1);
    }
}

/// Returns whether the mark of a place is `Plain`: it has no work, and its instruction enters no
/// frame by itself.
#[inline(always)]
pub fn is_plain_mark(mark: Mark) -> bool
    ensures { IsTrue result ↔ (mark ≡ Plain) }
{
    matches!(mark, Mark::Plain)
}

/// Marks the visited place with this number as done, unless queued meanwhile: as `Plain` if `plain`
/// (its instruction enters no frame), else as `Idle`.
#[inline(always)]
pub fn end_visit<V>(places: &mut IndexMap<Spot, Marked<V>>, number: usize, plain: bool)
    ensures { (x : Spot) → PlaceHasNumber places.old number x → MarksPlaceAs places.old places.new x
        (mark_at_visit_end plain (mark_of_place places.old x)) }
{
    if let Some(place) = places.get_index_mut(number) {
        place.mark = mark_after_visit(place.mark, plain);
    }
}

/// Puts the known place `x` on the work list unless queued: for the next round if `waits` or if
/// visited twice, else at the end of the queue.
pub(crate) fn requeue_place<V>(
    places: &mut IndexMap<Spot, Marked<V>>,
    work: &mut Work,
    x: Spot,
    waits: bool,
) -> Result<(), AllocError>
    requires listed { AreQueuedPlacesListed places.old (all_work work.old) }
    requires known { IsSome (value_of_place places.old x) }
    ensures marks { OnOk result (MarksPlaceAs places.old places.new x Queued) }
    ensures work { OnOk result (AreQueuedPlacesListed places.new (all_work work.new)) }
{
    let Some(number) = places.get_index_of(&x) else {
        return Ok(());
    };
    if !is_place_queued(&*places, number) {
        let later = must_wait_for_round(&*places, number, waits);
        mark_place(places, number, Mark::Queued);
        enqueue(work, number, later)?;
    }
    Ok(())
}

/// Returns the mark of a place after its visit: still queued if queued meanwhile, else plain if its
/// instruction enters no frame (`plain`), else idle.
#[inline(always)]
fn mark_after_visit(mark: Mark, plain: bool) -> Mark
    ensures { result ≡ mark_at_visit_end plain (Some mark) }
{
    match mark {
        Mark::Queued => Mark::Queued,
        _ => plain_or_idle_mark(plain),
    }
}

/// Returns the mark of a place that has no work after its visit: plain or idle.
#[inline(always)]
fn plain_or_idle_mark(plain: bool) -> Mark
    ensures { result ≡ mark_without_work plain }
{
    if plain { Mark::Plain } else { Mark::Idle }
}
