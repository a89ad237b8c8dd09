// Which points read which exits.
ghost use Rattle.std.specs.Prelude.{◌↔◌, ◌⊎◌, ◌≡◌, Contains, OnOk, None, Some, IfOk};
ghost use Rattle.frame_places.specs.Marks.{AddsReader, ForgetsReaders, AreQueuedPlacesListed, AreKnownPlaces, IsAmongReaders, RequeuesPlaces};
ghost use Rattle.indexmap.specs.IndexMap.{get};
ghost use Rattle.frame_places.specs.declared.places.Spot.{Spot};
ghost use Rattle.frame_places.specs.Spots.{spot_eq};
ghost use Rattle.frame_places.specs.Work.{all_work};

use crate::marks::requeue_places;
use crate::places::{Marked, Spot};
use crate::work_list::Work;
use indexmap::IndexMap;
use std::alloc::{AllocError, Global};

/// The least number of readers for which a list is searched for duplicates.
const MANY: usize = 1024;

/// Appends a point to the readers of an exit, the points to visit again when the exit changes,
/// unless the list ends in that point.
pub(crate) fn push_reader_unless_last(out: &mut Vec<Spot>, x: Spot) -> Result<(), AllocError>
    ensures { OnOk result ((q : Spot)
        → Contains out.new.items q ↔ (Contains out.old.items q ⊎ (q ≡ x))) }
{
    if let Some(last) = out.as_slice().last() {
        if *last == x {
            return Ok(());
        }
    }
    out.push(x)?;
    Ok(())
}

/// Records that the point `x` reads the exit `z`: the state after the call or system call at `x`
/// depends on `z`. So `x` is queued when `z` rises.
pub fn register_reader(
    alloc: Global,
    readers: &mut IndexMap<Spot, Vec<Spot>>,
    z: Spot,
    x: Spot,
) -> Result<(), AllocError>
    ensures { OnOk result (AddsReader readers.old readers.new z x) }
{
    if let Some(list) = readers.get_mut(&z) {
        push_reader(alloc, list, x)?;
        return Ok(());
    }
    let mut list = Vec::new(alloc);
    list.push(x)?;
    readers.insert(z, list)?;
    Ok(())
}

/// Requeues all points that read the exit `y`, and forgets that they do. They wait for the next
/// round if `waits`, or if visited twice already.
pub fn requeue_readers_of<V>(
    places: &mut IndexMap<Spot, Marked<V>>,
    work: &mut Work,
    readers: &mut IndexMap<Spot, Vec<Spot>>,
    y: Spot,
    waits: bool,
) -> Result<(), AllocError>
    requires listed { AreQueuedPlacesListed places.old (all_work work.old) }
    requires known { AreKnownPlaces places.old (IsAmongReaders (get spot_eq readers.old y)) }
    ensures marks { OnOk result
        (RequeuesPlaces places.old places.new (IsAmongReaders (get spot_eq readers.old y))) }
    ensures work { OnOk result (AreQueuedPlacesListed places.new (all_work work.new)) }
    ensures readers { OnOk result (ForgetsReaders readers.old readers.new y) }
{
    let Some(list) = readers.get_mut(&y) else {
        return Ok(());
    };
    requeue_places(places, work, list.as_slice(), waits)?;
    list.clear();
    Ok(())
}

/// Returns a copy of `list`, the points that read an exit, without those equal to the one before. A
/// sorted list thus loses all duplicates.
pub(crate) fn dedup_readers(alloc: Global, list: &[Spot]) -> Result<Vec<Spot>, AllocError>
    ensures { IfOk result (λ out. (q : Spot) → Contains out.items q ↔ Contains list.now q) }
{
    let mut out = Vec::new(alloc);
    for x in list {
        push_reader_unless_last(&mut out, *x)?;
    }
    Ok(out)
}

/// Appends a point to the readers of an exit. When the list reaches 1,024 points, or a greater
/// power of two, duplicates are looked for.
#[inline(always)]
fn push_reader(alloc: Global, list: &mut Vec<Spot>, x: Spot) -> Result<(), AllocError>
    ensures { OnOk result ((q : Spot)
        → Contains list.new.items q ↔ (Contains list.old.items q ⊎ (q ≡ x))) }
{
    list.push(x)?;
    if list.len() >= MANY && list.len().is_power_of_two() {
        sort_and_dedup_readers(alloc, list)?;
    }
    Ok(())
}

/// Sorts an exit's readers, and drops duplicates if they are at least half of the list.
#[inline(never)]
fn sort_and_dedup_readers(alloc: Global, list: &mut Vec<Spot>) -> Result<(), AllocError>
    ensures { OnOk result ((q : Spot) → Contains list.new.items q ↔ Contains list.old.items q) }
{
    list.sort_by_key(|x| x.order_number())?;
    let out = dedup_readers(alloc, list.as_slice())?;
    if out.len() <= list.len() / 2 {
        *list = out;
    }
    Ok(())
}
