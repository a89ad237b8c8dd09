// Places of frames, and their marks for the work list.
ghost use Rattle.std.specs.Prelude.{◌≡◌, IfOk, None, OnOk, Some};
ghost use Rattle.std.specs.Hash as fed;
ghost use Rattle.frame_places.specs.Spots.{is_entry_point, spot_order_number, IsAddressInFrame, spot_address};
ghost use Rattle.frame_places.specs.Hashed.{hashed_word};
ghost use Rattle.frame_places.specs.declared.places.Spot.{Spot};
ghost use Rattle.frame_places.specs.declared.places.Mark.TheVariants.{Queued};
ghost use Rattle.frame_places.specs.Numbers.{PlaceHasNumber};
ghost use Rattle.frame_places.specs.Work.{all_work};
ghost use Rattle.frame_places.specs.Marks.{AddsOrFindsPlace, AreQueuedPlacesListed, SetsAndQueuesPlace, value_of_place};

use crate::marks::is_unvisited_entry;
use crate::work_list::{Work, enqueue, enqueue_new};
use depth_cert::{Key, key_number};
use indexmap::IndexMap;
use indexmap::map::Entry;
use std::alloc::AllocError;
use std::hash::{Hash, Hasher};

/// One more than the greatest address.
pub(crate) const ADDRESSES: u128 = 4_294_967_296;

/// A place of a frame.
#[derive(Clone, Copy, Debug, PartialEq, Eq)]
pub enum Spot {
    /// The point of a frame at an address.
    Point(Key, u32),
    /// The exit of a frame.
    Exit(Key),
}

impl Spot {
    /// Returns the number by which places are sorted: the number of the frame's key times 2^32,
    /// plus the address, 0 for an exit.
    #[inline(always)]
    pub(crate) fn order_number(&self) -> u128
        ensures { result ≡ spot_order_number self.now }
    {
        match self {
            Spot::Point(key, addr) => u128::from(key_number(key)) * ADDRESSES + u128::from(*addr),
            Spot::Exit(key) => u128::from(key_number(key)) * ADDRESSES,
        }
    }

    /// Returns whether the place is the entry point of its frame.
    pub fn is_entry(&self) -> bool
        ensures { result ≡ is_entry_point self.now }
    {
        match self {
            Spot::Point(key, addr) => *addr == key.entry,
            Spot::Exit(_) => false,
        }
    }

    /// Returns the word by which a place is hashed: the low four bytes of the number of its key,
    /// and the address.
    #[inline(always)]
    fn hash_word(&self) -> u64
        ensures { result ≡ hashed_word self.now }
    {
        match self {
            Spot::Point(key, addr) => key_number(key) % 4_294_967_296 * 4_294_967_296
                + u64::from(*addr),
            Spot::Exit(key) => key_number(key) % 4_294_967_296 * 4_294_967_296,
        }
    }
}

/// Hashing is one write of eight bytes.
impl Hash for Spot {
    ghost use Rattle.frame_places.specs.Hashed.{equal_spots_hash_alike, hashed_word};

    ghost hash_input = { λ x. fed.u64 (hashed_word x) };

    ghost respects_eq = { λ x y e. equal_spots_hash_alike x y e };

    fn hash<H: Hasher>(&self, state: &mut H) {
        state.write_u64(self.hash_word());
    }
}

/// The value of a place, and its mark.
#[derive(Drop)]
pub struct Marked<V> {
    pub value: V,
    pub mark: Mark,
    /// The number of visits, up to 255.
    pub visits: u8,
}

/// What a place is for the work list.
#[derive(Clone, Copy, Debug, PartialEq, Eq)]
pub enum Mark {
    /// All that it owes is covered.
    Idle,
    /// All that it owes is covered, and its instruction enters no frame by itself.
    Plain,
    /// It is on the work list.
    Queued,
    /// It is being visited.
    Open,
}

/// Returns the address of a point, or 0 for an exit.
pub fn place_address(place: &Spot) -> u32
    ensures { result ≡ spot_address place.now }
{
    match place {
        Spot::Point(_, addr) => *addr,
        Spot::Exit(_) => 0,
    }
}

/// Returns the address of a place (a point or an exit) if the place is a point of the frame `key`,
/// else `None`.
pub fn address_in_frame(key: Key, place: Spot) -> Option<u32>
    ensures { IsAddressInFrame key place result }
{
    let Spot::Point(other, addr) = place else {
        return None;
    };
    if other == key { Some(addr) } else { None }
}

/// Adds the unknown place `y` (a point or an exit of a frame) with this value to the map of places.
/// The place is marked as queued and put on the work list.
#[inline(always)]
pub fn add_queued_place<V: Drop>(
    places: &mut IndexMap<Spot, Marked<V>>,
    work: &mut Work,
    y: Spot,
    value: V,
) -> Result<(), AllocError>
    requires listed { AreQueuedPlacesListed places.old (all_work work.old) }
    requires new { value_of_place places.old y ≡ None }
    ensures puts { OnOk result (SetsAndQueuesPlace places.old places.new y value) }
    ensures work { OnOk result (AreQueuedPlacesListed places.new (all_work work.new)) }
{
    let number = places.len();
    let entry = y.is_entry();
    let place = Marked {
        value,
        mark: Mark::Queued,
        visits: 0,
    };
    places.insert(y, place)?;
    enqueue_new(work, number, entry)?;
    Ok(())
}

/// Returns the number of the place `y` (a point or an exit of a frame) if known. Otherwise adds `y`
/// with this value, marked as queued, to the map and the work list, and returns `None`.
#[inline(always)]
pub fn add_or_find_place<V: Drop>(
    places: &mut IndexMap<Spot, Marked<V>>,
    work: &mut Work,
    y: Spot,
    value: V,
) -> Result<Option<usize>, AllocError>
    requires listed { AreQueuedPlacesListed places.old (all_work work.old) }
    ensures { IfOk result (AddsOrFindsPlace places.old places.new work.old work.new y value) }
{
    let number = places.len();
    let entry = y.is_entry();
    match places.entry(y)? {
        Entry::Occupied(known) => Ok(Some(known.index())),
        Entry::Vacant(place) => {
            place.insert(Marked {
                value,
                mark: Mark::Queued,
                visits: 0,
            });
            enqueue_new(work, number, entry)?;
            Ok(None)
        }
    }
}

/// Sets the value of the place (a point or an exit) with this number, and queues the place unless
/// queued. A frame's entry point (`entry`) waits for the next round, or moves ahead if queued but
/// not visited yet.
#[inline(always)]
pub fn set_and_queue_place<V: Drop>(
    places: &mut IndexMap<Spot, Marked<V>>,
    work: &mut Work,
    number: usize,
    value: V,
    entry: bool,
) -> Result<(), AllocError>
    requires listed { AreQueuedPlacesListed places.old (all_work work.old) }
    ensures puts { (y : Spot) → PlaceHasNumber places.old number y
        → OnOk result (SetsAndQueuesPlace places.old places.new y value) }
    ensures work { (y : Spot) → PlaceHasNumber places.old number y
        → OnOk result (AreQueuedPlacesListed places.new (all_work work.new)) }
{
    let Some(place) = places.get_index_mut(number) else {
        return Ok(());
    };
    place.value = value;
    if let Mark::Queued = place.mark {
        if is_unvisited_entry(entry, place.visits) {
            work.push_to_round(number)?;
        }
        return Ok(());
    }
    place.mark = Mark::Queued;
    enqueue(work, number, entry)?;
    Ok(())
}
