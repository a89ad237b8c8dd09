// The table of the worklist algorithm.

use crate::covered::CoveredEntries;
use depth_cert::Key;
use elf_image::Image;
use frame_places::{Marked, Spot, Work};
use indexmap::IndexMap;
use small_states::SmallKnown;

/// What is known at each place, and which places have work.
#[derive(Drop)]
pub(crate) struct Table {
    /// What is known at each place, with the place's mark.
    pub(crate) places: IndexMap<Spot, Marked<SmallKnown>>,
    /// The points that read each exit.
    pub(crate) readers: IndexMap<Spot, Vec<Spot>>,
    /// The places with work, by their numbers in the order of `places`.
    pub(crate) work: Work,
    /// The known points, in the order in which they were found.
    pub(crate) points: Vec<Spot>,
    /// The frames with a known point, in the order in which they were found.
    pub(crate) frames: Vec<Key>,
    /// What was asked for last at the entries of frames, which is covered.
    pub(crate) covered: CoveredEntries,
    /// The number of the visited place.
    pub(crate) near: usize,
}

/// The greatest number of places to make room for at first. It is the greatest number of points of
/// a certificate; exits are places too, so more room may be needed later.
const MOST_ROOM: usize = 65536;

/// Returns the number of places (points and exits) that the maker's table has room for at first:
/// the image's halfwords, at most 65,536.
pub(crate) fn initial_table_capacity(image: &Image) -> usize {
    let mut room: usize = 0;
    for segment in image.segments.iter() {
        room = room.saturating_add(segment.bytes.len() / 2);
    }
    room.min(MOST_ROOM)
}
