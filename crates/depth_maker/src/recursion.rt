// The first point that enters a frame from which its own is reached.
ghost use Rattle.std.specs.Prelude.{◌≡◌, ◌↔◌, IsTrue, IfOk};
ghost use Rattle.depth_maker.specs.Recursing.{AreTableEdges, EntersMarkedFrame, IsFirstRecursiveAddress, UpdatesFirstRecursiveAddress, IsFirstRecursion};
ghost use Rattle.depth_maker.specs.Rows.{HasFinishedTable};

use crate::rows::{KnownPoint, Source, point_row};
use cfg_recover::start_state;
use depth_cert::Key;
use frame_places::{
    FrameEdge, Spot, address_in_frame, first_recursive_node, frame_number, has_marked_node,
    numbers_of_keys, reaching_marks,
};
use small_states::ScratchState;
use std::alloc::{AllocError, Global};

/// Returns the first point, by key and address, that enters a frame from which its own is reached;
/// `None` without recursion. `edges` is the call graph of `frames`, `ranks` its topological order.
pub(crate) fn first_recursion(
    alloc: Global,
    source: &Source,
    edges: &[FrameEdge],
    ranks: &[usize],
    frames: &[Key],
) -> Result<Option<(Key, u32)>, AllocError>
    requires source { HasFinishedTable source.now }
    requires frames { frames.now ≡ source.now.table.now.frames.items }
    requires edges { AreTableEdges source.now edges.now }
    ensures { IfOk result (IsFirstRecursion source.now) }
{
    let orders = numbers_of_keys(alloc, frames)?;
    let Some(node) = first_recursive_node(alloc, orders.as_slice(), edges, ranks)? else {
        return Ok(None);
    };
    let marks = reaching_marks(alloc, frames.len(), edges, node)?;
    let key = frames[node];
    let points = source.table.points.as_slice();
    match first_recursive_address(alloc, source, marks.as_slice(), key, points)? {
        Some(addr) => Ok(Some((key, addr))),
        None => unreachable!(),
    }
}

/// Returns the least address among those of `points` that are of the frame `key` and enter a marked
/// frame, or `None`. Marked, by frame number, are the frames that reach `key`.
fn first_recursive_address(
    alloc: Global,
    source: &Source,
    marks: &[bool],
    key: Key,
    points: &[Spot],
) -> Result<Option<u32>, AllocError>
    requires { HasFinishedTable source.now }
    ensures { IfOk result (IsFirstRecursiveAddress source.now marks.now key points.now) }
{
    let mut first = None;
    for place in points {
        first = lesser_recursive_address(alloc, source, marks, key, *place, first)?;
    }
    Ok(first)
}

/// Returns the lesser of `first` and the place's address, if the place is a point of the frame
/// `key` that enters a marked frame; else `first`. Marks are by frame number.
fn lesser_recursive_address(
    alloc: Global,
    source: &Source,
    marks: &[bool],
    key: Key,
    place: Spot,
    first: Option<u32>,
) -> Result<Option<u32>, AllocError>
    requires { HasFinishedTable source.now }
    ensures { IfOk result (UpdatesFirstRecursiveAddress source.now marks.now key place first) }
{
    let Some(addr) = address_in_frame(key, place) else {
        return Ok(first);
    };
    if let Some(other) = first {
        if other <= addr {
            return Ok(Some(other));
        }
    }
    if enters_marked_frame(alloc, source, marks, key, addr)? {
        Ok(Some(addr))
    } else {
        Ok(first)
    }
}

/// Returns whether the point at `addr` of the frame `key` enters a frame whose number is marked
/// true in `marks`; false if the point isn't known.
fn enters_marked_frame(
    alloc: Global,
    source: &Source,
    marks: &[bool],
    key: Key,
    addr: u32,
) -> Result<bool, AllocError>
    requires { HasFinishedTable source.now }
    ensures { IfOk result (λ enters. IsTrue enters
        ↔ EntersMarkedFrame source.now marks.now key addr) }
{
    let place = Spot::Point(key, addr);
    let Some(known) = source.table.places.get(&place) else {
        return Ok(false);
    };
    let at = KnownPoint {
        key,
        addr,
        node: frame_number(source.numbers, key),
        known,
    };
    let mut state = ScratchState::new(start_state(source.ground.plan));
    let row = point_row(alloc, source, &mut state, &at)?;
    Ok(has_marked_node(marks, row.into.as_slice()))
}
