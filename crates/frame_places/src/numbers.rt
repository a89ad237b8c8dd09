// Numbers of frames: their places in the list of frames.
ghost use Rattle.std.specs.Prelude.{◌≡◌, List, Contains, IfOk, map};
ghost use Rattle.std.specs.List.{IsDistinct};
ghost use Rattle.depth_cert.specs.Keys.{is_same_key};
ghost use Rattle.depth_cert.specs.declared.keys.Key.{Key};
ghost use Rattle.frame_places.specs.Numbers.{AreNumbersOfFrames, frame_number_in};

use depth_cert::Key;
use indexmap::IndexMap;
use std::alloc::{AllocError, AllocFailed, Global};

/// Returns the map from each frame's key to the frame's number: its index in this list.
pub fn frame_number_map(
    alloc: Global,
    frames: &[Key],
) -> Result<IndexMap<Key, usize>, AllocFailed<(Key, usize)>>
    requires { IsDistinct is_same_key frames.now }
    ensures { IfOk result (λ numbers. AreNumbersOfFrames numbers frames.now) }
{
    let mut numbers = IndexMap::new(alloc);
    for (i, key) in frames.iter().enumerate() {
        numbers.insert(*key, i)?;
    }
    Ok(numbers)
}

/// Returns the number of the frame with this key, or 0 if the map has none.
pub fn frame_number(numbers: &IndexMap<Key, usize>, key: Key) -> usize
    ensures { (frames : List Key) → AreNumbersOfFrames numbers.now frames
        → Contains frames key
        → result ≡ frame_number_in frames key }
{
    match numbers.get(&key) {
        Some(number) => *number,
        None => 0,
    }
}

/// Returns the number of the frame with this key, or 0 if the map has none. The likely number
/// `near`, as that of the frame looked up before, is tried first.
#[inline(always)]
pub fn frame_number_with_hint(numbers: &IndexMap<Key, usize>, near: usize, key: &Key) -> usize
    ensures { (frames : List Key) → AreNumbersOfFrames numbers.now frames
        → Contains frames key.now → result ≡ frame_number_in frames key.now }
{
    if let Some((other, number)) = numbers.get_index(near) {
        if other == key {
            return *number;
        }
    }
    frame_number(numbers, *key)
}

/// Returns the numbers of the frames with the keys `entered`, in their order, in a list with room
/// for `more` others. A key that the map lacks gets 0.
pub fn entered_frame_numbers(
    alloc: Global,
    numbers: &IndexMap<Key, usize>,
    entered: &[Key],
    more: usize,
) -> Result<Vec<usize>, AllocError>
    ensures { IfOk result (λ into. (frames : List Key)
        → AreNumbersOfFrames numbers.now frames
        → ((k : Key) → Contains entered.now k → Contains frames k)
        → into.items ≡ map (frame_number_in frames) entered.now) }
{
    let mut into = Vec::with_capacity(alloc, entered.len().saturating_add(more))?;
    for key in entered {
        into.push(frame_number(numbers, *key))?;
    }
    Ok(into)
}
