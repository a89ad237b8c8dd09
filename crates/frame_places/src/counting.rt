// Counts the known points and frames, within the limits of certificates.
ghost use Rattle.std.specs.Prelude.{◌≡◌, ◌≤◌, ◌^◌, OnOk, IfErr, false, length};
ghost use Rattle.frame_places.specs.declared.places.Spot.TheVariants.{Point};
ghost use Rattle.frame_places.specs.Counting.{IsLimitRefusal, frames_after_recording, points_after_recording, frames_with_entry, points_with};

use crate::places::Spot;
use crate::refusals::{LIMITS_RULE, Refusal};
use depth_cert::Key;

/// The greatest number of points in a certificate.
const MOST_POINTS: usize = 65536;

/// The greatest number of frames in a certificate.
const MOST_FRAMES: usize = 2048;

/// Appends an unknown point `y` to the maker's points, and its frame to `frames` if `y` is the
/// entry point. An exit or a `known` place adds nothing. Refuses by K15 past 65,536 points or 2,048
/// frames.
pub fn record_place(
    known: bool,
    points: &mut Vec<Spot>,
    frames: &mut Vec<Key>,
    y: Spot,
) -> Result<(), Refusal>
    requires points { length points.old.items ≤ 2 ^ 16 }
    requires frames { length frames.old.items ≤ 2048 }
    ensures points { OnOk result
        (points.new.items ≡ points_after_recording known points.old.items y) }
    ensures frames { OnOk result
        (frames.new.items ≡ frames_after_recording known frames.old.items y) }
    ensures few_points { OnOk result (length points.new.items ≤ 2 ^ 16) }
    ensures few_frames { OnOk result (length frames.new.items ≤ 2048) }
    ensures err { IfErr result (IsLimitRefusal known points.old.items frames.old.items y) }
{
    if known {
        return Ok(());
    }
    match y {
        Spot::Exit(_) => Ok(()),
        Spot::Point(key, addr) => record_point(points, frames, key, addr),
    }
}

/// Appends the new point at `addr` of the frame `key` to the maker's points, and the frame to
/// `frames` if `addr` is its entry. Refuses by K15 past 65,536 points or 2,048 frames.
fn record_point(
    points: &mut Vec<Spot>,
    frames: &mut Vec<Key>,
    key: Key,
    addr: u32,
) -> Result<(), Refusal>
    requires points { length points.old.items ≤ 2 ^ 16 }
    requires frames { length frames.old.items ≤ 2048 }
    ensures points { OnOk result
        (points.new.items ≡ points_with points.old.items (Point key addr)) }
    ensures frames { OnOk result
        (frames.new.items ≡ frames_with_entry frames.old.items (Point key addr)) }
    ensures few_points { OnOk result (length points.new.items ≤ 2 ^ 16) }
    ensures few_frames { OnOk result (length frames.new.items ≤ 2048) }
    ensures err { IfErr result
        (IsLimitRefusal false points.old.items frames.old.items (Point key addr)) }
{
    if points.len() == MOST_POINTS {
        return Err(Refusal::Fault(LIMITS_RULE, Spot::Point(key, addr)));
    }
    if addr == key.entry {
        if frames.len() == MOST_FRAMES {
            return Err(Refusal::Fault(LIMITS_RULE, Spot::Point(key, addr)));
        }
        frames.push(key)?;
    }
    points.push(Spot::Point(key, addr))?;
    Ok(())
}
