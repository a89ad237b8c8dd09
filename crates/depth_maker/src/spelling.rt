// Writes the certificate of a table, point by point.
ghost use Rattle.std.specs.Prelude.{◌≡◌, ◌<◌, ◌^◌, ◌⊎◌, OnOk, IfOk};
ghost use Rattle.depth_maker.specs.Needs.{need_of_frame, AreLeastTableNeeds};
ghost use Rattle.depth_maker.specs.Rows.{HasFinishedTable};
ghost use Rattle.depth_maker.specs.SpelledCert.{address_of_entry, AreTableFrames, AreTablePointEntries, IsTableFrame, SourceHasLimitsOfFormat, IsOrderedCertSource, IsTablePointEntry, AreFixpointCertBytesFromSource, AppendsTableExit, AppendsTableNode, AppendsTableNodes, AppendsTablePoint, AppendsTablePoints};
ghost use Rattle.depth_maker.specs.SpotsAsPlaces.{spots_of_entries};

use crate::rows::Source;
use depth_cert::{Key, put_u16, write_key, write_no_exit};
use frame_places::{
    PointEntry, Spot, frame_number, place_address, points_of_frame, sorted_frames, sorted_points,
};
use std::alloc::Global;
use tcd_base::{NoMemory, put_u32};

/// The magic bytes 54 43 44 43 of a certificate, as a little-endian word.
const MAGIC: u32 = 0x4344_4354;

/// Establishes that a CCPN is below 256, as its type says, so that a certificate has a byte for
/// each. Does nothing.
pub(crate) fn ccpn_fits_byte(_byte: u8)
    ensures { _byte < 2 ^ 8 }
{}

/// Appends the certificate's bytes of one point of the maker's table: its address and its state.
/// `point` is the point's entry in the table.
fn append_table_point(
    out: &mut Vec<u8>,
    source: &Source,
    _key: Key,
    point: &PointEntry,
) -> Result<(), NoMemory>
    requires source { HasFinishedTable source.now }
    requires point { IsTablePointEntry source.now _key point.now }
    ensures { OnOk result (AppendsTablePoint source.now _key
        (address_of_entry source.now point.now) out.old.items out.new.items) }
{
    let Some((place, known)) = source.table.places.get_index(point.entry) else {
        unreachable!();
    };
    put_u32(out, place_address(place))?;
    let cell = &known.value;
    cell.append_state(source.ground.bounds, out)?;
    Ok(())
}

/// Appends the certificate's bytes of these points of the maker's table, which are of one frame, by
/// ascending address.
fn append_table_points(
    out: &mut Vec<u8>,
    source: &Source,
    key: Key,
    points: &[PointEntry],
) -> Result<(), NoMemory>
    requires source { HasFinishedTable source.now }
    requires points { AreTablePointEntries source.now key points.now }
    ensures { OnOk result (AppendsTablePoints source.now key
        (spots_of_entries source.now points.now) out.old.items out.new.items) }
{
    for p in points {
        append_table_point(out, source, key, p)?;
    }
    Ok(())
}

/// Appends the certificate's bytes of a frame's exit in the maker's table, or of no exit if none is
/// known.
fn append_table_exit(out: &mut Vec<u8>, source: &Source, key: Key) -> Result<(), NoMemory>
    requires source { HasFinishedTable source.now }
    ensures { OnOk result (AppendsTableExit source.now key out.old.items out.new.items) }
{
    let Some(known) = source.table.places.get(&Spot::Exit(key)) else {
        write_no_exit(out)?;
        return Ok(());
    };
    let cell = &known.value;
    let Some(exit) = cell.exit() else {
        unreachable!();
    };
    ccpn_fits_byte(exit.ccpn);
    exit.append_bytes(out)?;
    Ok(())
}

/// Returns the least need of the frame `key`, in areas, as a certificate's number of two bytes.
/// `needs` has the needs by the numbers of frames.
fn need_as_u16(source: &Source, needs: &[u32], key: Key) -> u16
    requires source { HasFinishedTable source.now }
    requires needs { AreLeastTableNeeds source.now needs.now }
    requires key { IsTableFrame source.now key }
    ensures { result ≡ need_of_frame (source.now.table.now).frames.items needs.now key }
{
    let number = frame_number(source.numbers, key);
    match needs.get(number) {
        Some(need) => *need as u16,
        None => 0,
    }
}

/// What a certificate is written from: the table, the needs of its frames, and its points in order.
#[derive(Drop)]
pub(crate) struct Ordered<'a> {
    pub(crate) source: &'a Source<'a>,
    pub(crate) needs: &'a [u32],
    pub(crate) points: &'a [PointEntry],
}

/// Returns the bytes of the certificate of the maker's finished table: the header, and a node for
/// each frame with its least need, from `needs` by frame number.
pub(crate) fn serialize_cert(
    alloc: Global,
    source: &Source,
    version: u8,
    needs: &[u32],
) -> Result<Vec<u8>, NoMemory>
    requires source { HasFinishedTable source.now }
    requires known { (version ≡ 1) ⊎ (version ≡ 2) }
    requires limits { SourceHasLimitsOfFormat source.now version }
    requires needs { AreLeastTableNeeds source.now needs.now }
    ensures { IfOk result (λ out. AreFixpointCertBytesFromSource source.now version out.items) }
{
    let frames = sorted_frames(alloc, source.table.frames.as_slice())?;
    let points = sorted_points(alloc, &source.table.places)?;
    let ordered = Ordered {
        source,
        needs,
        points: points.as_slice(),
    };
    let frames = frames.as_slice();
    let mut out = Vec::new(alloc);
    put_u32(&mut out, MAGIC)?;
    put_u16(&mut out, u16::from(version))?;
    put_u16(&mut out, frames.len() as u16)?;
    append_table_nodes(&mut out, &ordered, frames)?;
    Ok(out)
}

/// Appends the certificate's bytes of the nodes of these frames of the maker's table, in this
/// order.
fn append_table_nodes(out: &mut Vec<u8>, ordered: &Ordered, frames: &[Key]) -> Result<(), NoMemory>
    requires ordered { IsOrderedCertSource ordered.now }
    requires frames { AreTableFrames ordered.now frames.now }
    ensures { OnOk result (AppendsTableNodes ordered.now frames.now out.old.items out.new.items) }
{
    for k in frames {
        append_table_node(out, ordered, *k)?;
    }
    Ok(())
}

/// Appends the certificate's bytes of one frame's node: its key, need, exit and points.
fn append_table_node(out: &mut Vec<u8>, ordered: &Ordered, key: Key) -> Result<(), NoMemory>
    requires ordered { IsOrderedCertSource ordered.now }
    requires key { IsTableFrame ordered.now.source.now key }
    ensures { OnOk result (AppendsTableNode ordered.now key out.old.items out.new.items) }
{
    let source = ordered.source;
    let points = points_of_frame(ordered.points, key);
    write_key(out, &key)?;
    put_u16(out, need_as_u16(source, ordered.needs, key))?;
    append_table_exit(out, source, key)?;
    put_u32(out, points.len() as u32)?;
    append_table_points(out, source, key, points)?;
    Ok(())
}
