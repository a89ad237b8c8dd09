// Reads points: their addresses and the places of their states.
// Fast path: the state of the point before is at hand, and its bytes are compared with those here.
// If all come again, they are passed over, and else only the values whose bytes differ are read. In
// bench/, a point of *functions*, whose state has 106 bytes, takes some 180 instructions if they
// come again, and 480 more if they don't.
ghost use Rattle.std.specs.Prelude.{◌≡◌, ◌≤◌, ◌<◌, ◌+◌, ◌-◌, ◌^◌, ℕ, List, vec_len, false, Ok, Err, OnOk, IfOk, IfErr, IfSome, IsTrue, IsFalse};
ghost use Rattle.depth_cert.specs.Grammar.{state_at, points_at};
ghost use Rattle.depth_cert.specs.Answers.{IsFaultOf};
ghost use Rattle.packed_cert.specs.ValuesInBytes.{AreValuesInBytes};
ghost use Rattle.packed_cert.specs.ChangedRows.{ChangesOnlyRow, IsRowOfValuesAt, IsWholeRow};
ghost use Rattle.packed_cert.specs.PointsInBytes.{AreStatePlaces, AscendByAddress, HasLastState, PointsHaveStates, points_in_bytes};
ghost use Rattle.packed_cert.specs.RepeatedBytes.{IsRepeatedStateAt};
ghost use Rattle.packed_cert.specs.Moves.{AllDifferOnlyInRows};

use crate::places::{
    ExitPlaces, PointPlace, ReadState, RepeatedState, StatePlaces, VALUES, ValueRow, empty_row,
};
use crate::repeated_bytes::count_repeated_before;
use crate::value_reader::{read_or_skip_values, skip_values_to};
use arrayvec::ArrayVec;
use depth_cert::{CertErr, Exit, read_address, read_flag, read_locals, read_point_count};
use std::alloc::Global;
use std::marker::Model;
use tcd_base::{FileCursor, FormErr, read_u8};
use value_domain::{State, Val};

/// What the reading of a certificate carries from node to node.
#[derive(Drop)]
pub(crate) struct ReadingRoom {
    pub(crate) exit: ExitRoom,
    pub(crate) state: State,
    /// The places of the state that was read last.
    pub(crate) last: Option<StatePlaces>,
    /// The number of points that were read.
    pub(crate) used: usize,
}

/// Room for an exit, and the places of the one that was read last.
#[derive(Drop)]
pub(crate) struct ExitRoom {
    pub(crate) exit: Exit,
    pub(crate) last: Option<ExitPlaces>,
}

/// Returns a placeholder, which the first state read from a certificate overwrites: each register
/// may have any value, and there are no saved lower contexts.
pub(crate) fn blank_state_for_reading() -> State {
    State {
        regs: std::array::from_fn(|_| Val::any()),
        ie: false,
        ccpn: 0,
        lower: false,
        locals: ArrayVec::new(),
    }
}

/// Reads the addresses of a node's points and the offsets of their states, in format `version`.
/// `room` keeps the state read last, to skip equal bytes, and counts the points.
#[tactic(auto, unfolding(depth_cert::specs::Grammar::points_at))]
pub(crate) fn read_points(
    alloc: Global,
    c: &mut FileCursor<'_>,
    bytes: &[u8],
    version: u8,
    room: &mut ReadingRoom,
) -> Result<Vec<PointPlace>, CertErr>
    requires same { c.old.bytes ≡ bytes.now }
    requires used { room.old.used ≤ 2 ^ 16 }
    requires state { HasLastState version bytes.now room.old }
    ensures ok { IfOk result (λ ps. points_at version room.old.used c.old
        ≡ Ok (points_in_bytes version bytes.now ps.items, c.new)) }
    ensures err { IfErr result (IsFaultOf (points_at version room.old.used c.old)) }
    ensures states { IfOk result (λ ps. PointsHaveStates version bytes.now ps.items) }
    ensures rising { IfOk result (λ ps. AscendByAddress ps.items) }
    ensures moves { IfOk result (λ ps. AllDifferOnlyInRows version bytes.now ps.items) }
    ensures used { IfOk result (λ ps. room.new.used ≡ room.old.used + vec_len ps) }
    ensures few { OnOk result (room.new.used ≤ 2 ^ 16) }
    ensures exit { room.new.exit ≡ room.old.exit }
    ensures state { OnOk result (HasLastState version bytes.now room.new) }
    ensures bytes { c.new.bytes ≡ c.old.bytes }
{
    let _place = c.place(); // so that the prover knows that the bytes are few
    let count = read_point_count(c, room.used)?;
    let mut points = Vec::new(alloc);
    let mut last = None;
    for i in 0..count {
        let addr = read_address(c, last)?;
        last = Some(addr);
        let read = read_or_skip_state(c, bytes, version, room.last, &mut room.state)?;
        room.last = Some(read.at);
        let kept = with_whole_row_if_first(read, i == 0);
        points.push(PointPlace {
            addr,
            place: read.at.start as u32,
            row: kept.row,
            same: kept.same,
        })?;
    }
    room.used += points.len();
    Ok(points)
}

/// Reads the state at the cursor into `out`, in format `version`. If its bytes equal those at the
/// offsets `before`, from which `out` was read, they are skipped.
#[inline(always)]
pub(crate) fn read_or_skip_state(
    c: &mut FileCursor<'_>,
    bytes: &[u8],
    version: u8,
    before: Option<StatePlaces>,
    out: &mut State,
) -> Result<ReadState, FormErr>
    requires same { c.old.bytes ≡ bytes.now }
    requires before { IfSome before (AreStatePlaces version bytes.now out.old) }
    ensures ok { OnOk result (state_at version c.old ≡ Ok (out.new, c.new)) }
    ensures err { IfErr result (λ e. state_at version c.old ≡ Err e) }
    ensures held { IfOk result (λ r. AreStatePlaces version bytes.now out.new r.at) }
    ensures row { IfOk result (λ r. ChangesOnlyRow out.old.regs out.new.regs r.row) }
    ensures from { IfOk result (λ r. IsRowOfValuesAt bytes.now r.at.values r.row) }
    ensures again { IfOk result (λ r. IsTrue r.same → out.new ≡ out.old) }
    ensures bytes { c.new.bytes ≡ c.old.bytes }
{
    let Some(at) = before else {
        return read_changed_state(c, bytes, version, None, out);
    };
    let place = c.place();
    let same = count_repeated_before(bytes, at.start, place, at.end);
    if same == at.end - at.start {
        skip_values_to(c, place + same);
        return Ok(ReadState {
            at,
            row: empty_row(),
            same: true,
        });
    }
    let repeated = RepeatedState { at, same };
    read_changed_state(c, bytes, version, Some(repeated), out)
}

/// Reads the state at the cursor into `out`, in format `version`. `before`, if any, says where
/// `out` was read. Returns the offset of the values, and the range of slots that may have changed.
#[tactic(auto, unfolding(depth_cert::specs::Grammar::state_at))]
pub(crate) fn read_state_fields(
    c: &mut FileCursor<'_>,
    bytes: &[u8],
    version: u8,
    before: Option<RepeatedState>,
    out: &mut State,
) -> Result<(usize, ValueRow), FormErr>
    requires same { c.old.bytes ≡ bytes.now }
    requires held { IfSome before (IsRepeatedStateAt version bytes.now out.old.regs c.old.place) }
    ensures ok { OnOk result (state_at version c.old ≡ Ok (out.new, c.new)) }
    ensures err { IfErr result (λ e. state_at version c.old ≡ Err e) }
    ensures held { IfOk result
        (λ r. AreValuesInBytes version bytes.now out.new.regs r.0 c.new.place) }
    ensures row { IfOk result (λ r. ChangesOnlyRow out.old.regs out.new.regs r.1) }
    ensures from { IfOk result (λ r. IsRowOfValuesAt bytes.now r.0 r.1) }
    ensures bytes { c.new.bytes ≡ c.old.bytes }
{
    let start = c.place();
    out.ie = read_flag(c)?;
    out.ccpn = read_u8(c)?;
    out.lower = read_flag(c)?;
    out.locals = read_locals(c, version)?;
    let at = c.place();
    let row = read_or_skip_values(c, bytes, version, before, start, &mut out.regs)?;
    Ok((at, row))
}

/// Reads the state at the cursor into `out`, in format `version`. `before`, if any, says where
/// `out` was read, and how many bytes at the start, not all, the two states share.
#[inline(never)]
pub(crate) fn read_changed_state(
    c: &mut FileCursor<'_>,
    bytes: &[u8],
    version: u8,
    before: Option<RepeatedState>,
    out: &mut State,
) -> Result<ReadState, FormErr>
    requires same { c.old.bytes ≡ bytes.now }
    requires held { IfSome before (IsRepeatedStateAt version bytes.now out.old.regs c.old.place) }
    ensures ok { OnOk result (state_at version c.old ≡ Ok (out.new, c.new)) }
    ensures err { IfErr result (λ e. state_at version c.old ≡ Err e) }
    ensures held { IfOk result (λ r. AreStatePlaces version bytes.now out.new r.at) }
    ensures row { IfOk result (λ r. ChangesOnlyRow out.old.regs out.new.regs r.row) }
    ensures from { IfOk result (λ r. IsRowOfValuesAt bytes.now r.at.values r.row) }
    ensures other { IfOk result (λ r. r.same ≡ false) }
    ensures bytes { c.new.bytes ≡ c.old.bytes }
{
    let start = c.place();
    let fields = read_state_fields(c, bytes, version, before, out)?;
    let end = c.place();
    let at = StatePlaces {
        start,
        values: fields.0,
        end,
    };
    Ok(ReadState {
        at,
        row: fields.1,
        same: false,
    })
}

/// Makes a walk over a node's points read all 27 values of the `first` point's state, as any state
/// may come before. Returns `read` unchanged for other points.
fn with_whole_row_if_first(read: ReadState, first: bool) -> ReadState
    requires { read.at.values < 2 ^ 32 }
    ensures first { IsTrue first → IsWholeRow 27 result.row × (result.same ≡ false) }
    ensures later { IsFalse first → result ≡ read }
    ensures from { (bytes : List ℕ) → IsRowOfValuesAt bytes read.at.values read.row
        → IsRowOfValuesAt bytes read.at.values result.row }
{
    if !first {
        return read;
    }
    ReadState {
        at: read.at,
        row: ValueRow {
            first: 0,
            behind: VALUES as u8,
            from: read.at.values as u32,
        },
        same: false,
    }
}
