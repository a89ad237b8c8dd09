// The type `PointWalk`: the points of a node one after another, with room for one state.
ghost use Rattle.std.specs.Prelude.{◌≡◌, ◌≤◌, ◌<◌, ◌-◌, ◌↔◌, [], drop, IfSome, IsTrue};
ghost use Rattle.packed_cert.specs.PointsInBytes.{state_in_bytes, StateBeginsAt};
ghost use Rattle.packed_cert.specs.ChangedRows.{ChangesOnlyRow};
ghost use Rattle.packed_cert.specs.ValuesInBytes.{values_in_bytes, ValuesBeginAt};
ghost use Rattle.packed_cert.specs.Moves.{DiffersOnlyInRow};

use crate::next_covers::is_covered_by_next_point;
use crate::nodes::count_points_below;
use crate::places::{PointPlace, ValueRow, empty_row};
use crate::point_reader::blank_state_for_reading;
use crate::states::StateAt;
use crate::value_reader::value_length_by_tag;
use crate::values_at_places::read_value_at_offset;
use std::marker::Model;
use value_domain::{State, Val};
use vd_transfer::{Base, Change};

/// A walk over the points of a node: the state of the point at hand, the row of its values that
/// were read, and the points after it.
#[derive(Drop)]
pub struct PointWalk<'a> {
    bytes: &'a [u8],
    version: u8,
    points: &'a [PointPlace],
    next: usize,
    row: ValueRow,
    state: State,
}

impl<'a> Model for PointWalk<'a> {
    ghost use Rattle.std.specs.Prelude.{◌-◌, take, drop};
    ghost use Rattle.packed_cert.specs.PointsInBytes.{points_in_bytes};
    ghost use Rattle.packed_cert.specs.Walks.{WalkData, IsWalk};

    ghost Value = { WalkData };

    ghost view = { λ w. record {
      points = points_in_bytes w.version w.bytes.now w.points.now;
      current = w.state;
      anew = take (w.row.behind - w.row.first) (drop w.row.first (w.state).regs);
      left = points_in_bytes w.version w.bytes.now (drop w.next w.points.now);
    } };

    ghost invariant = { λ w.
        IsWalk w.version w.bytes.now w.points.now w.next w.row w.state };
}

impl<'a> PointWalk<'a> {
    ghost use Rattle.packed_cert.specs.PointsInBytes.{points_in_bytes, AscendByAddress, PointsHaveStates};
    ghost use Rattle.value_domain.specs.State.{AreWellFormed};
    ghost use Rattle.vd_transfer.specs.Changes.{state_after};
    ghost use Rattle.packed_cert.specs.Moves.{AllDifferOnlyInRows};
    ghost use Rattle.packed_cert.specs.Walks.{AdvancesTo, IsNextWithSameState, IsCoveredByNext, IsCoveredAt};

    /// Returns a walk over no points, to be restarted on the points of a certificate's node.
    pub fn empty() -> PointWalk<'a>
        ensures { result.left ≡ [] }
    {
        PointWalk {
            bytes: &[],
            version: 1,
            points: &[],
            next: 0,
            row: empty_row(),
            state: blank_state_for_reading(),
        }
    }

    /// Resets this walk to before the first of these points of a certificate's node, in format
    /// `version`. The current state stays until `advance` overwrites the values that differ.
    pub(crate) fn restart(&mut self, bytes: &'a [u8], version: u8, points: &'a [PointPlace])
        requires states { PointsHaveStates version bytes.now points.now }
        requires rising { AscendByAddress points.now }
        requires moves { AllDifferOnlyInRows version bytes.now points.now }
        ensures left { self.new.left ≡ points_in_bytes version bytes.now points.now }
        ensures points { self.new.points ≡ points_in_bytes version bytes.now points.now }
    {
        self.bytes = bytes;
        self.version = version;
        self.points = points;
        self.next = 0;
        self.row = empty_row();
    }

    /// Advances to the next point of a certificate's node and returns its address, or `None` after
    /// the last. The point's state becomes the current state.
    #[inline(always)]
    pub fn advance(&mut self) -> Option<u32>
        ensures { AdvancesTo self.old result self.new }
    {
        if self.next >= self.points.len() {
            return None;
        }
        let point = self.points[self.next];
        self.row = read_state_of_point(self.bytes, self.version, point, &mut self.state);
        self.next += 1;
        Some(point.addr)
    }

    /// Returns the address of the walk's next point if its state is the current one, else `None`.
    pub fn next_address_if_same_state(&self) -> Option<u32>
        ensures { IfSome result (IsNextWithSameState self.now) }
    {
        if self.next >= self.points.len() {
            return None;
        }
        let point = self.points[self.next];
        if point.same { Some(point.addr) } else { None }
    }

    /// Returns true only if the walk's next point is at `addr` and covers the current state after
    /// the change `c`. Only values that `c` writes, or that may differ at that point, are compared.
    pub fn is_covered_by_next(&self, addr: u32, c: &Change) -> bool
        requires hand { AreWellFormed self.now.current.regs }
        requires changed { AreWellFormed (state_after self.now.current c.now).regs }
        ensures { IsTrue result → IsCoveredByNext self.now addr
            (state_after self.now.current c.now) }
    {
        if self.next >= self.points.len() {
            return false;
        }
        let point = self.points[self.next];
        if point.addr != addr {
            return false;
        }
        match c.base {
            Base::Same => is_covered_by_next_point(&self.state, c, self.bytes, self.version, point),
            _ => false,
        }
    }

    /// Returns true if the node has a point at `addr` whose state covers the current one. Values
    /// aren't compared if both are at the same offset in the file.
    pub fn is_covered_at(&self, addr: u32) -> bool
        requires { AreWellFormed self.now.current.regs }
        ensures { IsTrue result ↔ IsCoveredAt self.now addr }
    {
        let points = self.points;
        let at = count_points_below(points, addr, self.next);
        if at < points.len() && points[at].addr == addr {
            let place = points[at].place;
            if self.next > 0 && points[self.next - 1].place == place {
                return true;
            }
            return StateAt::new(self.bytes, self.version, place as usize).covers(&self.state);
        }
        false
    }

    /// Returns the current state of the walk: that of the point advanced to last.
    pub fn state(&self) -> &State
        ensures { result.now ≡ self.now.current }
    {
        &self.state
    }

    /// Returns the values of the current state that the walk's last advance may have changed. All
    /// others were in the state before too.
    pub fn new_values(&self) -> &[Val]
        ensures { result.now ≡ self.now.anew }
    {
        let regs = &self.state.regs[..];
        &regs[self.row.first as usize..self.row.behind as usize]
    }
}

/// Overwrites `room`, the state of the point before, with that of `point`, in format `version`.
/// Returns the range of register slots whose values may have changed.
fn read_state_of_point(bytes: &[u8], version: u8, point: PointPlace, room: &mut State) -> ValueRow
    requires state { StateBeginsAt version bytes.now point.place }
    requires moved { DiffersOnlyInRow version bytes.now room.old point }
    ensures state { room.new ≡ state_in_bytes version bytes.now point.place }
    ensures row { ChangesOnlyRow room.old.regs room.new.regs result }
    ensures few { result.behind ≤ 27 }
{
    if point.same {
        return empty_row();
    }
    let at = StateAt::new(bytes, version, point.place as usize);
    room.ie = at.ie();
    room.ccpn = at.ccpn();
    room.lower = at.lower();
    room.locals = at.locals();
    read_row_values(bytes, version, point, &mut room.regs);
    point.row
}

/// Overwrites `out`, the register values of the point before, with those of `point`, in format
/// `version`. Only the slots of `point.row` are read, as no others differ.
fn read_row_values(bytes: &[u8], version: u8, point: PointPlace, out: &mut [Val; 27])
    requires row { ChangesOnlyRow out.old
        (state_in_bytes version bytes.now point.place).regs point.row }
    requires few { point.row.behind ≤ 27 }
    requires have { 0 < point.row.behind
        → ValuesBeginAt version bytes.now point.row.from (27 - point.row.first) }
    requires stand { 0 < point.row.behind
        → drop point.row.first (state_in_bytes version bytes.now point.place).regs
        ≡ values_in_bytes version bytes.now point.row.from (27 - point.row.first) }
    ensures { out.new ≡ (state_in_bytes version bytes.now point.place).regs }
{
    let _regs = &out[..];
    let mut at = point.row.from as usize;
    for i in point.row.first as usize..point.row.behind as usize {
        read_value_at_offset(bytes, version, at, &mut out[i]);
        at += value_length_by_tag(bytes[at]);
    }
}
