// The type `ExitAt`: an exit that stays in the bytes of its certificate.
ghost use Rattle.std.specs.Prelude.{◌≡◌, ◌≤◌, ◌^◌, ◌↔◌, IsTrue, length, Ok, Err, OnOk, IfOk, IfErr, IfSome};
ghost use Rattle.packed_cert.specs.NodesInBytes.{exit_in_bytes, ExitBeginsAt, HasLastExit};
ghost use Rattle.std.specs.Option.{option_map};
ghost use Rattle.depth_cert.specs.Grammar.{optional_exit_at, exit_at};

use crate::certs::cert_bytes_below_256;
use crate::covered_values::{ToCover, are_values_covered_at};
use crate::places::{ExitPlaces, LOWER_VALUES};
use crate::point_reader::ExitRoom;
use crate::repeated_bytes::skip_if_repeated;
use crate::restored_values::ValuesAt;
use crate::values_at_places::are_values_at;
use depth_cert::{Exit, blank_exit, read_exit, read_exit_flag};
use std::marker::Model;
use tcd_base::{FileCursor, FormErr};
use value_domain::{Bounds, State};

/// An exit that stays in the bytes of its certificate.
#[derive(Drop)]
pub struct ExitAt<'a> {
    bytes: &'a [u8],
    version: u8,
    place: usize,
}

impl<'a> Model for ExitAt<'a> {
    ghost use Rattle.depth_cert.specs.declared.points.Exit.{Exit};
    ghost use Rattle.packed_cert.specs.NodesInBytes.{exit_in_bytes, IsExitAt};

    ghost Value = { Exit };

    ghost view = { λ e. exit_in_bytes e.version e.bytes.now e.place };

    ghost invariant = { λ e. IsExitAt e.version e.bytes.now e.place };
}

impl<'a> ExitAt<'a> {
    ghost use Rattle.value_domain.specs.State.{AreInLattice, AreWellFormed};
    ghost use Rattle.depth_cert.specs.Exits.{exit_of_state, ExitCovers};
    ghost use Rattle.packed_cert.specs.ValuesInBytes.{decoded_values, PointsToValues};

    /// Returns the exit that begins at offset `place` of a certificate of format `version`.
    pub(crate) fn new(bytes: &'a [u8], version: u8, place: usize) -> ExitAt<'a>
        requires short { length bytes.now ≤ 2 ^ 30 }
        requires exit { ExitBeginsAt version bytes.now place }
        ensures { result ≡ exit_in_bytes version bytes.now place }
    {
        ExitAt {
            bytes,
            version,
            place,
        }
    }

    /// Returns true if interrupts may be enabled after a return by this exit.
    pub fn ie(&self) -> bool
        ensures { result ≡ self.now.ie }
    {
        self.bytes[self.place] == 1
    }

    /// Returns the lower bound of CCPN after a return by this exit.
    pub fn ccpn(&self) -> u8
        ensures { result ≡ self.now.ccpn }
    {
        self.bytes[self.place + 1]
    }

    /// Returns where in the certificate's bytes this exit's values of the 14 lower registers begin.
    pub(crate) fn lower(&self) -> ValuesAt<'a>
        ensures have { PointsToValues result 14 }
        ensures values { self.now.lower ≡ decoded_values result 14 }
    {
        cert_bytes_below_256(self.bytes);
        ValuesAt {
            bytes: self.bytes,
            version: self.version,
            place: self.place + 2,
        }
    }

    /// Returns true if each value of this exit is in the lattice of `b`: a small enough Set, or a
    /// Span between the plan's thresholds.
    pub fn has_lattice_values(&self, b: &Bounds) -> bool
        ensures { IsTrue result ↔ AreInLattice b.now self.now.lower }
    {
        let lower = self.lower();
        are_values_at(b, lower.bytes, lower.version, lower.place, LOWER_VALUES)
    }

    /// Returns true if this exit covers a return in state `s`: IE, least CCPN, and the lower
    /// registers' values, compared in the certificate's bytes.
    pub fn covers(&self, s: &State) -> bool
        requires { AreWellFormed s.now.regs }
        ensures { IsTrue result ↔ ExitCovers self.now (exit_of_state s.now) }
    {
        let _regs = &s.regs[..];
        if s.ie && !self.ie() {
            return false;
        }
        if s.ccpn < self.ccpn() {
            return false;
        }
        let lower = self.lower();
        are_values_covered_at(
            &ToCover::Lower(s),
            LOWER_VALUES,
            lower.bytes,
            lower.version,
            lower.place,
        )
    }

    /// Returns this exit as an `Exit`, decoded from the certificate's bytes.
    pub fn to_exit(&self) -> Exit
        ensures { result ≡ self.now }
    {
        let mut c = FileCursor::new(self.bytes);
        let _front = c.take(self.place);
        let mut exit = blank_exit();
        let _read = read_exit(&mut c, self.version, &mut exit);
        exit
    }
}

/// Reads a node's exit, if a flag says that there is one, and returns its byte offset, else `None`.
/// Only a `kind` CALL or SYS may have one; `room` keeps the exit read last, to skip equal bytes.
#[tactic(auto, unfolding(depth_cert::specs::Grammar::optional_exit_at))]
pub(crate) fn read_optional_exit(
    c: &mut FileCursor<'_>,
    bytes: &[u8],
    version: u8,
    kind: u8,
    room: &mut ExitRoom,
) -> Result<Option<u32>, FormErr>
    requires same { c.old.bytes ≡ bytes.now }
    requires last { HasLastExit version bytes.now room.old }
    ensures ok { IfOk result (λ e.
        optional_exit_at version kind c.old
        ≡ Ok (option_map (exit_in_bytes version bytes.now) e, c.new)) }
    ensures err { IfErr result (λ e. optional_exit_at version kind c.old ≡ Err e) }
    ensures exit { IfOk result (λ e. IfSome e (ExitBeginsAt version bytes.now)) }
    ensures last { OnOk result (HasLastExit version bytes.now room.new) }
    ensures bytes { c.new.bytes ≡ c.old.bytes }
{
    if !read_exit_flag(c, kind)? {
        return Ok(None);
    }
    Ok(Some(read_or_skip_exit(c, bytes, version, room)?))
}

/// Reads the exit at the cursor into `room`, in format `version`, and returns the byte offset. If
/// the bytes equal those of the exit read last, they are skipped, and its offset is returned.
pub(crate) fn read_or_skip_exit(
    c: &mut FileCursor<'_>,
    bytes: &[u8],
    version: u8,
    room: &mut ExitRoom,
) -> Result<u32, FormErr>
    requires same { c.old.bytes ≡ bytes.now }
    requires last { HasLastExit version bytes.now room.old }
    ensures ok { IfOk result (λ p.
        exit_at version c.old ≡ Ok (exit_in_bytes version bytes.now p, c.new)) }
    ensures err { IfErr result (λ e. exit_at version c.old ≡ Err e) }
    ensures exit { IfOk result (ExitBeginsAt version bytes.now) }
    ensures last { OnOk result (HasLastExit version bytes.now room.new) }
    ensures bytes { c.new.bytes ≡ c.old.bytes }
{
    let start = c.place();
    if let Some(at) = room.last {
        if skip_if_repeated(c, bytes, at.start, at.end - at.start) {
            return Ok(at.start as u32);
        }
    }
    read_exit(c, version, &mut room.exit)?;
    let end = c.place();
    room.last = Some(ExitPlaces { start, end });
    Ok(start as u32)
}
