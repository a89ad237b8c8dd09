// The type `StateAt`: a state that stays in the bytes of its certificate.
ghost use Rattle.std.specs.Prelude.{◌≡◌, ◌≤◌, ◌+◌, ◌↔◌, ◌==◌, if◌then◌else◌, IsTrue, length, ◌<◌, ◌-◌, false};
ghost use Rattle.value_domain.specs.State.{AreWellFormed, Covers};
ghost use Rattle.vd_transfer.specs.Changes.{state_after};
ghost use Rattle.depth_cert.specs.Keys.{call_kind};
ghost use Rattle.packed_cert.specs.ValuesInBytes.{values_in_bytes, ValuesBeginAt};
ghost use Rattle.packed_cert.specs.PointsInBytes.{flags_in_bytes, state_in_bytes, StateBeginsAt, IsStateAt};

use crate::covered_values::{ToCover, are_values_covered_at};
use crate::exits::ExitAt;
use crate::places::VALUES;
use crate::restored_values::{ValuesAt, are_restored_below};
use arrayvec::ArrayVec;
use depth_cert::CALL;
use std::marker::Model;
use value_domain::{State, flags_imply};
use vd_transfer::Change;

/// A state that stays in the bytes of its certificate.
#[derive(Drop)]
pub struct StateAt<'a> {
    bytes: &'a [u8],
    version: u8,
    place: usize,
}

impl<'a> Model for StateAt<'a> {
    ghost use Rattle.value_domain.specs.declared.states.State.{State};
    ghost use Rattle.packed_cert.specs.PointsInBytes.{state_in_bytes, IsStateAt};

    ghost Value = { State };

    ghost view = { λ s. state_in_bytes s.version s.bytes.now s.place };

    ghost invariant = { λ s. IsStateAt s.version s.bytes.now s.place };
}

impl<'a> StateAt<'a> {
    /// Returns the state that begins at offset `place` of a certificate of format `version`.
    pub(crate) fn new(bytes: &'a [u8], version: u8, place: usize) -> StateAt<'a>
        requires { StateBeginsAt version bytes.now place }
        ensures { result ≡ state_in_bytes version bytes.now place }
    {
        StateAt {
            bytes,
            version,
            place,
        }
    }
}

impl<'a> StateAt<'a> {
    /// Returns true if interrupts may be enabled in this state of a certificate.
    pub fn ie(&self) -> bool
        ensures { result ≡ self.now.ie }
    {
        self.bytes[self.place] == 1
    }

    /// Returns the lower bound of CCPN in this state of a certificate.
    pub fn ccpn(&self) -> u8
        ensures { result ≡ self.now.ccpn }
    {
        self.bytes[self.place + 1]
    }

    /// Returns true if D0 to D7 and A2 to A7 have the values that they had at the frame's entry.
    pub fn lower(&self) -> bool
        ensures { result ≡ self.now.lower }
    {
        self.bytes[self.place + 2] == 1
    }

    /// Returns a flag for each saved lower context, the oldest first: set if the context has the
    /// lower registers of the frame's entry.
    pub fn locals(&self) -> ArrayVec<bool, 8>
        ensures { result.items ≡ self.now.locals.items }
    {
        let count = self.bytes[self.place + 3];
        state_locals_at(self.bytes, self.place + 4, count)
    }
}

impl<'a> StateAt<'a> {
    ghost use Rattle.value_domain.specs.State.{AreWellFormed, Covers};
    ghost use Rattle.depth_cert.specs.Exits.{state_after_return};
    ghost use Rattle.vd_transfer.specs.Changes.{state_after};

    /// Returns true if this state covers another's IE, least CCPN and flag `lower`. A set `lower`
    /// says that D0 to D7 and A2 to A7 have the values that they had at the frame's entry.
    pub fn covers_context(&self, ie: bool, ccpn: u8, lower: bool) -> bool
        ensures { IsTrue result
            ↔ ((IsTrue ie → IsTrue self.now.ie) × (self.now.ccpn ≤ ccpn)
            × (IsTrue self.now.lower → IsTrue lower)) }
    {
        (self.ie() || !ie) && self.ccpn() <= ccpn && (lower || !self.lower())
    }

    /// Returns true if this state covers an abstract state. Its own values are compared in the
    /// certificate's bytes.
    pub fn covers(&self, s: &State) -> bool
        requires { AreWellFormed s.now.regs }
        ensures { IsTrue result ↔ Covers self.now s.now }
    {
        let _regs = &s.regs[..];
        if !self.covers_context(s.ie, s.ccpn, s.lower) {
            return false;
        }
        if !flags_imply(self.locals().as_slice(), s.locals.as_slice()) {
            return false;
        }
        let place = offset_of_register_values(self.bytes, self.version, self.place);
        are_values_covered_at(&ToCover::Whole(s), VALUES, self.bytes, self.version, place)
    }

    /// Returns true if this state of a certificate covers the state `s` after the change `c`. The
    /// changed state is never built.
    pub fn covers_changed(&self, s: &State, c: &Change) -> bool
        requires { AreWellFormed (state_after s.now c.now).regs }
        ensures { IsTrue result ↔ Covers self.now (state_after s.now c.now) }
    {
        let _regs = &s.regs[..];
        if !self.covers_context(c.ie, c.ccpn, c.lower) {
            return false;
        }
        if !flags_imply(self.locals().as_slice(), c.locals.as_slice()) {
            return false;
        }
        let place = offset_of_register_values(self.bytes, self.version, self.place);
        are_values_covered_at(
            &ToCover::Changed(s, c),
            VALUES,
            self.bytes,
            self.version,
            place,
        )
    }

    /// Returns true if this state covers the caller's state `s` after a return by `exit`. `kind` is
    /// CALL after a call, SYS after a system call, which keeps the caller's IE and CCPN.
    pub fn covers_after_return(&self, s: &State, exit: &ExitAt<'_>, kind: u8) -> bool
        requires { AreWellFormed s.now.regs }
        ensures { IsTrue result ↔ Covers self.now (state_after_return s.now exit.now kind) }
    {
        let (ie, ccpn) = ie_and_ccpn_after_return(s, exit, kind);
        if !self.covers_context(ie, ccpn, false) {
            return false;
        }
        if !flags_imply(self.locals().as_slice(), s.locals.as_slice()) {
            return false;
        }
        let high = ValuesAt {
            bytes: self.bytes,
            version: self.version,
            place: offset_of_register_values(self.bytes, self.version, self.place),
        };
        are_restored_below(&s.regs, exit.lower(), high)
    }
}

/// Returns IE and the least CCPN after a return to the caller's state `s`. They are those of `exit`
/// if `kind` is CALL, else the caller's, as after a system call.
fn ie_and_ccpn_after_return(s: &State, exit: &ExitAt<'_>, kind: u8) -> (bool, u8)
    ensures ie { result.0 ≡ (if kind == call_kind then exit.now.ie else s.now.ie) }
    ensures ccpn { result.1 ≡ (if kind == call_kind then exit.now.ccpn else s.now.ccpn) }
{
    if kind == CALL {
        return (exit.ie(), exit.ccpn());
    }
    (s.ie, s.ccpn)
}

/// Returns the flags of a state's `count` saved lower contexts: a byte each, from the offset
/// `place` of a certificate on.
fn state_locals_at(bytes: &[u8], place: usize, count: u8) -> ArrayVec<bool, 8>
    requires within { place + count ≤ length bytes.now }
    requires few { count ≤ 8 }
    ensures { result.items ≡ flags_in_bytes bytes.now place count }
{
    let mut flags = ArrayVec::new();
    for i in 0..count {
        flags.push(bytes[place + i as usize] == 1);
    }
    flags
}

/// Returns the byte offset of the 27 register values of the state that begins at offset `place` of
/// a certificate of format `version`.
fn offset_of_register_values(bytes: &[u8], version: u8, place: usize) -> usize
    requires { IsStateAt version bytes.now place }
    ensures have { ValuesBeginAt version bytes.now result 27 }
    ensures values { (state_in_bytes version bytes.now place).regs
        ≡ values_in_bytes version bytes.now result 27 }
{
    place + 4 + bytes[place + 3] as usize
}
