// Changes: what an instruction changes of a state.
ghost use Rattle.std.specs.Prelude.{◌≡◌, ◌&&◌, not, None};
ghost use Rattle.value_domain.specs.Values.{IsInLattice};
ghost use Rattle.value_domain.specs.State.{AreInLattice};
ghost use Rattle.vd_transfer.specs.Registers.{register_slot, is_lower_register, state_after_reg_write};
ghost use Rattle.vd_transfer.specs.Changes.{state_after, no_write, register_write, identity_change_of};

use crate::registers::register_slot;
use arrayvec::ArrayVec;
use value_domain::{Bounds, State, Val, copy_locals};

/// The values that a change starts from.
#[derive(Clone, Copy, PartialEq, Eq)]
pub enum Base {
    /// Those of its state.
    Same,
    /// Those of its state, with the lower registers unknown.
    Forgotten,
    /// Unknown everywhere.
    Any,
}

/// A value to write to a slot of a state. Without a slot nothing changes.
#[derive(Drop)]
pub struct RegisterWrite {
    pub at: Option<usize>,
    pub value: Val,
}

/// A change of a state: the values that it starts from, up to three writes one after another, and
/// the context afterwards.
#[derive(Drop)]
pub struct Change {
    pub base: Base,
    pub first: RegisterWrite,
    pub second: RegisterWrite,
    pub third: RegisterWrite,
    pub ie: bool,
    pub ccpn: u8,
    pub lower: bool,
    pub locals: ArrayVec<bool, 8>,
}

/// Returns a register write that changes nothing, for a `Change` that needs fewer than three.
#[inline(always)]
pub(crate) fn no_write() -> RegisterWrite
    ensures { result ≡ no_write }
{
    RegisterWrite {
        at: None,
        value: Val::any(),
    }
}

/// Returns the write of a register's abstract value, for a change. If states have no slot for the
/// register, nothing changes.
#[inline(always)]
pub fn register_write(r: u8, v: Val) -> RegisterWrite
    ensures { result ≡ register_write r v }
{
    RegisterWrite {
        at: register_slot(r),
        value: v,
    }
}

/// Returns the change that keeps a whole abstract state.
#[inline(always)]
pub fn identity_change(s: &State) -> Change
    ensures kept { result ≡ identity_change_of s.now }
    ensures same { state_after s.now result ≡ s.now }
{
    Change {
        base: Base::Same,
        first: no_write(),
        second: no_write(),
        third: no_write(),
        ie: s.ie,
        ccpn: s.ccpn,
        lower: s.lower,
        locals: copy_locals(&s.locals),
    }
}

impl Change {
    ghost use Rattle.std.specs.Prelude.{◌≡◌};
    ghost use Rattle.vd_transfer.specs.Changes.{identity_keeping_values, state_after};

    /// Makes a change the identity, which keeps the state `s`. Its three writes keep their values.
    pub fn set_to_identity(&mut self, s: &State)
        ensures kept { self.new ≡ identity_keeping_values self.old s.now }
        ensures same { state_after s.now self.new ≡ s.now }
    {
        self.base = Base::Same;
        self.first.at = None;
        self.second.at = None;
        self.third.at = None;
        self.ie = s.ie;
        self.ccpn = s.ccpn;
        self.lower = s.lower;
        self.locals = copy_locals(&s.locals);
    }
}

/// Directs a write of a change to the slot of the register `r`. For a lower register clears `mark`,
/// which says that the lower registers are as at the frame's entry.
#[inline(always)]
pub(crate) fn set_write_slot(write: &mut RegisterWrite, mark: &mut bool, r: u8)
    ensures slot { write.new ≡ record write.old { at = register_slot r } }
    ensures mark { mark.new ≡ (mark.old && not (is_lower_register r)) }
{
    let lower = r < 8 || 18 <= r && r <= 23;
    write.at = register_slot(r);
    *mark = *mark && !lower;
}

/// Directs the third write of the change `c`, whose value is set already, to the register `r`. A
/// write to a lower register also clears the flag `lower`.
#[inline(always)]
pub(crate) fn set_third_write_slot(b: &Bounds, s: &State, c: &mut Change, r: u8)
    requires values { AreInLattice b.now (state_after s.now c.old).regs }
    requires free { c.old.third.at ≡ None }
    requires value { IsInLattice b.now c.old.third.value }
    ensures written { state_after s.now c.new
        ≡ state_after_reg_write (state_after s.now c.old) r c.old.third.value }
    ensures values { AreInLattice b.now (state_after s.now c.new).regs }
{
    set_write_slot(&mut c.third, &mut c.lower, r);
}
