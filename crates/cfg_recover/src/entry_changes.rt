// How the entry of a frame changes the state of the point that enters it.
ghost use Rattle.std.specs.Prelude.{◌≡◌};
ghost use Rattle.value_domain.specs.Values.{IsInLattice, word_val};
ghost use Rattle.value_domain.specs.State.{AreInLattice};
ghost use Rattle.vd_transfer.specs.Changes.{state_after};
ghost use Rattle.cfg_recover.specs.Changes as changes;
ghost use Rattle.cfg_recover.specs.Entries as entries;
ghost use Rattle.cfg_recover.specs.Entries.{handler_entry_sp_of, irq_entry, aln_entry, sys_entry};

use arrayvec::ArrayVec;
use depth_cert::Key;
use tcd_plan::Plan;
use value_domain::{Bounds, State, Val};
use vd_transfer::{A10, Base, Change, identity_change, reg, register_write};

/// The number of D15, which has a trap's identification number at the entry of its handler.
const D15: u8 = 15;

/// The identification number of the trap of misaligned accesses.
const ALN_TIN: u32 = 4;

/// Returns the change from a caller's abstract state to that at the called function's entry: no
/// lower contexts saved, and no promise (`lower`) on lower registers.
pub fn call_entry_change(b: &Bounds, s: &State) -> Change
    requires { AreInLattice b.now s.now.regs }
    ensures change { result ≡ changes.call_entry_change s.now }
    ensures entry { state_after s.now result ≡ entries.call_entry s.now }
    ensures values { AreInLattice b.now (state_after s.now result).regs }
{
    let mut c = identity_change(s);
    c.lower = false;
    c.locals = ArrayVec::new();
    c
}

/// Returns the change from a point's abstract state to that at the entry of the handler of system
/// calls, by SYSCALL `tin`. `key` names the point's frame.
pub fn sys_entry_change(b: &Bounds, plan: &Plan, key: &Key, s: &State, tin: u8) -> Change
    requires { AreInLattice b.now s.now.regs }
    ensures entry { state_after s.now result ≡ sys_entry plan.now key.now s.now tin }
    ensures values { AreInLattice b.now (state_after s.now result).regs }
{
    let mut c = call_entry_change(b, s);
    c.first = register_write(A10, handler_entry_sp(b, plan, key, s));
    c.second = register_write(D15, entry_constant(b, u32::from(tin)));
    c.ie = false;
    c
}

/// Returns the change from a point's abstract state to that at an interrupt handler's entry, where
/// CCPN is `ccpn` and only A10 is known. `key` names the interrupted frame.
pub fn handler_entry_change(b: &Bounds, plan: &Plan, key: &Key, s: &State, ccpn: u8) -> Change
    requires { AreInLattice b.now s.now.regs }
    ensures entry { state_after s.now result ≡ irq_entry plan.now key.now s.now ccpn }
    ensures values { AreInLattice b.now (state_after s.now result).regs }
{
    let _most_words = b.most_words();
    handler_entry_change_with_sp(s, handler_entry_sp(b, plan, key, s), ccpn)
}

/// Returns the change from a point's abstract state to that at the entry of the handler of
/// misaligned accesses. `key` names the point's frame.
pub fn aln_entry_change(b: &Bounds, plan: &Plan, key: &Key, s: &State) -> Change
    requires { AreInLattice b.now s.now.regs }
    ensures entry { state_after s.now result ≡ aln_entry plan.now key.now s.now }
    ensures values { AreInLattice b.now (state_after s.now result).regs }
{
    let _most_words = b.most_words();
    let mut c = handler_entry_change_with_sp(s, handler_entry_sp(b, plan, key, s), s.ccpn);
    c.second = register_write(D15, entry_constant(b, ALN_TIN));
    c
}

/// Returns the stack pointer at a handler's entry: the start of the interrupt stack, or the point's
/// A10 if that stack is in use already (`key.is`).
fn handler_entry_sp(b: &Bounds, plan: &Plan, key: &Key, s: &State) -> Val
    requires { AreInLattice b.now s.now.regs }
    ensures stack { result ≡ handler_entry_sp_of plan.now key.now s.now }
    ensures value { IsInLattice b.now result }
{
    let _most_words = b.most_words();
    let _globals = &plan.globals;
    if key.is {
        reg(plan, s, A10)
    } else {
        Val::one(plan.isp)
    }
}

/// Returns the abstract value of a register that the entry of a handler sets to the constant `x`.
fn entry_constant(b: &Bounds, x: u32) -> Val
    ensures word { result ≡ word_val x }
    ensures value { IsInLattice b.now result }
{
    let _most_words = b.most_words();
    Val::one(x)
}

/// Returns the change from a point's state to that at a handler's entry, with A10 `sp` and this
/// CCPN. All other registers are unknown, and IE is off.
fn handler_entry_change_with_sp(s: &State, sp: Val, ccpn: u8) -> Change
    ensures { result ≡ changes.handler_entry_change sp ccpn }
{
    let mut c = identity_change(s);
    c.base = Base::Any;
    c.first = register_write(A10, sp);
    c.ie = false;
    c.ccpn = ccpn;
    c.lower = true;
    c.locals = ArrayVec::new();
    c
}
