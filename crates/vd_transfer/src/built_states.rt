// States built whole from changes, and the addresses of accesses.
ghost use Rattle.std.specs.Prelude.{◌≡◌, IfSome};
ghost use Rattle.value_domain.specs.Values.{IsInLattice};
ghost use Rattle.value_domain.specs.State.{AreInLattice};
ghost use Rattle.tc_isa.specs.Meanings.{shape_of};
ghost use Rattle.vd_transfer.specs.EffectsOnStates.{LocalsFitInstruction, address_of_access, transfer_of};
ghost use Rattle.vd_transfer.specs.Branches.{refine_of};
ghost use Rattle.vd_transfer.specs.Changes.{state_after};

use crate::access::address_by_shape;
use crate::branch_sides::write_branch_change;
use crate::change::{Change, identity_change};
use crate::changed_states::changed_value;
use crate::effect::write_instruction_change;
use tc_isa::{Inst, shape};
use tcd_plan::Plan;
use value_domain::{Bounds, State, Val, copy_locals};

/// Returns the addresses that a load or store may access, as one abstract value; else any word.
pub fn address(b: &Bounds, plan: &Plan, inst: &Inst, s: &State) -> Val
    requires { AreInLattice b.now s.now.regs }
    ensures address { result ≡ address_of_access b.now plan.now (shape_of inst.now) s.now }
    ensures value { IsInLattice b.now result }
{
    address_by_shape(b, plan, shape(inst), s)
}

/// Returns the whole state after a branch that is taken (`side` is true) or isn't, or `None` if
/// that side isn't possible.
pub fn refine(b: &Bounds, plan: &Plan, inst: &Inst, s: &State, side: bool) -> Option<State>
    requires { AreInLattice b.now s.now.regs }
    ensures refine { result ≡ refine_of b.now plan.now (shape_of inst.now) s.now side }
    ensures values { IfSome result (λ t. AreInLattice b.now t.regs) }
{
    let mut c = identity_change(s);
    if write_branch_change(b, plan, shape(inst), s, side, &mut c) {
        Some(state_after_change(s, &c))
    } else {
        None
    }
}

/// Returns the whole state after an instruction that isn't a branch and goes on to the next one.
/// Only a load uses `loaded`, the abstract value that is read.
pub fn transfer(b: &Bounds, plan: &Plan, inst: &Inst, s: &State, loaded: &Val) -> State
    requires values { AreInLattice b.now s.now.regs }
    requires loaded { IsInLattice b.now loaded.now }
    requires room { LocalsFitInstruction b.now (shape_of inst.now) s.now }
    ensures transfer { result ≡ transfer_of b.now plan.now (shape_of inst.now) s.now loaded.now }
    ensures values { AreInLattice b.now result.regs }
{
    let mut c = identity_change(s);
    c.third.value = loaded.copy();
    write_instruction_change(b, plan, shape(inst), s, &mut c);
    state_after_change(s, &c)
}

/// Returns the whole state that the change `c` makes of the state `s`.
pub fn state_after_change(s: &State, c: &Change) -> State
    ensures { result ≡ state_after s.now c.now }
{
    State {
        regs: regs_after_change(s, c),
        ie: c.ie,
        ccpn: c.ccpn,
        lower: c.lower,
        locals: copy_locals(&c.locals),
    }
}

/// Returns the 27 register values of the state that the change `c` makes of the state `s`.
fn regs_after_change(s: &State, c: &Change) -> [Val; 27]
    ensures { result ≡ (state_after s.now c.now).regs }
{
    let _regs = &s.regs[..];
    let any = Val::any();
    let mut out = std::array::from_fn(|_| Val::any());
    for i in 0..27 {
        out[i] = changed_value(s, c, &any, i).copy();
    }
    out
}
