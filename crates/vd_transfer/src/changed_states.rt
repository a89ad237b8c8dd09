// The values of a changed state, which is never built.
ghost use Rattle.std.specs.Prelude.{◌≡◌, ◌<◌, ◌↔◌, IsTrue, Some, slice_index_or};
ghost use Rattle.value_domain.specs.Values.{IsInLattice, any_val};
ghost use Rattle.value_domain.specs.State.{AreInLattice};
ghost use Rattle.vd_transfer.specs.Registers.{reg_of};
ghost use Rattle.vd_transfer.specs.Changes.{base_values, state_after};

use crate::change::{Base, Change, RegisterWrite};
use crate::registers::{fixed_register_value, is_lower_slot, register_slot};
use tcd_plan::Plan;
use value_domain::{Bounds, State, Val};

/// Returns the value in slot `i` of the state after a change, without building that state. `any`,
/// the value of all words, is returned for what is unknown.
#[inline(always)]
pub fn changed_value<'a>(s: &'a State, c: &'a Change, any: &'a Val, i: usize) -> &'a Val
    requires place { i < 27 }
    requires any { any.now ≡ any_val }
    ensures { result.now ≡ slice_index_or (state_after s.now c.now).regs i any_val }
{
    let _regs = &s.regs[..];
    if is_write_to_slot(&c.third, i) {
        return &c.third.value;
    }
    if is_write_to_slot(&c.second, i) {
        return &c.second.value;
    }
    if is_write_to_slot(&c.first, i) {
        return &c.first.value;
    }
    base_value_in_slot(s, c.base, any, i)
}

/// Returns a register's abstract value after a change of a state, without building that state.
pub(crate) fn changed_reg(b: &Bounds, plan: &Plan, s: &State, c: &Change, r: u8) -> Val
    requires register { r < 32 }
    requires values { AreInLattice b.now (state_after s.now c.now).regs }
    ensures reg { result ≡ reg_of plan.now (state_after s.now c.now) r }
    ensures value { IsInLattice b.now result }
{
    let _most_words = b.most_words();
    let _globals = &plan.globals;
    match register_slot(r) {
        Some(i) => changed_value(s, c, &Val::any(), i).copy(),
        None => fixed_register_value(plan, r),
    }
}

/// Returns true if this write of a change goes to slot `i` of a state.
#[inline(always)]
fn is_write_to_slot(write: &RegisterWrite, i: usize) -> bool
    ensures { IsTrue result ↔ (write.now.at ≡ Some i) }
{
    match write.at {
        Some(at) => at == i,
        None => false,
    }
}

/// Returns the value in slot `i` before the writes of a change: that of `s`, or `any` if the change
/// forgets the register.
#[inline(always)]
fn base_value_in_slot<'a>(s: &'a State, base: Base, any: &'a Val, i: usize) -> &'a Val
    requires place { i < 27 }
    requires any { any.now ≡ any_val }
    ensures { result.now ≡ slice_index_or (base_values base s.now.regs) i any_val }
{
    let _regs = &s.regs[..];
    match base {
        Base::Same => &s.regs[i],
        Base::Forgotten => { if is_lower_slot(i) { any } else { &s.regs[i] } }
        Base::Any => any,
    }
}
