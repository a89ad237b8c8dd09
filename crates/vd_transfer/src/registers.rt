// Reads the registers of a state.
ghost use Rattle.std.specs.Prelude.{◌≡◌, ◌<◌, IfSome};
ghost use Rattle.value_domain.specs.Values.{IsInLattice, word_val};
ghost use Rattle.value_domain.specs.State.{AreInLattice, is_lower_slot};
ghost use Rattle.vd_transfer.specs.Registers.{register_slot, reg_of, fixed_register_value};

use tcd_plan::Plan;
use value_domain::{A10_SLOT, Bounds, State, Val};

/// The number of A10, the stack pointer, among registers.
pub const A10: u8 = 26;

/// Returns the slot of a register, its index among the 27 values of a state, or `None` for A0, A1,
/// A8, A9 and A11.
#[tactic(auto, unfolding(crate::specs::Registers::register_slot))]
#[inline(always)]
pub(crate) fn register_slot(r: u8) -> Option<usize>
    ensures slot { result ≡ register_slot r }
    ensures within { IfSome result (λ i. i < 27) }
{
    if r < 16 {
        Some(r as usize)
    } else if 18 <= r && r <= 23 {
        Some(r as usize - 2)
    } else if r == A10 {
        Some(A10_SLOT)
    } else if 28 <= r && r <= 31 {
        Some(r as usize - 5)
    } else {
        None
    }
}

/// Returns the word of an abstract value that is a Set of one word, or `None` for any other value.
#[inline(always)]
pub fn singleton_word(v: &Val) -> Option<u32>
    ensures { IfSome result (λ w. v.now ≡ word_val w) }
{
    match v {
        Val::Set(words) => {
            let words = words.as_slice();
            if words.len() == 1 {
                Some(words[0])
            } else {
                None
            }
        }
        Val::Span { .. } => None,
    }
}

/// Returns a register's abstract value: the state's, or the plan's constant for A0, A1, A8 and A9.
/// A11 may have any word.
#[inline(always)]
pub fn reg(plan: &Plan, s: &State, r: u8) -> Val
    requires { r < 32 }
    ensures { result ≡ reg_of plan.now s.now r }
{
    match register_slot(r) {
        Some(i) => s.regs[i].copy(),
        None => fixed_register_value(plan, r),
    }
}

/// Returns the abstract value of a register without a slot in states: the plan's word for A0, A1,
/// A8 and A9, any word for A11.
#[inline(always)]
pub(crate) fn fixed_register_value(plan: &Plan, r: u8) -> Val
    ensures { result ≡ fixed_register_value plan.now r }
{
    if r == 27 {
        return Val::any();
    }
    let i = if r == 16 {
        0
    } else if r == 17 {
        1
    } else if r == 24 {
        2
    } else {
        3
    };
    Val::one(plan.globals[i])
}

/// Returns a register's abstract value, as `reg` does, and promises that the value is in the
/// lattice of the limits `b`.
#[inline(always)]
pub(crate) fn reg_in_lattice(b: &Bounds, plan: &Plan, s: &State, r: u8) -> Val
    requires register { r < 32 }
    requires values { AreInLattice b.now s.now.regs }
    ensures reg { result ≡ reg_of plan.now s.now r }
    ensures value { IsInLattice b.now result }
{
    let _most_words = b.most_words();
    let _globals = &plan.globals;
    reg(plan, s, r)
}

/// Returns a register's abstract value, borrowed from the state, or `None` for A0, A1, A8, A9 and
/// A11, which have no slot.
#[inline(always)]
pub(crate) fn reg_in_state<'a>(b: &Bounds, plan: &Plan, s: &'a State, r: u8) -> Option<&'a Val>
    requires register { r < 32 }
    requires values { AreInLattice b.now s.now.regs }
    ensures reg { IfSome result (λ v. v.now ≡ reg_of plan.now s.now r) }
    ensures value { IfSome result (λ v. IsInLattice b.now v.now) }
{
    let _most_words = b.most_words();
    let _regs = &s.regs[..];
    match register_slot(r) {
        Some(i) => Some(&s.regs[i]),
        None => None,
    }
}

/// Returns true if slot `i` of a state is that of a lower register: D0..D7 or A2..A7.
pub fn is_lower_slot(i: usize) -> bool
    ensures { result ≡ is_lower_slot i }
{
    i < 8 || 16 <= i && i < A10_SLOT
}
