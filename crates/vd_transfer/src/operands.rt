// Operands: registers of a state, or constants. An operation with its operands.
ghost use Rattle.std.specs.Prelude.{◌≡◌, ◌<◌, IfSome};
ghost use Rattle.value_domain.specs.Values.{IsInLattice, word_val};
ghost use Rattle.value_domain.specs.State.{AreInLattice};
ghost use Rattle.tc_isa.specs.InBounds.{IsArgInBounds};
ghost use Rattle.vd_transfer.specs.Registers.{arg_of, arg_slot, is_same_register};
ghost use Rattle.tc_isa.specs.declared.shapes.Arg.TheVariants.{Word};

use crate::operations::write_operation_value;
use crate::registers::{reg_in_lattice, reg_in_state, register_slot, singleton_word};
use tc_isa::{Arg, Op};
use tcd_plan::Plan;
use value_domain::{Bounds, State, Val, copy_to, set_word};

/// An operation and its operands.
#[derive(Clone, Copy)]
pub(crate) struct Operation {
    pub(crate) op: Op,
    pub(crate) x: Arg,
    pub(crate) y: Arg,
}

/// Returns the slot of an operand's register among a state's 27, or `None` for a constant and for
/// A0, A1, A8, A9 and A11.
pub(crate) fn arg_slot(a: Arg) -> Option<usize>
    ensures { result ≡ arg_slot a }
{
    match a {
        Arg::Reg(r) => register_slot(r),
        Arg::Word(_) => None,
    }
}

/// Returns the abstract value of an operand, borrowed from the state, or `None` for a constant and
/// for A0, A1, A8, A9 and A11.
#[inline(always)]
pub(crate) fn arg_in_state<'a>(b: &Bounds, plan: &Plan, s: &'a State, a: Arg) -> Option<&'a Val>
    requires operand { IsArgInBounds a }
    requires values { AreInLattice b.now s.now.regs }
    ensures arg { IfSome result (λ v. v.now ≡ arg_of plan.now s.now a) }
    ensures value { IfSome result (λ v. IsInLattice b.now v.now) }
{
    match a {
        Arg::Reg(r) => reg_in_state(b, plan, s, r),
        Arg::Word(_) => None,
    }
}

/// Returns the word of a constant operand, or of a register whose value in the state is a Set of
/// one word. For other operands returns `None`.
#[inline(always)]
pub fn arg_word(b: &Bounds, plan: &Plan, s: &State, a: Arg) -> Option<u32>
    requires operand { IsArgInBounds a }
    requires values { AreInLattice b.now s.now.regs }
    ensures arg { IfSome result (λ w. arg_of plan.now s.now a ≡ word_val w) }
    ensures value { IfSome result (λ w. IsInLattice b.now (word_val w)) }
{
    let _most_words = b.most_words();
    match a {
        Arg::Reg(r) => match reg_in_state(b, plan, s, r) {
            Some(v) => singleton_word(v),
            None => None,
        },
        Arg::Word(w) => Some(w),
    }
}

/// Returns the abstract value of a constant: the Set of one word.
#[inline(always)]
pub(crate) fn constant_value(b: &Bounds, w: u32) -> Val
    ensures word { result ≡ word_val w }
    ensures value { IsInLattice b.now result }
{
    let _most_words = b.most_words();
    Val::one(w)
}

/// Returns the abstract value of an instruction's operand, newly built. Never inlined, so that
/// callers that need no such value reserve no stack for one.
#[inline(never)]
pub(crate) fn build_arg(b: &Bounds, plan: &Plan, s: &State, a: Arg) -> Val
    requires operand { IsArgInBounds a }
    requires values { AreInLattice b.now s.now.regs }
    ensures arg { result ≡ arg_of plan.now s.now a }
    ensures value { IsInLattice b.now result }
{
    match a {
        Arg::Reg(r) => reg_in_lattice(b, plan, s, r),
        Arg::Word(w) => constant_value(b, w),
    }
}

/// Overwrites `out` with the abstract value of an instruction's operand.
pub(crate) fn write_arg(b: &Bounds, plan: &Plan, s: &State, a: Arg, out: &mut Val)
    requires operand { IsArgInBounds a }
    requires values { AreInLattice b.now s.now.regs }
    ensures arg { out.new ≡ arg_of plan.now s.now a }
    ensures value { IsInLattice b.now out.new }
{
    match arg_in_state(b, plan, s, a) {
        Some(v) => copy_to(v, out),
        None => write_built_arg(b, plan, s, a, out),
    }
}

/// Returns true if `y`, the right operand of a comparison, is its left register `x` itself.
pub(crate) fn is_same_register(x: u8, y: Arg) -> bool
    ensures { result ≡ is_same_register x y }
{
    match y {
        Arg::Reg(r) => x == r,
        Arg::Word(_) => false,
    }
}

/// Overwrites `out` with the Set of one word, the abstract value of a constant.
#[inline(always)]
pub(crate) fn write_constant(b: &Bounds, x: u32, out: &mut Val)
    ensures word { out.new ≡ word_val x }
    ensures value { IsInLattice b.now out.new }
{
    let _most_words = b.most_words();
    set_word(out, x);
}

/// Overwrites `out` with the abstract value of an operand that has no slot in the state, newly
/// built. Never inlined, so that callers reserve no stack for a value.
#[inline(never)]
fn write_built_arg(b: &Bounds, plan: &Plan, s: &State, a: Arg, out: &mut Val)
    requires operand { IsArgInBounds a }
    requires values { AreInLattice b.now s.now.regs }
    ensures arg { out.new ≡ arg_of plan.now s.now a }
    ensures value { IsInLattice b.now out.new }
{
    *out = build_arg(b, plan, s, a);
}
