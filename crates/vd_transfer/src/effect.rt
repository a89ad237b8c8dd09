// The change of a state by each instruction.
ghost use Rattle.std.specs.Prelude.{◌≡◌, ◌<◌, ◌≤◌, length, true, None};
ghost use Rattle.value_domain.specs.Values.{IsInLattice, any_val};
ghost use Rattle.value_domain.specs.State.{AreInLattice};
ghost use Rattle.tc_isa.specs.InBounds.{IsArgInBounds, IsShapeInBounds};
ghost use Rattle.vd_transfer.specs.Registers.{state_after_reg_write};
ghost use Rattle.vd_transfer.specs.EffectsOnStates.{operation_in_state, scaled_address_of, state_with_increased_base, state_after_lower_save, state_after_lower_restore, LocalsFitInstruction, transfer_of, LoadedIsInLattice};
ghost use Rattle.vd_transfer.specs.Changes.{state_after};

use crate::access::Addressing;
use crate::change::{Base, Change, set_third_write_slot, set_write_slot};
use crate::operands::Operation;
use crate::operations::{evaluate_operation, write_operation_value};
use crate::registers::reg_in_lattice;
use tc_isa::{Arg, Op, Shape};
use tcd_plan::Plan;
use value_domain::{Bounds, State, write_any};

/// The registers of a scaled address: a base plus an index shifted left by `n`.
#[derive(Clone, Copy)]
pub(crate) struct ScaledAddress {
    pub(crate) base: u8,
    pub(crate) index: u8,
    pub(crate) n: u8,
}

// Each function below writes into the caller's `Change`, which isn't moved.

/// Writes into `c` the change of a state by an instruction that computes an operation on two
/// operands: the result goes to the register `dst`.
pub(crate) fn write_operation_change(
    b: &Bounds,
    plan: &Plan,
    s: &State,
    dst: u8,
    of: Operation,
    c: &mut Change,
)
    requires operands { IsArgInBounds of.x × IsArgInBounds of.y }
    requires values { AreInLattice b.now s.now.regs }
    ensures write { state_after s.now c.new
        ≡ state_after_reg_write s.now dst
        (operation_in_state b.now plan.now s.now of.op of.x of.y) }
    ensures values { AreInLattice b.now (state_after s.now c.new).regs }
    ensures third { c.new.third ≡ record c.old.third { at = None } }
{
    c.set_to_identity(s);
    set_write_slot(&mut c.second, &mut c.lower, dst);
    evaluate_operation(b, plan, s, of, &mut c.second.value);
}

/// Writes into `c` the change of a state by `addsc.a`: a base plus a shifted index goes to the
/// register `dst`.
#[inline(never)]
pub(crate) fn write_scaled_address_change(
    b: &Bounds,
    plan: &Plan,
    s: &State,
    dst: u8,
    at: ScaledAddress,
    c: &mut Change,
)
    requires registers { (at.base < 32) × (at.index < 32) }
    requires values { AreInLattice b.now s.now.regs }
    ensures write { state_after s.now c.new
        ≡ state_after_reg_write s.now dst
        (scaled_address_of b.now plan.now s.now at.base at.index at.n) }
    ensures values { AreInLattice b.now (state_after s.now c.new).regs }
{
    let by = Operation {
        op: Op::Sh,
        x: Arg::Reg(at.index),
        y: Arg::Word(u32::from(at.n)),
    };
    c.set_to_identity(s);
    set_write_slot(&mut c.second, &mut c.lower, dst);
    evaluate_operation(b, plan, s, by, &mut c.third.value);
    write_operation_value(
        b,
        Op::Add,
        &reg_in_lattice(b, plan, s, at.base),
        &c.third.value,
        &mut c.second.value,
    );
}

/// Writes into `c` the change of a state by the post-increment of a load or store: the base
/// register grows by the offset. Without post-increment nothing changes.
pub(crate) fn write_post_increment_change(
    b: &Bounds,
    plan: &Plan,
    s: &State,
    at: Addressing,
    c: &mut Change,
)
    requires base { IsArgInBounds at.base }
    requires values { AreInLattice b.now s.now.regs }
    ensures base { state_after s.now c.new
        ≡ state_with_increased_base b.now plan.now s.now at.base at.offset at.after }
    ensures values { AreInLattice b.now (state_after s.now c.new).regs }
    ensures third { c.new.third ≡ record c.old.third { at = None } }
{
    if !at.after {
        c.set_to_identity(s);
        return;
    }
    let of = Operation {
        op: Op::Add,
        x: at.base,
        y: Arg::Word(at.offset),
    };
    match at.base {
        Arg::Reg(r) => write_operation_change(b, plan, s, r, of, c),
        Arg::Word(_) => c.set_to_identity(s),
    }
}

/// Writes into `c` the change of a state by a load: the loaded value, already in `c.third`, goes to
/// the register `dst` after any post-increment.
pub(crate) fn write_load_change(
    b: &Bounds,
    plan: &Plan,
    s: &State,
    at: Addressing,
    dst: u8,
    c: &mut Change,
)
    requires base { IsArgInBounds at.base }
    requires values { AreInLattice b.now s.now.regs }
    requires loaded { IsInLattice b.now c.old.third.value }
    ensures write { state_after s.now c.new ≡ state_after_reg_write (state_with_increased_base b.now
        plan.now s.now at.base at.offset at.after) dst c.old.third.value }
    ensures values { AreInLattice b.now (state_after s.now c.new).regs }
{
    write_post_increment_change(b, plan, s, at, c);
    set_third_write_slot(b, s, c, dst);
}

/// Writes into `c` the change of a state by an instruction whose result is unknown, such as MFCR:
/// the register `dst` may have any word.
pub(crate) fn write_unknown_result_change(b: &Bounds, s: &State, dst: u8, c: &mut Change)
    requires { AreInLattice b.now s.now.regs }
    ensures write { state_after s.now c.new ≡ state_after_reg_write s.now dst any_val }
    ensures values { AreInLattice b.now (state_after s.now c.new).regs }
{
    let _most_words = b.most_words();
    c.set_to_identity(s);
    set_write_slot(&mut c.second, &mut c.lower, dst);
    write_any(&mut c.second.value);
}

/// Writes into `c` the change of a state by SVLCX: one more saved lower context, marked whether its
/// registers are those of the frame's entry.
pub(crate) fn write_lower_save_change(s: &State, c: &mut Change)
    requires { length s.now.locals.items < 8 }
    ensures { state_after s.now c.new ≡ state_after_lower_save s.now }
{
    c.set_to_identity(s);
    c.locals.push(s.lower);
}

/// Writes into `c` the change of a state by BISR: a saved lower context, IE on, CCPN `number`.
pub(crate) fn write_bisr_change(s: &State, number: u8, c: &mut Change)
    requires { length s.now.locals.items < 8 }
    ensures { state_after s.now c.new
        ≡ record (state_after_lower_save s.now) { ie = true; ccpn = number } }
{
    write_lower_save_change(s, c);
    c.ie = true;
    c.ccpn = number;
}

/// Writes into `c` the change of a state by RSLCX: the last saved lower context is restored, and
/// the lower registers become unknown.
pub(crate) fn write_lower_restore_change(b: &Bounds, s: &State, c: &mut Change)
    requires some { 1 ≤ length s.now.locals.items }
    requires values { AreInLattice b.now s.now.regs }
    ensures restored { state_after s.now c.new ≡ state_after_lower_restore s.now }
    ensures values { AreInLattice b.now (state_after s.now c.new).regs }
{
    let _most_words = b.most_words();
    c.set_to_identity(s);
    let last = c.locals.len() - 1;
    c.lower = c.locals.as_slice()[last];
    c.locals.truncate(last);
    c.base = Base::Forgotten;
}

/// Writes into `c` the change of a state by ENABLE or DISABLE: only IE is set, to `ie`.
pub(crate) fn write_ie_change(s: &State, ie: bool, c: &mut Change)
    ensures { state_after s.now c.new ≡ record s.now { ie = ie } }
{
    c.set_to_identity(s);
    c.ie = ie;
}

/// Writes into `c` how an instruction that isn't a branch and goes on to the next one changes the
/// state `s`. A load takes the loaded value from the third write in `c`.
#[tactic(auto, unfolding(crate::specs::EffectsOnStates::transfer_of))]
pub fn write_instruction_change(b: &Bounds, plan: &Plan, shape: Shape, s: &State, c: &mut Change)
    requires shape { IsShapeInBounds shape }
    requires values { AreInLattice b.now s.now.regs }
    requires loaded { LoadedIsInLattice b.now shape c.old.third.value }
    requires room { LocalsFitInstruction b.now shape s.now }
    ensures change { state_after s.now c.new
        ≡ transfer_of b.now plan.now shape s.now c.old.third.value }
    ensures values { AreInLattice b.now (state_after s.now c.new).regs }
{
    let _most_locals = b.most_locals();
    match shape {
        Shape::Compute { op, dst, x, y } => write_operation_change(
            b,
            plan,
            s,
            dst,
            Operation { op, x, y },
            c,
        ),
        Shape::Scaled {
            dst,
            base,
            index,
            n,
        } => write_scaled_address_change(b, plan, s, dst, ScaledAddress { base, index, n }, c),
        Shape::Load {
            dst,
            base,
            offset,
            after,
            ..
        } => write_load_change(b, plan, s, Addressing::new(base, offset, after), dst, c),
        Shape::Store {
            base,
            offset,
            after,
            ..
        } => write_post_increment_change(b, plan, s, Addressing::new(base, offset, after), c),
        Shape::Svlcx => write_lower_save_change(s, c),
        Shape::Rslcx => write_lower_restore_change(b, s, c),
        Shape::Bisr { c: number } => write_bisr_change(s, number, c),
        Shape::Enable => write_ie_change(s, true, c),
        Shape::Disable => write_ie_change(s, false, c),
        Shape::Mfcr { dst, .. } => write_unknown_result_change(b, s, dst, c),
        Shape::Branch { .. } => c.set_to_identity(s),
        Shape::Jump { .. } => c.set_to_identity(s),
        Shape::Call { .. } => c.set_to_identity(s),
        Shape::Ret => c.set_to_identity(s),
        Shape::Rfe => c.set_to_identity(s),
        Shape::Syscall { .. } => c.set_to_identity(s),
        Shape::Mtcr { .. } => c.set_to_identity(s),
        Shape::Nothing => c.set_to_identity(s),
    }
}
