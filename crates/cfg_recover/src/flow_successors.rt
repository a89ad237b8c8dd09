// The successors of a point in its frame.
ghost use Rattle.std.specs.Prelude.{◌≡◌, All, Some};
ghost use Rattle.tc_isa.specs.InBounds.{IsShapeInBounds};
ghost use Rattle.tc_isa.specs.Meanings.{shape_of};
ghost use Rattle.value_domain.specs.declared.states.State.{State};
ghost use Rattle.value_domain.specs.Values.{IsInLattice};
ghost use Rattle.value_domain.specs.State.{AreInLattice};
ghost use Rattle.vd_transfer.specs.Changes.{state_after};
ghost use Rattle.vd_transfer.specs.EffectsOnStates.{LocalsFitInstruction, address_of_access, transfer_of};
ghost use Rattle.vd_transfer.specs.Branches.{refine_of};
ghost use Rattle.cfg_recover.specs.Duties.{branch_duty, value_loaded_by_shape, next_duty_of, successor_duties_of};
ghost use Rattle.cfg_recover.specs.FlowStates.{IsJumpInLattice};
ghost use Rattle.cfg_recover.specs.FlowDuties.{duties_of_jump, duties_of_jumps};

use crate::Jump;
use crate::decoded_inst::InstAt;
use crate::flow_targets::{one_target, targets};
use arrayvec::ArrayVec;
use elf_image::Image;
use store_ranges::{LoadKind, write_load};
use tc_isa::{Inst, Shape, shape};
use tcd_plan::Plan;
use value_domain::{Bounds, State, Val, write_any};
use vd_transfer::{
    Base, Change, identity_change, refine, state_after_change, write_address_by_shape,
    write_instruction_change,
};

/// Returns the successors of an instruction in its own frame, with their abstract states. A branch
/// may have two; a call, system call or return has none.
pub(crate) fn successor_jumps(
    b: &Bounds,
    image: &Image,
    plan: &Plan,
    s: &State,
    at: InstAt<'_>,
) -> [Option<Jump>; 2]
    requires values { AreInLattice b.now s.now.regs }
    requires room { LocalsFitInstruction b.now (shape_of at.inst.now) s.now }
    ensures values { All (IsJumpInLattice b.now) result }
    ensures jumps { duties_of_jumps result
        ≡ successor_duties_of b.now image.now plan.now at.entry.addr s.now
        (shape_of at.entry.inst.now) at.entry.size }
{
    let next = at.addr.wrapping_add(at.size);
    match shape(at.inst) {
        Shape::Branch { by, .. } => [
            jump_on_branch_side(b, plan, at.inst, s, false, next),
            jump_on_branch_side(b, plan, at.inst, s, true, at.addr.wrapping_add(by)),
        ],
        Shape::Jump { to } => [
            Some(Jump {
                targets: targets(plan, s, at.addr, to),
                state: s.copy(),
            }),
            None,
        ],
        Shape::Call { .. } | Shape::Ret | Shape::Rfe | Shape::Syscall { .. } | Shape::Mtcr { .. } =>
            [None, None],
        _ => [Some(jump_to_next(b, image, plan, s, at)), None],
    }
}

/// Writes into `c` what an instruction of this shape, not a branch or a jump, changes in the
/// abstract state `s`. The value of a load is computed first.
pub fn write_successor_change(
    b: &Bounds,
    image: &Image,
    plan: &Plan,
    shape: Shape,
    s: &State,
    c: &mut Change,
)
    requires shape { IsShapeInBounds shape }
    requires values { AreInLattice b.now s.now.regs }
    requires room { LocalsFitInstruction b.now shape s.now }
    ensures change { state_after s.now c.new
        ≡ transfer_of b.now plan.now shape s.now
        (value_loaded_by_shape b.now image.now plan.now s.now shape) }
    ensures values { AreInLattice b.now (state_after s.now c.new).regs }
{
    match shape {
        Shape::Nothing => write_identity_change(s, c),
        Shape::Load { .. } => {
            write_address_by_shape(b, plan, shape, s, &mut c.second.value);
            write_loaded_value(b, image, plan, shape, &c.second.value, &mut c.third.value);
            write_instruction_change(b, plan, shape, s, c);
        }
        _ => write_instruction_change(b, plan, shape, s, c),
    }
}

/// Returns the successor `to` on one side of a branch (`taken` or not), with the state refined by
/// the condition. `None` if that side is impossible.
fn jump_on_branch_side(
    b: &Bounds,
    plan: &Plan,
    inst: &Inst,
    s: &State,
    taken: bool,
    to: u32,
) -> Option<Jump>
    requires { AreInLattice b.now s.now.regs }
    ensures values { IsJumpInLattice b.now result }
    ensures jump { duties_of_jump result
        ≡ branch_duty to (refine_of b.now plan.now (shape_of inst.now) s.now taken) }
{
    let state = refine(b, plan, inst, s, taken)?;
    Some(Jump {
        targets: one_target(to),
        state,
    })
}

/// Returns the next instruction as successor, with the abstract state after this one.
fn jump_to_next(b: &Bounds, image: &Image, plan: &Plan, s: &State, at: InstAt<'_>) -> Jump
    requires values { AreInLattice b.now s.now.regs }
    requires room { LocalsFitInstruction b.now (shape_of at.inst.now) s.now }
    ensures values { IsJumpInLattice b.now (Some result) }
    ensures jump { duties_of_jump (Some result)
        ≡ next_duty_of b.now image.now plan.now at.entry.addr s.now
        (shape_of at.entry.inst.now) at.entry.size }
{
    let mut c = identity_change(s);
    write_successor_change(b, image, plan, shape(at.inst), s, &mut c);
    Jump {
        targets: one_target(at.addr.wrapping_add(at.size)),
        state: state_after_change(s, &c),
    }
}

/// Writes into `c` the change that changes nothing in the state `s`. Most states have no saved
/// lower contexts, and then no flags of those are copied.
#[inline(always)]
fn write_identity_change(s: &State, c: &mut Change)
    ensures { state_after s.now c.new ≡ s.now }
{
    if !s.locals.is_empty() {
        c.set_to_identity(s);
        return;
    }
    c.base = Base::Same;
    c.first.at = None;
    c.second.at = None;
    c.third.at = None;
    c.ie = s.ie;
    c.ccpn = s.ccpn;
    c.lower = s.lower;
    c.locals = ArrayVec::new();
}

/// Overwrites `out` with the abstract value that a load gets from the addresses `at`, or with any
/// word if the instruction isn't a load.
fn write_loaded_value(b: &Bounds, image: &Image, plan: &Plan, shape: Shape, at: &Val, out: &mut Val)
    requires shape { IsShapeInBounds shape }
    requires value { IsInLattice b.now at.now }
    ensures loaded { (s : State) → at.now ≡ address_of_access b.now plan.now shape s
        → out.new ≡ value_loaded_by_shape b.now image.now plan.now s shape }
    ensures value { IsInLattice b.now out.new }
{
    let _most_words = b.most_words();
    match shape {
        Shape::Load { size, signed, .. } => {
            write_load(b, image, plan, at, LoadKind { size, signed }, out)
        }
        _ => write_any(out),
    }
}
