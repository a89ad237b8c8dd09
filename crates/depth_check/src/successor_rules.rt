// K4 for the successors of a point in its frame.
ghost use Rattle.std.specs.Prelude.{◌≡◌, ◌+◌, ◌<◌, ◌++◌, false, true};
ghost use Rattle.depth_check.specs.LeastBroken.{FindsLeastBrokenByDuties};
ghost use Rattle.tc_isa.specs.InBounds.{IsShapeInBounds, IsTargetInBounds};
ghost use Rattle.cfg_recover.specs.Duties.{jump_duties_to};
ghost use Rattle.depth_check.specs.PointDuties.{IsFaultlessInstructionAt, branch_duties_at, next_duties_at, possible_targets_at, successor_duties_at};
ghost use Rattle.cfg_recover.specs.SetOperations.{IsCorrectCache};
ghost use Rattle.depth_check.specs.CheckedRegisters.{CheckedRegistersHoldAt, RegisterJumpsHoldAt};
ghost use Rattle.tc_isa.specs.declared.shapes.Target.TheVariants.{Reg};

use crate::fast_paths::{may_skip_change, may_skip_refinement, rule_broken_by_kept_state};
use crate::node_covers::{
    has_covering_points, is_changed_state_covered, is_unrefined_state_covered,
};
use crate::points::{PointCheck, PointScratch, write_change_at};
use crate::rules::{NO_POINT, lesser_broken_rule};
use cfg_recover::{Located, broken_rule_unless, targets};
use tc_isa::{Shape, Target};
use vd_transfer::{Change, write_branch_change};

/// Returns K4, the rule on successors, if the node doesn't cover one of the checked instruction
/// `found`. Those after calls are left to `rule_broken_by_call_or_syscall`.
pub(crate) fn rule_broken_by_successors(
    at: &PointCheck<'_, '_>,
    found: &Located,
    scratch: &mut PointScratch,
) -> Option<u8>
    requires found { IsFaultlessInstructionAt at.now found.now }
    requires results { IsCorrectCache at.now.bounds scratch.old.cache }
    requires registers { CheckedRegistersHoldAt at.now scratch.old.registers }
    ensures found { FindsLeastBrokenByDuties at.now (successor_duties_at at.now found.now) result }
    ensures results { IsCorrectCache at.now.bounds scratch.new.cache }
    ensures registers { CheckedRegistersHoldAt at.now scratch.new.registers }
{
    let addr = at.point.addr;
    let next = addr.wrapping_add(found.size);
    match found.shape {
        Shape::Branch { by, .. } => rule_broken_by_branch(
            at,
            found.shape,
            next,
            addr.wrapping_add(by),
            &mut scratch.change,
        ),
        Shape::Jump { to } => rule_broken_by_jump(at, to, &mut scratch.registers.jumped),
        Shape::Call { .. } | Shape::Ret | Shape::Rfe | Shape::Syscall { .. } | Shape::Mtcr { .. } =>
            None,
        _ => rule_broken_by_next(at, found, scratch),
    }
}

/// Returns K4, the rule on successors, if the node doesn't cover a side of a checked branch: `next`
/// if not taken, else `to`. `c` is overwritten.
#[inline(never)]
fn rule_broken_by_branch(
    at: &PointCheck<'_, '_>,
    shape: Shape,
    next: u32,
    to: u32,
    c: &mut Change,
) -> Option<u8>
    requires { IsShapeInBounds shape }
    ensures { FindsLeastBrokenByDuties at.now (branch_duties_at at.now next shape false
        ++ branch_duties_at at.now to shape true) result }
{
    let straight = rule_broken_by_branch_side(at, shape, false, next, c);
    let taken = rule_broken_by_branch_side(at, shape, true, to, c);
    lesser_broken_rule(straight, taken)
}

/// Returns K4, the rule on successors, if the node doesn't cover a target of the checked jump.
/// `jumped` caches a register by which jumps hold in this state.
fn rule_broken_by_jump(at: &PointCheck<'_, '_>, to: Target, jumped: &mut Option<u8>) -> Option<u8>
    requires target { IsTargetInBounds to }
    requires jumped { RegisterJumpsHoldAt at.now jumped.old }
    ensures found { FindsLeastBrokenByDuties at.now
        (jump_duties_to at.now.point.state (possible_targets_at at.now to)) result }
    ensures jumped { RegisterJumpsHoldAt at.now jumped.new }
{
    match to {
        Target::Rel(by) => rule_broken_by_kept_state(at, at.point.addr.wrapping_add(by)),
        Target::Abs(x) => rule_broken_by_kept_state(at, x),
        Target::Reg(r) => rule_broken_by_ji(at, r, jumped),
    }
}

/// Returns K4, the rule on successors, if the node doesn't cover the state after the checked
/// point's instruction `found`, at the next address. The change goes to `scratch`.
fn rule_broken_by_next(
    at: &PointCheck<'_, '_>,
    found: &Located,
    scratch: &mut PointScratch,
) -> Option<u8>
    requires found { IsFaultlessInstructionAt at.now found.now }
    requires results { IsCorrectCache at.now.bounds scratch.old.cache }
    ensures found { FindsLeastBrokenByDuties at.now (next_duties_at at.now found.now) result }
    ensures results { IsCorrectCache at.now.bounds scratch.new.cache }
    ensures registers { scratch.new.registers ≡ scratch.old.registers }
{
    if may_skip_change(found.shape) {
        return rule_broken_by_kept_state(at, at.point.addr.wrapping_add(found.size));
    }
    rule_broken_by_changed_state(at, found, scratch)
}

/// Returns K4, the rule on successors, if one side of a checked branch isn't covered at `to`. The
/// unrefined state is tried first, unless a register is decremented. `c` is overwritten.
fn rule_broken_by_branch_side(
    at: &PointCheck<'_, '_>,
    shape: Shape,
    taken: bool,
    to: u32,
    c: &mut Change,
) -> Option<u8>
    requires { IsShapeInBounds shape }
    ensures { FindsLeastBrokenByDuties at.now (branch_duties_at at.now to shape taken) result }
{
    let _bounds = at.bounds;
    if may_skip_refinement(shape) {
        if is_unrefined_state_covered(at, to, c) {
            return None;
        }
    }
    rule_broken_by_refined_side(at, shape, taken, to, c)
}

/// Returns K4, the rule on successors, if the node's point at `to` doesn't cover the state refined
/// on one side of a checked branch. `None` also for an impossible side. `c` is overwritten.
#[inline(never)]
fn rule_broken_by_refined_side(
    at: &PointCheck<'_, '_>,
    shape: Shape,
    taken: bool,
    to: u32,
    c: &mut Change,
) -> Option<u8>
    requires { IsShapeInBounds shape }
    ensures { FindsLeastBrokenByDuties at.now (branch_duties_at at.now to shape taken) result }
{
    if !write_branch_change(at.bounds, at.plan, shape, at.point.state, taken, c) {
        return None;
    }
    broken_rule_unless(is_changed_state_covered(at, to, c), NO_POINT)
}

/// Returns K4, the rule on successors, if the node doesn't cover a target of JI by the register
/// `r`. `jumped` caches a register by which jumps hold in this state.
#[inline(never)]
fn rule_broken_by_ji(at: &PointCheck<'_, '_>, r: u8, jumped: &mut Option<u8>) -> Option<u8>
    requires register { r < 32 }
    requires jumped { RegisterJumpsHoldAt at.now jumped.old }
    ensures found { FindsLeastBrokenByDuties at.now
        (jump_duties_to at.now.point.state (possible_targets_at at.now (Reg r))) result }
    ensures jumped { RegisterJumpsHoldAt at.now jumped.new }
{
    if *jumped == Some(r) {
        return None;
    }
    let s = at.point.state;
    let targets = targets(at.plan, s, at.point.addr, Target::Reg(r));
    if has_covering_points(at, targets.as_slice()) {
        *jumped = Some(r);
        None
    } else {
        Some(NO_POINT)
    }
}

/// Returns K4, the rule on successors, if the node doesn't cover the state after the checked
/// instruction `found`, at the next address. The change goes to `scratch`.
#[inline(never)]
fn rule_broken_by_changed_state(
    at: &PointCheck<'_, '_>,
    found: &Located,
    scratch: &mut PointScratch,
) -> Option<u8>
    requires found { IsFaultlessInstructionAt at.now found.now }
    requires results { IsCorrectCache at.now.bounds scratch.old.cache }
    ensures found { FindsLeastBrokenByDuties at.now (next_duties_at at.now found.now) result }
    ensures results { IsCorrectCache at.now.bounds scratch.new.cache }
    ensures registers { scratch.new.registers ≡ scratch.old.registers }
{
    write_change_at(at, found, scratch);
    let next = at.point.addr.wrapping_add(found.size);
    broken_rule_unless(
        is_changed_state_covered(at, next, &scratch.change),
        NO_POINT,
    )
}
