// The rules at a point of a node.
ghost use Rattle.std.specs.Prelude.{◌≡◌, IfSome, ◌↔◌, IsTrue};
ghost use Rattle.cfg_recover.specs.RulesHoldOrFail.{RuleHolds};
ghost use Rattle.depth_check.specs.LeastBroken.{FindsLeastBroken};
ghost use Rattle.value_domain.specs.State.{AreInLattice};
ghost use Rattle.vd_transfer.specs.Registers.{a10_of};
ghost use Rattle.cfg_recover.specs.SetOperations.{IsCorrectCache};
ghost use Rattle.depth_check.specs.CheckedRegisters.{CheckedRegistersHoldAt};
ghost use Rattle.depth_check.specs.Interrupts.{InterruptsHold, HasWellFormedSps, LastInterruptsHold};
ghost use Rattle.vd_transfer.specs.Changes.{state_after};
ghost use Rattle.vd_transfer.specs.EffectsOnStates.{transfer_of};
ghost use Rattle.depth_check.specs.PointDuties.{IsFaultlessInstructionAt};
ghost use Rattle.cfg_recover.specs.Duties.{value_loaded_by_shape};
ghost use Rattle.tcd_plan.specs.PlanData.{PlanData};
ghost use Rattle.value_domain.specs.Values.{IsWellFormed};
ghost use Rattle.depth_cert.specs.Certs.{CertData};
ghost use Rattle.packed_cert.specs.Walks.{IsNextWithSameState};

use crate::duty_rules::{rule_broken_by_duties, rule_broken_by_interrupts};
use crate::fast_paths::{CheckedRegisters, next_after_nop_or_jump, rule_broken_by_kept_state};
use crate::last_interrupts::LastInterrupts;
use crate::rules::{SMALL_NEED, is_need_sufficient, lesser_broken_rule};
use arrayvec::ArrayVec;
use cfg_recover::{
    KnownCodes, Located, OperationCache, broken_rule_unless, check_decoded_instruction,
    write_successor_change,
};
use elf_image::Image;
use packed_cert::{Cert, Node, PointWalk};
use std::marker::Model;
use tcd_plan::Plan;
use value_domain::{Bounds, State, Val, is_value};
use vd_transfer::{Base, Change, RegisterWrite};

/// A point that is checked: what it is checked against, its node, and the point itself.
#[derive(Drop)]
pub(crate) struct PointCheck<'a, 'b> {
    pub(crate) bounds: &'a Bounds,
    pub(crate) image: &'a Image,
    pub(crate) plan: &'a Plan,
    pub(crate) cert: &'a Cert,
    pub(crate) node: &'a Node<'a>,
    pub(crate) point: CurrentPoint<'b>,
}

/// A point of a node: its address, and the state before its instruction.
///
/// The rest are facts for the fast paths: whether the entries of its interrupts are known to hold,
/// whether its values are known to be values of the plan, an address at which the node is known to
/// have a point with the same state, and the walk over the node's points.
#[derive(Clone, Copy)]
pub(crate) struct CurrentPoint<'b> {
    pub(crate) addr: u32,
    pub(crate) state: &'b State,
    pub(crate) again: bool,
    pub(crate) known: bool,
    pub(crate) next: Option<u32>,
    pub(crate) walk: &'b PointWalk<'b>,
}

impl<'a, 'b> Model for PointCheck<'a, 'b> {
    ghost use Rattle.depth_check.specs.PointCheckData.{PointCheckData};

    ghost Value = { PointCheckData };

    ghost use Rattle.depth_check.specs.PointChecks.{point_check_data, IsPointCheck};

    ghost view = { point_check_data };

    ghost invariant = { IsPointCheck };
}

/// What the check of a point uses again: room for a change, results of operations on two sets,
/// decoded words of code, and the registers whose targets were checked in this state.
#[derive(Drop)]
pub(crate) struct PointScratch {
    pub(crate) change: Change,
    pub(crate) cache: OperationCache,
    pub(crate) codes: KnownCodes,
    pub(crate) registers: CheckedRegisters,
}

/// Returns a placeholder change, to be overwritten before use. No register is set, IE is off, CCPN
/// is 0, and there are no saved lower contexts.
#[inline(always)]
pub(crate) fn blank_change() -> Change {
    Change {
        base: Base::Same,
        first: RegisterWrite {
            at: None,
            value: Val::any(),
        },
        second: RegisterWrite {
            at: None,
            value: Val::any(),
        },
        third: RegisterWrite {
            at: None,
            value: Val::any(),
        },
        ie: false,
        ccpn: 0,
        lower: false,
        locals: ArrayVec::new(),
    }
}

/// Returns the lowest of rules K3 to K14 that fails at a checked point, or `None` if all hold. A
/// nop or direct jump takes a fast path.
pub(crate) fn rule_broken_at(at: &PointCheck<'_, '_>, scratch: &mut PointScratch) -> Option<u8>
    requires results { IsCorrectCache at.now.bounds scratch.old.cache }
    requires registers { CheckedRegistersHoldAt at.now scratch.old.registers }
    ensures found { FindsLeastBroken
        (RuleHolds at.now.image at.now.plan at.now.cert at.now.node at.now.point) result }
    ensures results { IsCorrectCache at.now.bounds scratch.new.cache }
    ensures registers { CheckedRegistersHoldAt at.now scratch.new.registers }
{
    let _bounds = at.bounds;
    let Some(next) = next_after_nop_or_jump(at, &mut scratch.codes) else {
        return rule_broken_by_decoded_point(at, scratch);
    };
    let jump = rule_broken_by_kept_state(at, next);
    let irqs = rule_broken_by_interrupts(at);
    let need = broken_rule_unless(is_need_sufficient(at), SMALL_NEED);
    lesser_broken_rule(lesser_broken_rule(jump, irqs), need)
}

/// Writes to `scratch.change` how the checked point's instruction `found` changes its state. The
/// result of an operation on two sets may come from the cache.
#[inline(always)]
pub(crate) fn write_change_at(at: &PointCheck<'_, '_>, found: &Located, scratch: &mut PointScratch)
    requires found { IsFaultlessInstructionAt at.now found.now }
    requires results { IsCorrectCache at.now.bounds scratch.old.cache }
    ensures change { state_after at.now.point.state scratch.new.change
        ≡ transfer_of at.now.bounds at.now.plan found.now.shape at.now.point.state
        (value_loaded_by_shape at.now.bounds at.now.image at.now.plan at.now.point.state
        found.now.shape) }
    ensures values { AreInLattice at.now.bounds
        (state_after at.now.point.state scratch.new.change).regs }
    ensures results { IsCorrectCache at.now.bounds scratch.new.cache }
    ensures registers { scratch.new.registers ≡ scratch.old.registers }
{
    let s = at.point.state;
    if scratch
        .cache
        .write_change(at.bounds, at.plan, found.shape, s, &mut scratch.change)
    {
        return;
    }
    write_successor_change(
        at.bounds,
        at.image,
        at.plan,
        found.shape,
        s,
        &mut scratch.change,
    );
}

/// Returns the point at `addr`, the walk's current one, with facts for the fast paths. `known` says
/// that the point before had only values that K2 allows, so that only new ones are tested.
#[inline(always)]
pub(crate) fn point_of_walk<'b>(
    b: &Bounds,
    node: &Node<'_>,
    addr: u32,
    known: bool,
    interrupts: &LastInterrupts,
    walk: &'b PointWalk<'b>,
) -> CurrentPoint<'b>
    requires stacks { HasWellFormedSps interrupts.now }
    requires stack { IsWellFormed (a10_of walk.now.current) }
    ensures addr { result.addr ≡ addr }
    ensures state { result.state.now ≡ walk.now.current }
    ensures again { IsTrue result.again → (plan : PlanData) (cert : CertData)
        → LastInterruptsHold plan cert interrupts.now
        → InterruptsHold plan cert node.now walk.now.current }
    ensures known { IsTrue result.known → IsTrue known × AreInLattice b.now walk.now.anew }
    ensures next { IfSome result.next (IsNextWithSameState walk.now) }
    ensures walk { result.walk.now ≡ walk.now }
{
    let state = walk.state();
    CurrentPoint {
        addr,
        state,
        again: interrupts.covers(node, state),
        known: known && are_in_lattice(b, walk.new_values()),
        next: walk.next_address_if_same_state(),
        walk,
    }
}

/// Returns true if each of these abstract values is a set or range of words that the plan and the
/// format allow, as K2 asks.
pub(crate) fn are_in_lattice(b: &Bounds, vs: &[Val]) -> bool
    ensures { IsTrue result ↔ AreInLattice b.now vs.now }
{
    for v in vs {
        if !is_value(b, v) {
            return false;
        }
    }
    true
}

/// Returns true if all register values of the checked point's state are sets or ranges that the
/// plan and the format allow, as K2 asks.
pub(crate) fn has_values_in_lattice(b: &Bounds, point: CurrentPoint<'_>) -> bool
    requires { IsTrue point.known → AreInLattice b.now point.state.now.regs }
    ensures { IsTrue result ↔ AreInLattice b.now point.entry.state.now.regs }
{
    if point.known {
        return true;
    }
    are_in_lattice(b, &point.state.regs)
}

/// Returns the lowest of rules K3 to K14 that a checked point breaks by its instruction, what
/// follows from that, or the need. `None` if all hold.
#[inline(never)]
fn rule_broken_by_decoded_point(at: &PointCheck<'_, '_>, scratch: &mut PointScratch) -> Option<u8>
    requires results { IsCorrectCache at.now.bounds scratch.old.cache }
    requires registers { CheckedRegistersHoldAt at.now scratch.old.registers }
    ensures found { FindsLeastBroken (RuleHolds at.now.image at.now.plan at.now.cert
        at.now.node at.now.point) result }
    ensures results { IsCorrectCache at.now.bounds scratch.new.cache }
    ensures registers { CheckedRegistersHoldAt at.now scratch.new.registers }
{
    let node = at.node;
    let s = at.point.state;
    let located = scratch
        .codes
        .decode_cached(at.image, at.plan, at.point.addr);
    match check_decoded_instruction(at.bounds, at.plan, &node.key, s, &located) {
        Err(rule) => Some(rule),
        Ok(found) => {
            let duties = rule_broken_by_duties(at, found, scratch);
            let need = broken_rule_unless(is_need_sufficient(at), SMALL_NEED);
            lesser_broken_rule(duties, need)
        }
    }
}
