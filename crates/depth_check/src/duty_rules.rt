// The rules of the duties of a point: what it enters, its interrupts, and how it leaves the node.
ghost use Rattle.std.specs.Prelude.{◌≡◌, length, ◌≤◌, ◌↔◌, IsTrue, IfSome, ◌+◌, [], ◌∷◌};
ghost use Rattle.depth_check.specs.LeastBroken.{FindsLeastBroken, FindsLeastBrokenByDuties};
ghost use Rattle.depth_check.specs.DutiesHold.{IsReturnMet, LeavingHolds};
ghost use Rattle.depth_cert.specs.Keys.{call_kind};
ghost use Rattle.value_domain.specs.State.{AreWellFormed};
ghost use Rattle.vd_transfer.specs.Changes.{state_after};
ghost use Rattle.tc_isa.specs.InBounds.{IsShapeInBounds, IsTargetInBounds};
ghost use Rattle.cfg_recover.specs.Entries.{call_entry, possible_irqs_of};
ghost use Rattle.cfg_recover.specs.Duties.{enter_duty, entry_and_return};
ghost use Rattle.depth_check.specs.PointDuties.{IsFaultlessInstructionAt, all_duties_at, call_duties_at, entry_duties_at, interrupt_duties_at, misaligned_duties_at, misaligned_duty_at, possible_targets_at, system_call_duties_at};
ghost use Rattle.cfg_recover.specs.FlowDuties.{duties_of_flow_return, duties_of_irqs};
ghost use Rattle.cfg_recover.specs.SetOperations.{IsCorrectCache};
ghost use Rattle.depth_check.specs.CheckedRegisters.{CallHolds, RegisterCallsHoldAt, CheckedRegistersHoldAt};
ghost use Rattle.cfg_recover.specs.FlowDuties as flows;

use crate::node_covers::{has_covering_exit, has_point_covering_change, is_return_covered};
use crate::points::{PointCheck, PointScratch};
use crate::rules::{
    NO_EXCEPTION_RETURN, NO_FUNCTION, NO_INTERRUPT, NO_MISALIGNED, NO_POINT, NO_RETURN,
    NO_SYSTEM_CALL, SMALL_NEED, lesser_broken_rule,
};
use crate::successor_rules::rule_broken_by_successors;
use cfg_recover::{
    Located, aln_entry_change, aln_key, broken_rule_unless, call_entry_change, direct_target,
    entered_key, handler_entry_change, irq_key, may_be_misaligned, possible_irqs, sys_entry_change,
    sys_key, targets,
};
use depth_cert::{CALL, Key, SYS};
use packed_cert::Node;
use tc_isa::{Shape, Target};
use value_domain::State;
use vd_transfer::Change;

/// Returns the lowest of rules K4 to K14 that fails for what follows from a checked point's
/// instruction `found`: successors, entered frames, interrupts, the exit. `None` if all hold.
pub(crate) fn rule_broken_by_duties(
    at: &PointCheck<'_, '_>,
    found: &Located,
    scratch: &mut PointScratch,
) -> Option<u8>
    requires found { IsFaultlessInstructionAt at.now found.now }
    requires results { IsCorrectCache at.now.bounds scratch.old.cache }
    requires registers { CheckedRegistersHoldAt at.now scratch.old.registers }
    ensures found { FindsLeastBrokenByDuties at.now (all_duties_at at.now found.now) result }
    ensures results { IsCorrectCache at.now.bounds scratch.new.cache }
    ensures registers { CheckedRegistersHoldAt at.now scratch.new.registers }
{
    let jumps = rule_broken_by_successors(at, found, scratch);
    let entered = rule_broken_by_call_or_syscall(
        at,
        found.shape,
        found.size,
        &mut scratch.registers.called,
    );
    let misaligned = rule_broken_by_misaligned_access(at, found);
    let irqs = rule_broken_by_interrupts(at);
    let leave = rule_broken_by_leaving(at.node, at.point.state, found.shape);
    lesser_broken_rule(
        lesser_broken_rule(
            lesser_broken_rule(lesser_broken_rule(jumps, entered), misaligned),
            irqs,
        ),
        leave,
    )
}

/// Returns the lower of K11 (handlers' nodes) and K14 (needs) that fails for the interrupts at a
/// checked point. `None` if both hold, or are known to by a cached context.
pub(crate) fn rule_broken_by_interrupts(at: &PointCheck<'_, '_>) -> Option<u8>
    ensures { FindsLeastBrokenByDuties at.now (interrupt_duties_at at.now) result }
{
    let again = at.point.again;
    if again {
        return None;
    }
    let enabled = at.point.state.ie;
    if !enabled {
        return None;
    }
    let irqs = possible_irqs(at.plan, at.point.state);
    if irqs.is_empty() {
        return None;
    }
    rule_broken_by_possible_irqs(at, irqs.as_slice())
}

/// Returns the lower of K11 (handlers' nodes) and K14 (needs) that fails for `irqs`, or `None`.
/// Handlers get the checked state, changed by `entry`, with CCPN at the interrupt's priority.
pub(crate) fn rule_broken_by_irqs(at: &PointCheck<'_, '_>, irqs: &[u8], entry: Change) -> Option<u8>
    requires { AreWellFormed (state_after at.now.point.state entry).regs }
    ensures { FindsLeastBrokenByDuties at.now
        (duties_of_irqs at.now.plan (state_after at.now.point.state entry) irqs.now) result }
{
    let mut entry = entry;
    let mut found = None;
    for p in irqs {
        entry.ccpn = *p;
        let one = rule_broken_by_entry(at, NO_INTERRUPT, &irq_key(at.plan, *p), &entry, None);
        found = lesser_broken_rule(found, one);
    }
    found
}

/// Returns the lowest rule that a checked call or SYSCALL of `size` bytes breaks: K4 (return), K5
/// or K12 (entry), K14 (need). `None` also for other instructions. `called` caches a register by
/// which calls hold in this state.
fn rule_broken_by_call_or_syscall(
    at: &PointCheck<'_, '_>,
    shape: Shape,
    size: u32,
    called: &mut Option<u8>,
) -> Option<u8>
    requires shape { IsShapeInBounds shape }
    requires called { RegisterCallsHoldAt at.now called.old }
    ensures found { FindsLeastBrokenByDuties at.now (entry_duties_at at.now shape size) result }
    ensures called { RegisterCallsHoldAt at.now called.new }
{
    let back = at.point.addr.wrapping_add(size);
    match shape {
        Shape::Call { to } => rule_broken_by_call_unless_known(at, to, back, called),
        Shape::Syscall { tin } => rule_broken_by_system_call(at, tin, back),
        _ => None,
    }
}

/// Returns the lower of K10 (the handler's node) and K14 (needs) that fails for a trap of a
/// misaligned access. `None` if both hold, the access is aligned, or the plan has no such trap.
fn rule_broken_by_misaligned_access(at: &PointCheck<'_, '_>, found: &Located) -> Option<u8>
    requires { IsFaultlessInstructionAt at.now found.now }
    ensures { FindsLeastBrokenByDuties at.now (misaligned_duties_at at.now found.now) result }
{
    let plan = at.plan;
    if !plan.aln {
        return None;
    }
    if !may_be_misaligned(at.bounds, at.plan, at.point.state, found.shape) {
        return None;
    }
    rule_broken_by_misaligned_entry(at)
}

/// Returns K6 or K7 if a checked RET, or RFE of a system call's handler, leaves in a state that the
/// node's exit doesn't cover.
#[tactic(auto, unfolding(cfg_recover::specs::FlowDuties::flow_leave_of))]
fn rule_broken_by_leaving(node: &Node<'_>, s: &State, shape: Shape) -> Option<u8>
    requires { AreWellFormed s.now.regs }
    ensures { FindsLeastBroken (LeavingHolds node.now s.now (flows.flow_leave_of shape)) result }
{
    match shape {
        Shape::Ret => broken_rule_unless(has_covering_exit(node, s), NO_RETURN),
        Shape::Rfe => {
            if node.key.kind == SYS {
                broken_rule_unless(has_covering_exit(node, s), NO_EXCEPTION_RETURN)
            } else {
                None
            }
        }
        _ => None,
    }
}

/// Returns the lowest rule that a checked call to `to` breaks: K4 (return to `back`), K5 (entry) or
/// K14 (need). If the next point has the same state, a call by the register `called`, checked
/// before, is skipped.
fn rule_broken_by_call_unless_known(
    at: &PointCheck<'_, '_>,
    to: Target,
    back: u32,
    called: &mut Option<u8>,
) -> Option<u8>
    requires target { IsTargetInBounds to }
    requires called { RegisterCallsHoldAt at.now called.old }
    ensures found { FindsLeastBrokenByDuties at.now (call_duties_at at.now
        (call_entry at.now.point.state) back (possible_targets_at at.now to)) result }
    ensures called { RegisterCallsHoldAt at.now called.new }
{
    let Target::Reg(r) = to else {
        return rule_broken_by_call(at, to, back);
    };
    let call = Target::Reg(r);
    if at.point.next != Some(back) {
        return rule_broken_by_call(at, call, back);
    }
    if *called == Some(r) {
        return None;
    }
    let found = rule_broken_by_call(at, call, back);
    if found.is_none() {
        *called = Some(r);
    }
    found
}

/// Returns the lowest rule that a checked SYSCALL `tin` breaks, or `None`: K4 (return to `back`),
/// K12 (the handler's entry) or K14 (need).
#[inline(never)]
fn rule_broken_by_system_call(at: &PointCheck<'_, '_>, tin: u8, back: u32) -> Option<u8>
    ensures { FindsLeastBrokenByDuties at.now (system_call_duties_at at.now tin back) result }
{
    let node = at.node;
    let entry = sys_entry_change(at.bounds, at.plan, &node.key, at.point.state, tin);
    let key = sys_key(at.plan, &node.key);
    rule_broken_by_entry(at, NO_SYSTEM_CALL, &key, &entry, Some(back))
}

/// Returns the lowest rule that a checked call to `to` breaks, or `None`: K4 (return to `back`), K5
/// (a function's entry) or K14 (need).
#[inline(never)]
fn rule_broken_by_call(at: &PointCheck<'_, '_>, to: Target, back: u32) -> Option<u8>
    requires { IsTargetInBounds to }
    ensures { FindsLeastBrokenByDuties at.now (call_duties_at at.now
        (call_entry at.now.point.state) back (possible_targets_at at.now to)) result }
{
    let entry = call_entry_change(at.bounds, at.point.state);
    match direct_target(at.point.addr, to) {
        Some(target) => rule_broken_by_call_targets(at, &entry, &[target], back),
        None => rule_broken_by_calli(at, &entry, to, back),
    }
}

/// Returns the lowest rule that calls of these functions break, or `None`: K4 (return to `back`),
/// K5 (entry) or K14 (need). Each is entered with the checked point's state, changed by `entry`.
fn rule_broken_by_call_targets(
    at: &PointCheck<'_, '_>,
    entry: &Change,
    targets: &[u32],
    back: u32,
) -> Option<u8>
    requires { AreWellFormed (state_after at.now.point.state entry.now).regs }
    ensures { FindsLeastBrokenByDuties at.now (call_duties_at at.now
        (state_after at.now.point.state entry.now) back targets.now) result }
{
    let node = at.node;
    let mut found = None;
    let mut held = None;
    for t in targets {
        let key = entered_key(&node.key, CALL, *t);
        let one = rule_broken_by_called_node(at, &key, entry, back, &mut held);
        found = lesser_broken_rule(found, one);
    }
    found
}

/// Returns the lowest rule that a call of `key` breaks: K4 (return to `back`), K5 (entry) or K14
/// (need). If entry state and exit are those of `held`, checked before, only needs are compared.
fn rule_broken_by_called_node(
    at: &PointCheck<'_, '_>,
    key: &Key,
    entry: &Change,
    back: u32,
    held: &mut Option<Key>,
) -> Option<u8>
    requires entry { AreWellFormed (state_after at.now.point.state entry.now).regs }
    requires kind { key.now.kind ≡ call_kind }
    requires held { IfSome held.old (CallHolds at.now entry.now back) }
    ensures found { FindsLeastBrokenByDuties at.now
        (entry_and_return 5 key.now (state_after at.now.point.state entry.now) back) result }
    ensures held { IfSome held.new (CallHolds at.now entry.now back) }
{
    if let Some(last) = *held {
        if at.cert.have_same_entry_and_exit(&last, key) {
            let Some(entered) = at.cert.node(key) else {
                return Some(NO_FUNCTION);
            };
            let has_need = is_need_sufficient_for_entry(at.node, at.point.state, &entered);
            return broken_rule_unless(has_need, SMALL_NEED);
        }
    }
    let found = rule_broken_by_entry(at, NO_FUNCTION, key, entry, Some(back));
    if found.is_none() {
        *held = Some(*key);
    }
    found
}

/// Returns the lowest rule that a checked CALLI breaks, or `None`: K4 (return to `back`), K5
/// (entry) or K14 (need). Each possible function is entered with the state changed by `entry`.
#[inline(never)]
fn rule_broken_by_calli(
    at: &PointCheck<'_, '_>,
    entry: &Change,
    to: Target,
    back: u32,
) -> Option<u8>
    requires target { IsTargetInBounds to }
    requires entry { AreWellFormed (state_after at.now.point.state entry.now).regs }
    ensures { FindsLeastBrokenByDuties at.now (call_duties_at at.now
        (state_after at.now.point.state entry.now) back (possible_targets_at at.now to)) result }
{
    let targets = targets(at.plan, at.point.state, at.point.addr, to);
    rule_broken_by_call_targets(at, entry, targets.as_slice(), back)
}

/// Returns the lowest rule that entering the frame `key` breaks, or `None`: `rule` (entry point),
/// K14 (need) or K4 (return to `back`). The entry state is the checked one, changed by `entry`.
fn rule_broken_by_entry(
    at: &PointCheck<'_, '_>,
    rule: u8,
    key: &Key,
    entry: &Change,
    back: Option<u32>,
) -> Option<u8>
    requires rule { rule ≤ 14 }
    requires entry { AreWellFormed (state_after at.now.point.state entry.now).regs }
    ensures { FindsLeastBrokenByDuties at.now
        (enter_duty rule key.now (state_after at.now.point.state entry.now)
        ∷ duties_of_flow_return key.now back) result }
{
    let cert = at.cert;
    let node = at.node;
    let s = at.point.state;
    let Some(entered) = cert.node(key) else {
        return Some(rule);
    };
    let into = broken_rule_unless(
        has_point_covering_change(&entered, key.entry, s, entry),
        rule,
    );
    let need = broken_rule_unless(is_need_sufficient_for_entry(node, s, &entered), SMALL_NEED);
    let on = broken_rule_unless(is_return_met(node, s, &entered, key.kind, back), NO_POINT);
    lesser_broken_rule(lesser_broken_rule(into, need), on)
}

/// Returns whether a node's need has room for the saved lower contexts of `s`, one area for the
/// entry, and the entered node's need (K14).
fn is_need_sufficient_for_entry(node: &Node<'_>, s: &State, entered: &Node<'_>) -> bool
    ensures { IsTrue result ↔ (length s.now.locals.items + 1 + entered.now.need ≤ node.now.need) }
{
    s.locals.len() + 1 + usize::from(entered.need) <= usize::from(node.need)
}

/// Returns true if the node's point at `back` covers `s` after the return of `entered`, a call or a
/// system call by `kind`. Also true without `back` or without an exit.
fn is_return_met(
    node: &Node<'_>,
    s: &State,
    entered: &Node<'_>,
    kind: u8,
    back: Option<u32>,
) -> bool
    requires { AreWellFormed s.now.regs }
    ensures { IsTrue result ↔ IsReturnMet node.now s.now entered.now kind back }
{
    match back {
        Some(at) => is_return_covered(node, at, s, entered, kind),
        None => true,
    }
}

/// Returns the lower of K10 (the handler's node) and K14 (needs) that fails for entering the
/// handler of misaligned accesses, or `None`.
#[inline(never)]
fn rule_broken_by_misaligned_entry(at: &PointCheck<'_, '_>) -> Option<u8>
    ensures { FindsLeastBrokenByDuties at.now (misaligned_duty_at at.now ∷ []) result }
{
    let node = at.node;
    let entry = aln_entry_change(at.bounds, at.plan, &node.key, at.point.state);
    let key = aln_key(at.plan, &node.key);
    rule_broken_by_entry(at, NO_MISALIGNED, &key, &entry, None)
}

/// Returns the lower of K11 (handlers' nodes) and K14 (needs) that fails for `irqs`, all interrupts
/// possible at the checked point, or `None`.
#[inline(never)]
fn rule_broken_by_possible_irqs(at: &PointCheck<'_, '_>, irqs: &[u8]) -> Option<u8>
    requires { irqs.now ≡ possible_irqs_of at.now.plan at.now.point.state }
    ensures { FindsLeastBrokenByDuties at.now (interrupt_duties_at at.now) result }
{
    let node = at.node;
    let entry = handler_entry_change(at.bounds, at.plan, &node.key, at.point.state, 0);
    rule_broken_by_irqs(at, irqs, entry)
}
