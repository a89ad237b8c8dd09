// The rules of a node, and its first fault.
ghost use Rattle.std.specs.Prelude.{◌≡◌, All, ◌<◌, ◌^◌, Contains, MatchOption, ◌↔◌, IsTrue};
ghost use Rattle.cfg_recover.specs.RulesHoldOrFail.{limits_of_cert, RulesHoldAtNode, EntryRuleHolds};
ghost use Rattle.value_domain.specs.State.{AreWellFormed};
ghost use Rattle.cfg_recover.specs.SetOperations.{IsCorrectCache};
ghost use Rattle.depth_check.specs.Interrupts.{LastInterruptsHold};
ghost use Rattle.depth_check.specs.NodeFaults.{IsFirstNodeFault};
ghost use Rattle.depth_check.specs.NodeFaults as nodes;

use crate::fast_paths::NO_REGISTERS;
use crate::last_interrupts::LastInterrupts;
use crate::points::{
    PointCheck, PointScratch, has_values_in_lattice, point_of_walk, rule_broken_at,
};
use crate::rules::BAD_VALUES;
use elf_image::Image;
use packed_cert::{Cert, Node, PointWalk};
use std::marker::Model;
use tcd_plan::Plan;
use value_domain::Bounds;

/// A rule that fails in a node, and the address where it fails.
#[derive(Clone, Copy)]
pub(crate) struct Fault {
    pub rule: u8,
    pub addr: u32,
}

/// What the check of a node uses again: the scratch of its points, the last two contexts in which
/// entries of interrupts hold, and a walk over points, which has room for a state.
#[derive(Drop)]
pub(crate) struct NodeScratch<'a> {
    pub(crate) point: PointScratch,
    pub(crate) interrupts: LastInterrupts,
    pub(crate) walk: PointWalk<'a>,
}

/// Returns the first fault of a certificate's node, by its address and then by its rule, or `None`
/// if all rules hold there. `scratch` has caches for the next node.
#[inline(never)]
pub(crate) fn first_node_fault<'a>(
    b: &Bounds,
    image: &Image,
    plan: &Plan,
    cert: &Cert,
    node: &Node<'a>,
    scratch: &mut NodeScratch<'a>,
) -> Option<Fault>
    requires limits { b.now ≡ limits_of_cert plan.now cert.now }
    requires points { All (λ p. AreWellFormed p.state.regs) node.now.points }
    requires member { Contains cert.now.nodes node.now }
    requires interrupts { LastInterruptsHold plan.now cert.now scratch.old.interrupts }
    requires results { IsCorrectCache b.now scratch.old.point.cache }
    ensures fault { MatchOption result (RulesHoldAtNode image.now plan.now cert.now node.now)
        (λ f. IsFirstNodeFault image.now plan.now cert.now node.now f.rule f.addr) }
    ensures interrupts { LastInterruptsHold plan.now cert.now scratch.new.interrupts }
    ensures results { IsCorrectCache b.now scratch.new.point.cache }
{
    let entry = node.key.entry;
    let good = entry_rule_holds(b, node);
    node.start_walk(&mut scratch.walk);
    scratch.point.registers = NO_REGISTERS;
    let mut next = 0usize;
    while let Some(addr) = scratch.walk.advance() {
        point_address_fits_word(addr);
        let here = point_of_walk(b, node, addr, next > 0, &scratch.interrupts, &scratch.walk);
        next = next.wrapping_add(1);
        if !has_values_in_lattice(b, here) {
            return earlier_node_fault(good, entry, addr, Some(BAD_VALUES));
        }
        let hinted = node.with_hint(next);
        let at = PointCheck {
            bounds: b,
            image,
            plan,
            cert,
            node: &hinted,
            point: here,
        };
        let found = rule_broken_at(&at, &mut scratch.point);
        if let Some(fault) = earlier_node_fault(good, entry, addr, found) {
            return Some(fault);
        }
        scratch.point.registers = scratch.point.registers.kept_if_same_state(here.next);
        // Entries were checked here, so their context is kept.
        let is_checked = here.state.ie && !here.again && !plan.irqs.is_empty();
        if is_checked {
            scratch.interrupts.keep_context(&at);
        }
    }
    if good {
        None
    } else {
        Some(node_entry_fault(entry))
    }
}

/// Returns the earlier of two faults: K2 (entry point and exit values) at `entry` unless `good`,
/// and `found` at `addr`. An entry above `addr` is left to later points; `None` without a fault.
fn earlier_node_fault(good: bool, entry: u32, addr: u32, found: Option<u8>) -> Option<Fault>
    ensures { result ≡ nodes.earlier_node_fault good entry addr found }
{
    if good || addr < entry {
        return found.map(|rule| Fault { rule, addr });
    }
    if entry < addr {
        return Some(node_entry_fault(entry));
    }
    Some(Fault {
        rule: found.unwrap_or(BAD_VALUES).min(BAD_VALUES),
        addr,
    })
}

/// Returns the fault K2 at `entry`: a node has no entry point, or its exit has a bad value.
fn node_entry_fault(entry: u32) -> Fault
    ensures { result ≡ record { rule = 2; addr = entry } }
{
    Fault {
        rule: BAD_VALUES,
        addr: entry,
    }
}

/// Establishes for proofs that the address of a checked point is below 2^32, as its type says.
fn point_address_fits_word(addr: u32)
    ensures { addr < 2 ^ 32 }
{}

/// Returns true if K2 holds at a node: its entry is a point, and the exit, if any, has only values
/// that the plan allows.
pub(crate) fn entry_rule_holds(b: &Bounds, node: &Node<'_>) -> bool
    ensures { IsTrue result ↔ EntryRuleHolds b.now node.now }
{
    if node.point(node.key.entry).is_none() {
        return false;
    }
    match node.exit() {
        Some(exit) => exit.has_lattice_values(b),
        None => true,
    }
}
