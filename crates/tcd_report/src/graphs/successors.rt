// The addresses where a point goes on in its frame.
ghost use Rattle.std.specs.Prelude.{◌≡◌, ◌++◌, [], OnOk, false, is_some, true, unwrap_or};
ghost use Rattle.tc_isa.specs.InBounds.{IsShapeInBounds, IsTargetInBounds};
ghost use Rattle.value_domain.specs.State.{AreInLattice};
ghost use Rattle.vd_transfer.specs.Branches.{refine_of};
ghost use Rattle.cfg_recover.specs.LocalRules.{targets_of};
ghost use Rattle.cfg_recover.specs.Duties.{branch_duty, resume};
ghost use Rattle.tcd_report.specs.Graphs.{successors_at, jump_targets_of, return_address_of_duty, return_addresses_after};
ghost use Rattle.depth_cert.specs.Points.{point_of};

use crate::judged::Judged;
use cfg_recover::{Located, targets};
use depth_cert::Key;
use packed_cert::Cert;
use tc_isa::{Shape, Target};
use tcd_base::NoMemory;
use tcd_plan::Plan;
use value_domain::State;
use vd_transfer::{identity_change, write_branch_change};

/// Appends the next addresses in the same frame: jump targets, feasible sides of a branch, or the
/// next instruction. Calls, system calls, returns and `mtcr` have none. `found` is the decoded
/// instruction.
pub(crate) fn push_successors(
    all: &mut Vec<u32>,
    judged: &Judged,
    addr: u32,
    s: &State,
    found: &Located,
) -> Result<(), NoMemory>
    requires shape { IsShapeInBounds found.now.shape }
    requires values { AreInLattice judged.now.bounds.now s.now.regs }
    ensures { OnOk result (all.new.items ≡ all.old.items
        ++ jump_targets_of (successors_at judged.now (point_of addr s.now) found.now)) }
{
    let shape = found.shape;
    let next = addr.wrapping_add(found.size);
    match shape {
        Shape::Branch { by, .. } => {
            push_branch_successor(all, judged, shape, s, false, next)?;
            push_branch_successor(all, judged, shape, s, true, addr.wrapping_add(by))
        }
        Shape::Jump { to } => push_jump_targets(all, judged.plan, addr, s, to),
        Shape::Call { .. } | Shape::Ret | Shape::Rfe | Shape::Syscall { .. } | Shape::Mtcr { .. } =>
            Ok(()),
        _ => {
            all.push(next)?;
            Ok(())
        }
    }
}

/// Appends the targets of a point's jump. Not inlined, so that their list takes stack only here.
#[inline(never)]
fn push_jump_targets(
    all: &mut Vec<u32>,
    plan: &Plan,
    addr: u32,
    s: &State,
    to: Target,
) -> Result<(), NoMemory>
    requires { IsTargetInBounds to }
    ensures { OnOk result (all.new.items ≡ all.old.items
        ++ unwrap_or (targets_of plan.now s.now addr to) []) }
{
    let targets = targets(plan, s, addr, to);
    all.extend_from_slice(targets.as_slice())?;
    Ok(())
}

/// Sets `all` to the return address `back` of a call or system call, once for each frame of `keys`
/// that may return. The nodes of such frames have an exit.
pub(crate) fn set_return_addresses(
    all: &mut Vec<u32>,
    cert: &Cert,
    keys: &[Key],
    back: u32,
) -> Result<(), NoMemory>
    ensures { OnOk result (all.new.items ≡ return_addresses_after cert.now back keys.now) }
{
    all.clear();
    for key in keys {
        push_return_addr(all, cert, key, back)?;
    }
    Ok(())
}

// Appends `to`, the target of a branch's taken edge or, if `taken` is false, of its fall-through
// edge, if that edge is feasible.
fn push_branch_successor(
    all: &mut Vec<u32>,
    judged: &Judged,
    shape: Shape,
    s: &State,
    taken: bool,
    to: u32,
) -> Result<(), NoMemory>
    requires shape { IsShapeInBounds shape }
    requires values { AreInLattice judged.now.bounds.now s.now.regs }
    ensures { let j = judged.now in OnOk result (all.new.items ≡ all.old.items
        ++ jump_targets_of (branch_duty to (refine_of j.bounds.now j.plan.now shape s.now taken))) }
{
    if is_branch_edge_feasible(judged, shape, s, taken) {
        all.push(to)?;
    }
    Ok(())
}

// Returns true if a branch's taken edge or, if `taken` is false, its fall-through edge is feasible
// in state `s`. Not inlined, so that the state's change takes stack only here.
#[inline(never)]
fn is_branch_edge_feasible(judged: &Judged, shape: Shape, s: &State, taken: bool) -> bool
    requires shape { IsShapeInBounds shape }
    requires values { AreInLattice judged.now.bounds.now s.now.regs }
    ensures { let j = judged.now in
        result ≡ is_some (refine_of j.bounds.now j.plan.now shape s.now taken) }
{
    let mut c = identity_change(s);
    write_branch_change(judged.bounds, judged.plan, shape, s, taken, &mut c)
}

// Appends the return address `back` if the entered frame with this key may return: its node has an
// exit.
fn push_return_addr(all: &mut Vec<u32>, cert: &Cert, key: &Key, back: u32) -> Result<(), NoMemory>
    ensures { OnOk result
        (all.new.items ≡ all.old.items ++ return_address_of_duty cert.now (resume key.now back)) }
{
    if let Some(node) = cert.node(key) {
        if node.exit().is_some() {
            all.push(back)?;
        }
    }
    Ok(())
}
