// The frames that an instruction itself may enter, and how it leaves its own.
ghost use Rattle.std.specs.Prelude.{◌≡◌, Some};
ghost use Rattle.tc_isa.specs.Meanings.{shape_of};
ghost use Rattle.value_domain.specs.State.{AreInLattice};
ghost use Rattle.cfg_recover.specs.Duties.{entry_duties_of, misaligned_duties_of, exit_duties_of};
ghost use Rattle.cfg_recover.specs.FlowStates.{IsEntryInLattice};
ghost use Rattle.cfg_recover.specs.FlowDuties.{duties_of_call_entry, duties_of_misaligned_entry, duties_of_leaving, flow_leave_of};

use crate::decoded_inst::InstAt;
use crate::entered::may_be_misaligned;
use crate::entry_changes::{aln_entry_change, call_entry_change, sys_entry_change};
use crate::flow_targets::{one_target, targets};
use crate::keys::{ALN_VECTOR, SYS_VECTOR};
use crate::{Enter, Leave};
use depth_cert::{ALN, CALL, Key, SYS};
use tc_isa::{Inst, Shape, shape};
use tcd_plan::Plan;
use value_domain::{Bounds, State};
use vd_transfer::state_after_change;

/// Returns the frames that a call or SYSCALL may enter, with their entry state and the return
/// address; `None` for other instructions.
pub(crate) fn call_flow_entry(
    b: &Bounds,
    plan: &Plan,
    key: &Key,
    s: &State,
    at: InstAt<'_>,
) -> Option<Enter>
    requires { AreInLattice b.now s.now.regs }
    ensures entry { duties_of_call_entry key.now result
        ≡ entry_duties_of plan.now key.now at.entry.addr s.now
        (shape_of at.entry.inst.now) at.entry.size }
    ensures values { IsEntryInLattice b.now result }
{
    let resume = Some(at.addr.wrapping_add(at.size));
    match shape(at.inst) {
        Shape::Call { to } => Some(Enter {
            kind: CALL,
            targets: targets(plan, s, at.addr, to),
            state: state_after_change(s, &call_entry_change(b, s)),
            resume,
        }),
        Shape::Syscall { tin } => Some(Enter {
            kind: SYS,
            targets: one_target(plan.btv | SYS_VECTOR),
            state: state_after_change(s, &sys_entry_change(b, plan, key, s, tin)),
            resume,
        }),
        _ => None,
    }
}

/// Returns the entry of the trap handler for misaligned accesses, with the state there; `None` if
/// no access of the instruction may be misaligned.
pub(crate) fn misaligned_flow_entry(
    b: &Bounds,
    plan: &Plan,
    key: &Key,
    s: &State,
    inst: &Inst,
) -> Option<Enter>
    requires { AreInLattice b.now s.now.regs }
    ensures entry { duties_of_misaligned_entry key.now result
        ≡ misaligned_duties_of b.now plan.now key.now s.now (shape_of inst.now) }
    ensures values { IsEntryInLattice b.now result }
{
    if !may_be_misaligned(b, plan, s, shape(inst)) {
        return None;
    }
    Some(Enter {
        kind: ALN,
        targets: one_target(plan.btv | ALN_VECTOR),
        state: state_after_change(s, &aln_entry_change(b, plan, key, s)),
        resume: None,
    })
}

/// Returns how an instruction leaves its frame: by RET, by RFE, or not at all. `key` and `s` are
/// only for the contract.
#[tactic(auto, unfolding(crate::specs::FlowDuties::flow_leave_of))]
pub(crate) fn flow_leave(key: &Key, s: &State, inst: &Inst) -> Leave
    ensures told { duties_of_leaving key.now s.now result
        ≡ exit_duties_of key.now s.now (shape_of inst.now) }
    ensures leave { result ≡ flow_leave_of (shape_of inst.now) }
{
    match shape(inst) {
        Shape::Ret => Leave::Ret,
        Shape::Rfe => Leave::Rfe,
        _ => Leave::Stays,
    }
}
