// What may follow a point.
ghost use Rattle.std.specs.Prelude.{◌≡◌, IfErr, IfOk};
ghost use Rattle.tc_isa.specs.Meanings.{shape_of};
ghost use Rattle.value_domain.specs.State.{AreInLattice};
ghost use Rattle.vd_transfer.specs.EffectsOnStates.{LocalsFitInstruction};
ghost use Rattle.cfg_recover.specs.Duties.{duties_of};
ghost use Rattle.cfg_recover.specs.Entries.{irq_entry};
ghost use Rattle.cfg_recover.specs.FlowStates.{IsFlowInLattice};
ghost use Rattle.cfg_recover.specs.FlowDuties.{duties_of_flow, flow_leave_of, FlowHasDuties};
ghost use Rattle.cfg_recover.specs.LocalFaults.{IsLocalFault};

use crate::Flow;
use crate::decoded_inst::InstAt;
use crate::entry_changes::handler_entry_change;
use crate::flow_entries::{call_flow_entry, flow_leave, misaligned_flow_entry};
use crate::flow_interrupts::possible_irqs;
use crate::flow_successors::successor_jumps;
use crate::local_rules::check_instruction_at;
use depth_cert::Key;
use elf_image::Image;
use tcd_plan::Plan;
use value_domain::{Bounds, State};
use vd_transfer::state_after_change;

/// Returns what may follow an instruction in frame `key` and state `s`: successors, entered frames,
/// interrupts, return. An error is the lowest number of a rule that the instruction breaks.
pub fn flow(
    b: &Bounds,
    image: &Image,
    plan: &Plan,
    key: &Key,
    addr: u32,
    s: &State,
) -> Result<Flow, u8>
    requires { AreInLattice b.now s.now.regs }
    ensures fault { IfErr result (IsLocalFault b.now image.now plan.now key.now addr s.now) }
    ensures duties { IfOk result (FlowHasDuties b.now image.now plan.now key.now addr s.now) }
    ensures values { IfOk result (IsFlowInLattice b.now) }
{
    match check_instruction_at(b, image, plan, key, addr, s) {
        Ok((inst, size)) => {
            let inst = &inst;
            Ok(flow_of_faultless_point(b, image, plan, key, s, InstAt { addr, inst, size }))
        }
        Err(rule) => Err(rule),
    }
}

/// Returns what may follow an instruction that breaks no certificate rule by itself: successors,
/// entered frames, interrupts, and how the frame is left.
fn flow_of_faultless_point(
    b: &Bounds,
    image: &Image,
    plan: &Plan,
    key: &Key,
    s: &State,
    at: InstAt<'_>,
) -> Flow
    requires values { AreInLattice b.now s.now.regs }
    requires room { LocalsFitInstruction b.now (shape_of at.inst.now) s.now }
    ensures values { IsFlowInLattice b.now result }
    ensures told { duties_of_flow plan.now key.now s.now result
        ≡ duties_of b.now image.now plan.now key.now at.entry.addr s.now
        (shape_of at.entry.inst.now) at.entry.size }
    ensures entry { result.irq_entry ≡ irq_entry plan.now key.now s.now 0 }
    ensures leaves { result.leave ≡ flow_leave_of (shape_of at.entry.inst.now) }
{
    Flow {
        jumps: successor_jumps(b, image, plan, s, at),
        enter: call_flow_entry(b, plan, key, s, at),
        aln: misaligned_flow_entry(b, plan, key, s, at.inst),
        irqs: possible_irqs(plan, s),
        irq_entry: state_after_change(s, &handler_entry_change(b, plan, key, s, 0)),
        leave: flow_leave(key, s, at.inst),
    }
}
