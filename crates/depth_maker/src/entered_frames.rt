// The frames that an instruction enters.
ghost use Rattle.std.specs.Prelude.{◌≡◌, ◌++◌, IfOk, IsTrue, ◌∷◌, [], if◌then◌else◌};
ghost use Rattle.depth_cert.specs.WellFormed.{IsWellFormedState};
ghost use Rattle.cfg_recover.specs.Duties.{entered_keys};
ghost use Rattle.depth_maker.specs.EnteredFrames.{ShapeEntersNoFrame};
ghost use Rattle.depth_maker.specs.VisitDuties.{IsFaultlessInstruction, misaligned_duties, entry_duties, misaligned_duty};
ghost use Rattle.depth_cert.specs.Known.{state};

use crate::inputs_and_limits::Visit;
use cfg_recover::{Located, aln_key, may_be_misaligned, push_entered_keys};
use depth_cert::Key;
use std::alloc::{AllocError, Global};
use tc_isa::Shape;
use tcd_plan::Plan;

/// Returns the keys of the frames that the visited point's instruction `found` enters: by a call, a
/// system call or a misaligned access, in that order.
pub(crate) fn entered_frame_keys(
    alloc: Global,
    v: &Visit,
    found: &Located,
) -> Result<Vec<Key>, AllocError>
    requires well_formed { IsWellFormedState v.now.ground.now.bounds.now v.now.state.now }
    requires stands { IsFaultlessInstruction v.now found.now }
    ensures { IfOk result (λ keys. keys.items
        ≡ entered_keys (entry_duties v.now found.now.shape found.now.size)
        ++ entered_keys (misaligned_duties v.now found.now)) }
{
    let mut keys = Vec::new(alloc);
    let plan = v.ground.plan;
    push_entered_keys(&mut keys, plan, &v.key, v.addr, v.state, found.shape)?;
    if may_enter_misaligned_handler(v, found) {
        keys.push(aln_key(plan, &v.key))?;
    }
    Ok(keys)
}

/// Returns true only if an instruction of this shape enters no frame, except by interrupts. A load
/// or store enters none if the plan has no trap of misaligned accesses.
pub(crate) fn enters_no_frame(plan: &Plan, shape: Shape) -> bool
    ensures { IsTrue result → ShapeEntersNoFrame plan.now shape }
{
    let trapped = plan.aln;
    match shape {
        Shape::Call { .. } => false,
        Shape::Syscall { .. } => false,
        Shape::Load { .. } => !trapped,
        Shape::Store { .. } => !trapped,
        _ => true,
    }
}

/// Returns whether the instruction may enter the frame of the handler of misaligned accesses: its
/// access may be misaligned, and the plan has such traps.
pub(crate) fn may_enter_misaligned_handler(v: &Visit, found: &Located) -> bool
    requires well_formed { IsWellFormedState v.now.ground.now.bounds.now v.now.state.now }
    requires stands { IsFaultlessInstruction v.now found.now }
    ensures { misaligned_duties v.now found.now
        ≡ (if result then misaligned_duty v.now ∷ [] else []) }
{
    let plan = v.ground.plan;
    plan.aln && may_be_misaligned(v.ground.bounds, plan, v.state, found.shape)
}
