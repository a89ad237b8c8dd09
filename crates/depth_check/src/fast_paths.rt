// Fast paths of the check. Each one skips work whose outcome is known, and its comment says what it
// saves.
ghost use Rattle.std.specs.Prelude.{◌≡◌, IfSome, Some, IsTrue, Bool, [], ◌∷◌, ◌<◌};
ghost use Rattle.std.specs.Option.{option_and};
ghost use Rattle.depth_check.specs.LeastBroken.{FindsLeastBrokenByDuties};
ghost use Rattle.value_domain.specs.State.{AreInLattice, Covers};
ghost use Rattle.vd_transfer.specs.EffectsOnStates.{transfer_of};
ghost use Rattle.tcd_plan.specs.PlanData.{PlanData};
ghost use Rattle.elf_image.specs.Images.{image_byte};
ghost use Rattle.tc_isa.specs.declared.shapes.Shape.TheVariants.{Nothing};
ghost use Rattle.cfg_recover.specs.Code.{IsCode};
ghost use Rattle.depth_check.specs.PassingInstructions.{HasNopOrJump};
ghost use Rattle.value_domain.specs.declared.values.Val.{Val};
ghost use Rattle.value_domain.specs.declared.states.State.{State};
ghost use Rattle.value_domain.specs.Limits.{Limits};
ghost use Rattle.vd_transfer.specs.Branches.{refine_of};
ghost use Rattle.cfg_recover.specs.Duties.{jump_duty};

use crate::node_covers::is_own_state_covered;
use crate::points::PointCheck;
use crate::rules::NO_POINT;
use cfg_recover::{KnownCodes, broken_rule_unless, direct_target};
use elf_image::Image;
use tc_isa::Shape;
use tcd_base::is_in_one_range;
use tcd_plan::Plan;

/// Returns the next address of the checked point's nop or direct jump, if the node's next point has
/// the same state, else `None`. A nop16 isn't decoded, which spares 75 to 330 instructions.
pub(crate) fn next_after_nop_or_jump(at: &PointCheck<'_, '_>, codes: &mut KnownCodes) -> Option<u32>
    ensures { IfSome result (HasNopOrJump at.now.image at.now.plan at.now.point.addr) }
{
    if at.point.next.is_none() {
        return None;
    }
    let image = at.image;
    let addr = at.point.addr;
    let first = codes.byte(image, addr);
    if first == Some(0) {
        return if is_nop16(image, at.plan, addr, codes) {
            Some(addr.wrapping_add(2))
        } else {
            None
        };
    }
    // nop, dsync and isync begin with 0D, jumps to one address with 1D, 3C or 9D.
    if first != Some(0x0D) && first != Some(0x1D) && first != Some(0x3C) && first != Some(0x9D) {
        return None;
    }
    let Some(found) = codes.decode_cached(image, at.plan, addr) else {
        return None;
    };
    match found.shape {
        Shape::Nothing => Some(addr.wrapping_add(found.size)),
        Shape::Jump { to } => direct_target(addr, to),
        _ => None,
    }
}

/// Returns true only if an instruction of this shape leaves every state unchanged, so that no
/// change has to be computed.
pub(crate) fn may_skip_change(shape: Shape) -> bool
    ensures { IsTrue result → (b : Limits) (plan : PlanData) (s : State) (loaded : Val)
        → transfer_of b plan shape s loaded ≡ s }
{
    match shape {
        Shape::Nothing => true,
        Shape::Store { after, .. } => !after,
        _ => false,
    }
}

/// Returns true only if each side of this branch allows no more than the state before, so that
/// covering that state suffices for both sides.
pub(crate) fn may_skip_refinement(shape: Shape) -> bool
    ensures { IsTrue result → (b : Limits) (plan : PlanData) (s : State) (side : Bool)
        → AreInLattice b s.regs → IfSome (refine_of b plan shape s side) (Covers s) }
{
    match shape {
        Shape::Branch { lowers, .. } => !lowers,
        _ => false,
    }
}

/// Returns true only if the instruction at this address, whose byte is 00, is nop16: 00 00 at an
/// even address, in one ROM range. Decoding takes 30 instructions more.
fn is_nop16(image: &Image, plan: &Plan, addr: u32, codes: &mut KnownCodes) -> bool
    requires { image_byte image.now addr ≡ Some 0 }
    ensures { IsTrue result → IsCode image.now plan.now addr Nothing 2 }
{
    if addr % 2 == 1 {
        return false;
    }
    if !is_in_one_range(plan.rom.as_slice(), addr, 2) {
        return false;
    }
    codes.has_byte(image, addr + 1, 0)
}

/// A register by which calls hold in the current state, and one by which jumps hold, if they are
/// known. While the points have that state, neither is checked again by the same register. The
/// check of *calls128* in bench/, 4,000 calls of 128 functions, takes 0.01 s; that of a plain
/// program that checks each call takes 0.10 s.
#[derive(Clone, Copy)]
pub(crate) struct CheckedRegisters {
    pub(crate) called: Option<u8>,
    pub(crate) jumped: Option<u8>,
}

impl CheckedRegisters {
    /// Returns these registers, whose targets are checked in the current state, if the next point
    /// has the same state, so that `next` is its address. Otherwise returns none.
    #[inline(always)]
    pub(crate) fn kept_if_same_state(self, next: Option<u32>) -> CheckedRegisters
        ensures { result ≡ record {
          called = option_and next self.called;
          jumped = option_and next self.jumped;
        } }
    {
        CheckedRegisters {
            called: next.and(self.called),
            jumped: next.and(self.jumped),
        }
    }
}

/// No register is known.
pub(crate) const NO_REGISTERS: CheckedRegisters = CheckedRegisters {
    called: None,
    jumped: None,
};

/// Returns K4, the rule on successors, if the node has no point at `next` that covers the checked
/// point's state, which its instruction keeps.
pub(crate) fn rule_broken_by_kept_state(at: &PointCheck<'_, '_>, next: u32) -> Option<u8>
    ensures { FindsLeastBrokenByDuties at.now (jump_duty next at.now.point.state ∷ []) result }
{
    broken_rule_unless(is_own_state_covered(at, next), NO_POINT)
}
