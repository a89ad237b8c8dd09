// The rules that are tested here, by what fails. `check_decoded_instruction` of cfg_recover tests
// the others.
ghost use Rattle.std.specs.Prelude.{◌≡◌, ◌↔◌, IsTrue};
ghost use Rattle.depth_check.specs.LeastBroken as finding;
ghost use Rattle.depth_check.specs.DutiesHold.{IsNeedSufficient};

use crate::points::PointCheck;
use cfg_recover::start_key;

/// K1: the start has no node, or no point that covers the start state.
pub(crate) const NO_START: u8 = 1;

/// K2: the node has no point at its entry, or a value isn't one of the plan.
pub(crate) const BAD_VALUES: u8 = 2;

/// K4: no point of the node covers a state to which the instruction leads.
pub(crate) const NO_POINT: u8 = 4;

/// K5: no node covers the entry of a called function.
pub(crate) const NO_FUNCTION: u8 = 5;

/// K6: the node's exit doesn't cover RET.
pub(crate) const NO_RETURN: u8 = 6;

/// K7: the node's exit doesn't cover RFE of a system call.
pub(crate) const NO_EXCEPTION_RETURN: u8 = 7;

/// K10: no node covers the entry of the handler of misaligned accesses.
pub(crate) const NO_MISALIGNED: u8 = 10;

/// K11: no node covers the entry of an interrupt's handler.
pub(crate) const NO_INTERRUPT: u8 = 11;

/// K12: no node covers the entry of the handler of system calls.
pub(crate) const NO_SYSTEM_CALL: u8 = 12;

/// K14: the need of the node is too small. It is the last rule that a point may break.
pub(crate) const SMALL_NEED: u8 = 14;

/// Returns the lower of two numbers of broken rules, or the only one, or `None` if none is broken.
pub(crate) fn lesser_broken_rule(a: Option<u8>, b: Option<u8>) -> Option<u8>
    ensures { result ≡ finding.lesser_broken_rule a b }
{
    match (a, b) {
        (None, found) => found,
        (found, None) => found,
        (Some(a), Some(b)) => Some(a.min(b)),
    }
}

/// Returns true if K14 holds at a checked point, apart from frames entered there. The need is at
/// least the saved lower contexts and, at the start's entry, leaves the reserve free.
pub(crate) fn is_need_sufficient(at: &PointCheck<'_, '_>) -> bool
    ensures { IsTrue result ↔ IsNeedSufficient at.now.image at.now.plan at.now.node at.now.point }
{
    let image = at.image;
    let plan = at.plan;
    let node = at.node;
    if usize::from(node.need) < at.point.state.locals.len() {
        return false;
    }
    if at.point.addr == image.entry && node.key == start_key(image, plan) {
        return u32::from(node.need) <= plan.areas - plan.reserve;
    }
    true
}
