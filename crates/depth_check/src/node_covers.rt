// Whether the points and the exit of a node cover states.
ghost use Rattle.std.specs.Prelude.{IfSome, ◌↔◌, IsTrue};
ghost use Rattle.cfg_recover.specs.RulesHoldOrFail.{HasCoveringPoint};
ghost use Rattle.depth_check.specs.DutiesHold.{HasCoveringPoints, HasCoveringExit};
ghost use Rattle.value_domain.specs.State.{AreWellFormed};
ghost use Rattle.vd_transfer.specs.Changes.{state_after};
ghost use Rattle.depth_cert.specs.Exits.{state_after_return};

use crate::points::PointCheck;
use packed_cert::Node;
use std::marker::Model;
use value_domain::State;
use vd_transfer::Change;

/// Returns whether the certificate's node has a point at this address that covers the state.
pub(crate) fn has_covering_point(node: &Node<'_>, addr: u32, s: &State) -> bool
    requires { AreWellFormed s.now.regs }
    ensures { IsTrue result ↔ HasCoveringPoint node.now addr s.now }
{
    match node.point(addr) {
        Some(upper) => upper.covers(s),
        None => false,
    }
}

/// Returns true if the certificate's node has points at all these addresses that cover the checked
/// point's own state.
pub(crate) fn has_covering_points(at: &PointCheck<'_, '_>, targets: &[u32]) -> bool
    ensures { IsTrue result ↔ HasCoveringPoints at.now.node at.now.point.state targets.now }
{
    for t in targets {
        if !is_own_state_covered(at, *t) {
            return false;
        }
    }
    true
}

/// Returns true if the node has a point at this address that covers the checked point's own state.
/// If that is the next point and has the same state, nothing is compared.
pub(crate) fn is_own_state_covered(at: &PointCheck<'_, '_>, addr: u32) -> bool
    ensures { IsTrue result ↔ HasCoveringPoint at.now.node addr at.now.point.state }
{
    if at.point.next == Some(addr) {
        return true;
    }
    at.point.walk.is_covered_at(addr)
}

/// Returns true if the node has a point at this address that covers the state of a checked branch,
/// not refined by its condition. `c` is overwritten.
pub(crate) fn is_unrefined_state_covered(at: &PointCheck<'_, '_>, addr: u32, c: &mut Change) -> bool
    ensures { IsTrue result ↔ HasCoveringPoint at.now.node addr at.now.point.state }
{
    if at.point.next == Some(addr) {
        return true;
    }
    c.set_to_identity(at.point.state);
    at.point.walk.is_covered_by_next(addr, c) || is_own_state_covered(at, addr)
}

/// Returns true if the certificate's node has a point at this address that covers the state `s`
/// after the change `c`.
pub(crate) fn has_point_covering_change(node: &Node<'_>, addr: u32, s: &State, c: &Change) -> bool
    requires { AreWellFormed (state_after s.now c.now).regs }
    ensures { IsTrue result ↔ HasCoveringPoint node.now addr (state_after s.now c.now) }
{
    match node.point(addr) {
        Some(upper) => upper.covers_changed(s, c),
        None => false,
    }
}

/// Returns true if the node has a point at this address that covers the checked point's state after
/// the change `c`. The walk's next point is tried first.
pub(crate) fn is_changed_state_covered(at: &PointCheck<'_, '_>, addr: u32, c: &Change) -> bool
    requires { AreWellFormed (state_after at.now.point.state c.now).regs }
    ensures { IsTrue result
        ↔ HasCoveringPoint at.now.node addr (state_after at.now.point.state c.now) }
{
    at.point.walk.is_covered_by_next(addr, c)
        || has_point_covering_change(at.node, addr, at.point.state, c)
}

/// Returns true if the node's point at `at` covers `s` after a return of the entered frame, a call
/// or a system call by `kind`. Also true if `entered` has no exit.
pub(crate) fn is_return_covered(
    node: &Node<'_>,
    at: u32,
    s: &State,
    entered: &Node<'_>,
    kind: u8,
) -> bool
    requires { AreWellFormed s.now.regs }
    ensures { IsTrue result
        ↔ IfSome entered.now.exit
        (λ x. HasCoveringPoint node.now at (state_after_return s.now x kind)) }
{
    let Some(exit) = entered.exit() else {
        return true;
    };
    match node.point(at) {
        Some(upper) => upper.covers_after_return(s, &exit, kind),
        None => false,
    }
}

/// Returns whether the certificate's node has an exit that covers the lower registers, IE and CCPN
/// of the state.
pub(crate) fn has_covering_exit(node: &Node<'_>, s: &State) -> bool
    requires { AreWellFormed s.now.regs }
    ensures { IsTrue result ↔ HasCoveringExit node.now s.now }
{
    match node.exit() {
        Some(exit) => exit.covers(s),
        None => false,
    }
}
