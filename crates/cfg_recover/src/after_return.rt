// The state of a frame after a frame that it entered has returned.
ghost use Rattle.std.specs.Prelude.{◌≡◌, ◌==◌, ◌-◌, ◌<◌, if◌then◌else◌};
ghost use Rattle.depth_cert.specs.Keys.{call_kind};
ghost use Rattle.depth_cert.specs.Exits.{state_after_return, value_after_return, values_after_return};

use depth_cert::{CALL, Exit};
use value_domain::{State, Val, copy_locals};

/// Returns the abstract state of a caller after a return from a call (`kind` CALL) or system call
/// (SYS). Lower registers are from the callee's `exit`, after a call also IE and CCPN.
pub fn after(s: &State, exit: &Exit, kind: u8) -> State
    ensures { result ≡ state_after_return s.now exit.now kind }
{
    State {
        regs: regs_after_return(&s.regs, &exit.lower),
        ie: ie_after_return(s, exit, kind),
        ccpn: ccpn_after_return(s, exit, kind),
        lower: false,
        locals: copy_locals(&s.locals),
    }
}

/// Returns a caller's 27 register values after a return: those of the lower registers are the
/// exit's (`lower`), all others stay.
fn regs_after_return(regs: &[Val; 27], lower: &[Val; 14]) -> [Val; 27]
    ensures { result ≡ values_after_return lower.now regs.now }
{
    let mut out = std::array::from_fn(|_| Val::any());
    for (i, v) in regs.iter().enumerate() {
        out[i] = value_after_return(i, lower, v).copy();
    }
    out
}

/// Returns a caller's IE after a return: the exit's after a call, the caller's own after a system
/// call.
fn ie_after_return(s: &State, exit: &Exit, kind: u8) -> bool
    ensures { result ≡ (if kind == call_kind then exit.now.ie else s.now.ie) }
{
    if kind == CALL { exit.ie } else { s.ie }
}

/// Returns a caller's CCPN after a return: the exit's after a call, the caller's own after a system
/// call.
fn ccpn_after_return(s: &State, exit: &Exit, kind: u8) -> u8
    ensures { result ≡ (if kind == call_kind then exit.now.ccpn else s.now.ccpn) }
{
    if kind == CALL { exit.ccpn } else { s.ccpn }
}

/// Returns the value in register slot `i` of a state after a return. Slots 0 to 7 and 16 to 21 are
/// lower registers, and get their values from the exit (`lower`); other slots keep `v`.
fn value_after_return<'a>(i: usize, lower: &'a [Val; 14], v: &'a Val) -> &'a Val
    ensures { result.now ≡ value_after_return i lower.now v.now }
{
    if i < 8 {
        &lower[i]
    } else if 16 <= i && i < 22 {
        &lower[i - 8]
    } else {
        v
    }
}
