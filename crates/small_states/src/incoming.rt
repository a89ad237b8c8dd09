// What flows into a place from the duty of a point.
ghost use Rattle.std.specs.Prelude.{◌≡◌, ◌<◌, ◌-◌, ◌==◌, length, ◌↔◌, IsTrue, IfOk, Some};
ghost use Rattle.small_states.specs.Incoming.{incoming_known, is_incoming_exit, incoming_known_with, incoming_values, incoming_state_with, incoming_exit_with};
ghost use Rattle.depth_cert.specs.Known.{known_ccpn, state, leaving};
ghost use Rattle.std.specs.Option.{option_map};
ghost use Rattle.value_domain.specs.State.{AreInLattice, AreWellFormed, Covers, state_join_if_any};
ghost use Rattle.small_states.specs.CompactForms.{all_values, whole_state, whole_known, whole_exit};
ghost use Rattle.depth_cert.specs.Exits.{ExitCovers, joined_exit};

use crate::incoming_values::{are_incoming_values_covered, join_incoming_values};
use crate::known::{KnownForm, SmallKnown};
use crate::small_value::SmallForm;
use crate::{Small, SmallExit, SmallState, Values};
use arrayvec::ArrayVec;
use depth_cert::CALL;
use std::alloc::{AllocError, Global};
use std::marker::Model;
use std::rc::Rc;
use value_domain::{Bounds, State, Val, copy_locals, flags_imply, join_locals};
use vd_transfer::Change;

/// What flows into a place, described by the state of the point that it comes from. No state is
/// built as long as the place covers it.
#[derive(Drop)]
pub enum Incoming<'a> {
    /// A state after a change.
    Changed(&'a State, &'a Change),
    /// A state after a frame of a kind (`CALL` or `SYS`) returned with this exit.
    After(&'a State, &'a SmallExit, u8),
    /// The exit of a frame that is left with a state.
    Leaving(&'a State),
}

/// An incoming value: a whole value, or a compact one.
#[derive(Drop)]
pub(crate) enum Given<'a> {
    Whole(&'a Val),
    Compact(&'a Small),
}

/// The incoming facts beside the values.
#[derive(Drop)]
pub(crate) struct Context<'a> {
    /// Interrupts may be enabled.
    pub ie: bool,
    /// CCPN is at least this.
    pub ccpn: u8,
    /// The lower registers are those of the entry.
    pub lower: bool,
    /// A flag for each lower context that the frame saved itself and hasn't restored.
    pub locals: &'a ArrayVec<bool, 8>,
}

/// Returns the lower bound of CCPN in the state or exit that flows into a point or an exit.
#[inline(always)]
pub fn incoming_ccpn(incoming: &Incoming) -> u8
    ensures { result ≡ known_ccpn (incoming_known incoming.now) }
{
    match incoming {
        Incoming::Changed(_, change) => change.ccpn,
        Incoming::After(s, exit, kind) => { if *kind == CALL { exit.ccpn } else { s.ccpn } }
        Incoming::Leaving(s) => s.ccpn,
    }
}

/// Returns true if what flows into a place (a point or a frame's exit) is an exit, not a state.
#[inline(always)]
pub(crate) fn is_incoming_exit(incoming: &Incoming) -> bool
    ensures { result ≡ is_incoming_exit incoming.now }
{
    match incoming {
        Incoming::Changed(_, _) => false,
        Incoming::After(_, _, _) => false,
        Incoming::Leaving(_) => true,
    }
}

/// Returns the incoming facts besides register values: IE, CCPN, whether the lower registers are
/// the entry's, and a flag for each saved lower context.
pub(crate) fn incoming_context<'a>(incoming: &Incoming<'a>) -> Context<'a>
    ensures { incoming_known incoming.now ≡ incoming_known_with incoming.now result }
{
    let ccpn = incoming_ccpn(incoming);
    match incoming {
        Incoming::Changed(_, c) => Context {
            ie: c.ie,
            ccpn,
            lower: c.lower,
            locals: &c.locals,
        },
        Incoming::After(s, exit, kind) => Context {
            // A call returns with its exit's IE, a system call with its caller's.
            ie: if *kind == CALL { exit.ie } else { s.ie },
            ccpn,
            lower: false,
            locals: &s.locals,
        },
        Incoming::Leaving(s) => Context {
            ie: s.ie,
            ccpn,
            lower: false,
            locals: &s.locals,
        },
    }
}

/// Returns the compact form of the incoming state or exit, whose register values are `values`.
pub(crate) fn incoming_form(values: Rc<Values>, incoming: &Incoming) -> KnownForm
    requires { all_values values.value ≡ incoming_values incoming.now }
    ensures { whole_known result ≡ incoming_known incoming.now }
{
    let k = incoming_context(incoming);
    if is_incoming_exit(incoming) {
        return KnownForm::Leaves(SmallExit {
            ie: k.ie,
            ccpn: k.ccpn,
            lower: values,
        });
    }
    KnownForm::Point(SmallState {
        regs: values,
        ie: k.ie,
        ccpn: k.ccpn,
        lower: k.lower,
        locals: copy_locals(k.locals),
    })
}

/// Returns true if the compact state `upper` covers the incoming state. `k` has that state's IE,
/// CCPN, `lower` and flags of saved lower contexts.
pub(crate) fn is_incoming_state_covered(
    upper: &SmallState,
    incoming: &Incoming,
    k: &Context,
) -> bool
    requires upper { AreWellFormed (all_values upper.now.regs.value) }
    requires incoming { AreWellFormed (incoming_values incoming.now) }
    requires long { length (all_values upper.now.regs.value)
        ≡ length (incoming_values incoming.now) }
    ensures { IsTrue result
        ↔ Covers (whole_state upper.now)
        (incoming_state_with (incoming_values incoming.now) k.now) }
{
    if !upper.covers_context(k.ie, k.ccpn, k.lower) {
        return false;
    }
    if !flags_imply(upper.locals.as_slice(), k.locals.as_slice()) {
        return false;
    }
    are_incoming_values_covered(upper.regs.as_ref(), incoming)
}

/// Returns the least compact state, within the limits `b`, that covers `left` and the incoming
/// state, whose IE, CCPN and flags `k` has. `None` if their numbers of saved lower contexts differ.
pub(crate) fn join_incoming_state(
    alloc: Global,
    b: &Bounds,
    left: &SmallState,
    incoming: &Incoming,
    k: &Context,
) -> Result<Option<SmallKnown>, AllocError>
    requires left { AreInLattice b.now (all_values left.now.regs.value) }
    requires incoming { AreInLattice b.now (incoming_values incoming.now) }
    requires long { length (all_values left.now.regs.value)
        ≡ length (incoming_values incoming.now) }
    ensures { IfOk result
        (λ r. r ≡ option_map state
        (state_join_if_any b.now (whole_state left.now)
        (incoming_state_with (incoming_values incoming.now) k.now))) }
{
    if left.locals.len() != k.locals.len() {
        return Ok(None);
    }
    let regs = Rc::new(
        alloc,
        join_incoming_values(alloc, b, left.regs.as_ref(), incoming)?,
    )?;
    let form = KnownForm::Point(SmallState {
        regs,
        ie: left.ie || k.ie,
        ccpn: left.ccpn.min(k.ccpn),
        lower: left.lower && k.lower,
        locals: join_locals(left.locals.as_slice(), k.locals.as_slice()),
    });
    Ok(Some(SmallKnown { form }))
}

/// Returns true if the compact exit `upper` covers the incoming one, whose IE and CCPN `k` has.
pub(crate) fn is_incoming_exit_covered(upper: &SmallExit, incoming: &Incoming, k: &Context) -> bool
    requires upper { AreWellFormed (all_values upper.now.lower.value) }
    requires incoming { AreWellFormed (incoming_values incoming.now) }
    requires long { length (all_values upper.now.lower.value)
        ≡ length (incoming_values incoming.now) }
    ensures { IsTrue result
        ↔ ExitCovers (whole_exit upper.now)
        (incoming_exit_with (incoming_values incoming.now) k.now) }
{
    if !upper.covers_context(k.ie, k.ccpn) {
        return false;
    }
    are_incoming_values_covered(upper.lower.as_ref(), incoming)
}

/// Returns the least compact exit, within the limits `b`, that covers `exit` and the incoming exit,
/// whose IE and CCPN `k` has. The result is never `None`.
pub(crate) fn join_incoming_exit(
    alloc: Global,
    b: &Bounds,
    exit: &SmallExit,
    incoming: &Incoming,
    k: &Context,
) -> Result<Option<SmallKnown>, AllocError>
    requires exit { AreInLattice b.now (all_values exit.now.lower.value) }
    requires incoming { AreInLattice b.now (incoming_values incoming.now) }
    requires long { length (all_values exit.now.lower.value)
        ≡ length (incoming_values incoming.now) }
    ensures { IfOk result
        (λ r. r ≡ Some
        (leaving (joined_exit b.now (whole_exit exit.now)
        (incoming_exit_with (incoming_values incoming.now) k.now)))) }
{
    let lower = Rc::new(
        alloc,
        join_incoming_values(alloc, b, exit.lower.as_ref(), incoming)?,
    )?;
    let form = KnownForm::Leaves(SmallExit {
        ie: exit.ie || k.ie,
        ccpn: exit.ccpn.min(k.ccpn),
        lower,
    });
    Ok(Some(SmallKnown { form }))
}
