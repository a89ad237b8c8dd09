// What is known at a place.
ghost use Rattle.std.specs.Prelude.{◌≡◌, ◌↔◌, IsTrue, IfNone, IfOk, IfSome, OnOk, Some};
ghost use Rattle.small_states.specs.CompactForms.{whole_exit, whole_known, IsOutline};
ghost use Rattle.small_states.specs.Incoming.{AppendsKnownState, incoming_known, sender_state};
ghost use Rattle.depth_cert.specs.Known.{CoversKnown, joined_known, state, leaving, IsNotExit, IsKnownState};
ghost use Rattle.depth_cert.specs.WellFormed.{IsWellFormedKnown};

use crate::incoming::{
    Given, Incoming, incoming_context, incoming_form, is_incoming_exit, is_incoming_exit_covered,
    is_incoming_state_covered, join_incoming_exit, join_incoming_state,
};
use crate::incoming_values::{copy_incoming_values, incoming_values_from_sender};
use crate::small_value::{Small, SmallForm};
use crate::values::are_all_below;
use crate::{ScratchState, SmallExit, SmallState};
use std::alloc::{AllocError, Global};
use std::marker::Model;
use std::rc::Rc;
use tcd_base::NoMemory;
use value_domain::{Bounds, copy_locals, flags_imply};
use vd_transfer::{Base, RegisterWrite};

/// A state at a point, or the exit of a frame.
#[derive(Drop)]
pub(crate) enum KnownForm {
    Point(SmallState),
    Leaves(SmallExit),
}

/// What needs depend on in a state.
#[derive(Clone, Copy, Debug, PartialEq, Eq)]
pub struct Outline {
    /// Interrupts may be enabled.
    pub ie: bool,
    /// CCPN is at least this.
    pub ccpn: u8,
    /// The number of locals.
    pub held: u8,
}

/// What is known at a place. Contracts see it as a state or an exit, whatever its form.
#[derive(Drop)]
pub struct SmallKnown {
    pub(crate) form: KnownForm,
}

impl Model for SmallKnown {
    ghost use Rattle.depth_cert.specs.Known.{Known};
    ghost use Rattle.small_states.specs.CompactForms.{whole_known};

    ghost Value = { Known };

    ghost view = { λ c. whole_known c.form };
}

/// Guesses, without comparing all values, whether the state that flows into a point covers the one
/// known there. A wrong guess only costs time or memory.
#[inline(always)]
fn may_cover_known(known: &KnownForm, incoming: &Incoming) -> bool {
    let KnownForm::Point(known) = known else {
        return false;
    };
    let Incoming::Changed(_, c) = incoming else {
        return false;
    };
    matches!(c.base, Base::Same)
        && may_cover_known_value(known, &c.first)
        && may_cover_known_value(known, &c.second)
        && may_cover_known_value(known, &c.third)
}

/// Guesses whether a register's written value covers its known one: both are equal, the written one
/// has more words, or there is no write.
fn may_cover_known_value(known: &SmallState, write: &RegisterWrite) -> bool {
    let Some(at) = write.at else {
        return true;
    };
    let any = Small {
        form: SmallForm::Any,
    };
    match known.regs.as_ref().value_or_any(&any, at) {
        Given::Whole(_) => false,
        Given::Compact(low) => low.stands_for(&write.value) || low.has_fewer_words(&write.value),
    }
}

impl SmallKnown {
    /// Returns a compact copy of the incoming state or exit, for a point or exit not known yet.
    pub fn new(alloc: Global, _b: &Bounds, incoming: &Incoming) -> Result<SmallKnown, AllocError>
        requires { IsWellFormedKnown _b.now (incoming_known incoming.now) }
        ensures { IfOk result (λ c. c ≡ incoming_known incoming.now) }
    {
        let values = Rc::new(alloc, copy_incoming_values(alloc, incoming)?)?;
        let form = incoming_form(values, incoming);
        Ok(SmallKnown { form })
    }

    /// Returns a compact copy of the state or exit that flows out of the point with this known
    /// state. An unchanged list of values is shared, not copied.
    pub fn copy_incoming(
        &self,
        alloc: Global,
        incoming: &Incoming,
    ) -> Result<SmallKnown, AllocError>
        requires { self.now ≡ state (sender_state incoming.now) }
        ensures { IfOk result (λ c. c ≡ incoming_known incoming.now) }
    {
        let values = match &self.form {
            KnownForm::Point(own) => incoming_values_from_sender(alloc, &own.regs, incoming)?,
            KnownForm::Leaves(_) => Rc::new(alloc, copy_incoming_values(alloc, incoming)?)?,
        };
        let form = incoming_form(values, incoming);
        Ok(SmallKnown { form })
    }

    /// Returns a copy of this known state or exit, which shares its values.
    pub fn copy(&self) -> Result<SmallKnown, AllocError>
        ensures { IfOk result (λ c. c ≡ self.now) }
    {
        let form = match &self.form {
            KnownForm::Point(s) => KnownForm::Point(SmallState {
                regs: s.regs.clone()?,
                ie: s.ie,
                ccpn: s.ccpn,
                lower: s.lower,
                locals: copy_locals(&s.locals),
            }),
            KnownForm::Leaves(x) => KnownForm::Leaves(x.copy()?),
        };
        Ok(SmallKnown { form })
    }

    /// Returns true if this known state (or exit) covers the incoming state (or exit).
    pub fn covers(&self, _b: &Bounds, incoming: &Incoming) -> bool
        requires known { IsWellFormedKnown _b.now self.now }
        requires incoming { IsWellFormedKnown _b.now (incoming_known incoming.now) }
        ensures { IsTrue result ↔ CoversKnown self.now (incoming_known incoming.now) }
    {
        let k = incoming_context(incoming);
        match &self.form {
            KnownForm::Point(upper) => {
                if is_incoming_exit(incoming) {
                    return false;
                }
                is_incoming_state_covered(upper, incoming, &k)
            }
            KnownForm::Leaves(upper) => {
                if !is_incoming_exit(incoming) {
                    return false;
                }
                is_incoming_exit_covered(upper, incoming, &k)
            }
        }
    }

    /// Returns the least state or exit, within the limits `b`, that covers the known and the
    /// incoming one. `None` for a state and an exit, or if their numbers of saved contexts differ.
    pub fn join(
        &self,
        alloc: Global,
        b: &Bounds,
        incoming: &Incoming,
    ) -> Result<Option<SmallKnown>, AllocError>
        requires known { IsWellFormedKnown b.now self.now }
        requires incoming { IsWellFormedKnown b.now (incoming_known incoming.now) }
        ensures { IfOk result (λ r. r ≡ joined_known b.now self.now (incoming_known incoming.now)) }
    {
        let k = incoming_context(incoming);
        match &self.form {
            KnownForm::Point(left) => {
                if is_incoming_exit(incoming) {
                    return Ok(None);
                }
                join_incoming_state(alloc, b, left, incoming, &k)
            }
            KnownForm::Leaves(left) => {
                if !is_incoming_exit(incoming) {
                    return Ok(None);
                }
                join_incoming_exit(alloc, b, left, incoming, &k)
            }
        }
    }

    /// Returns the same as `join`. To save memory, the result may share values with `own`, the
    /// state of the point that the incoming one flows from.
    pub fn join_sharing(
        &self,
        alloc: Global,
        b: &Bounds,
        own: &SmallKnown,
        incoming: &Incoming,
    ) -> Result<Option<SmallKnown>, AllocError>
        requires known { IsWellFormedKnown b.now self.now }
        requires incoming { IsWellFormedKnown b.now (incoming_known incoming.now) }
        requires own { own.now ≡ state (sender_state incoming.now) }
        ensures { IfOk result (λ r. r ≡ joined_known b.now self.now (incoming_known incoming.now)) }
    {
        if may_cover_known(&self.form, incoming) {
            let above = own.copy_incoming(alloc, incoming)?;
            if above.covers_with_same_gaps(self, b) {
                return Ok(Some(above));
            }
        }
        self.join(alloc, b, incoming)
    }

    /// Returns what of a known state affects how many context save areas its frame needs: IE, CCPN,
    /// the number of saved lower contexts. `None` for an exit.
    pub fn outline(&self) -> Option<Outline>
        ensures { IfSome result (IsOutline self.now) }
    {
        match &self.form {
            KnownForm::Point(s) => Some(Outline {
                ie: s.ie,
                ccpn: s.ccpn,
                held: s.locals.len() as u8,
            }),
            KnownForm::Leaves(_) => None,
        }
    }

    /// Overwrites the scratch state `into` with this known state, its compact values made whole.
    /// For an exit, nothing is written.
    pub fn write_state(&self, _b: &Bounds, into: &mut ScratchState)
        requires { IsWellFormedKnown _b.now self.now }
        ensures { IsKnownState self.now into.new }
    {
        if let KnownForm::Point(s) = &self.form {
            into.write(s);
        }
    }

    /// Appends the certificate's bytes of the known state. For an exit, nothing is appended.
    pub fn append_state(&self, _b: &Bounds, out: &mut Vec<u8>) -> Result<(), NoMemory>
        requires { IsWellFormedKnown _b.now self.now }
        ensures { OnOk result (AppendsKnownState self.now out.old.items out.new.items) }
    {
        match &self.form {
            KnownForm::Point(s) => {
                let _ccpn = s.ccpn;
                s.append_bytes(out)
            }
            KnownForm::Leaves(_) => Ok(()),
        }
    }

    /// Returns this known exit in its compact form, or `None` if a state is known.
    pub fn exit(&self) -> Option<&SmallExit>
        ensures some { IfSome result (λ x. self.now ≡ leaving (whole_exit x.now)) }
        ensures none { IfNone result (IsNotExit self.now) }
    {
        match &self.form {
            KnownForm::Point(_) => None,
            KnownForm::Leaves(x) => Some(x),
        }
    }

    /// Returns true only if both are states, with known values at the same indices, and this state
    /// covers `low`.
    fn covers_with_same_gaps(&self, low: &SmallKnown, _b: &Bounds) -> bool
        requires own { IsWellFormedKnown _b.now self.now }
        requires low { IsWellFormedKnown _b.now low.now }
        ensures { IsTrue result → CoversKnown self.now low.now }
    {
        let KnownForm::Point(upper) = &self.form else {
            return false;
        };
        let KnownForm::Point(s) = &low.form else {
            return false;
        };
        if !upper.covers_context(s.ie, s.ccpn, s.lower) {
            return false;
        }
        if !flags_imply(upper.locals.as_slice(), s.locals.as_slice()) {
            return false;
        }
        are_all_below(s.regs.as_ref(), upper.regs.as_ref())
    }
}
