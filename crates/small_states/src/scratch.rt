// A state that visits write over.
ghost use Rattle.std.specs.Prelude.{◌≡◌, IfSome, IsTrue, length};
ghost use Rattle.small_states.specs.CompactForms.{all_values, whole_state};

use crate::states::SmallState;
use crate::values::Values;
use std::marker::Model;
use std::rc::Rc;
use value_domain::{State, Val, copy_locals};

/// A state that others are written over. It remembers the compact values that were written last, so
/// that values with the same gaps are written only where they differ.
#[derive(Drop)]
pub struct ScratchState {
    state: State,
    last: Option<Rc<Values>>,
}

impl Model for ScratchState {
    ghost use Rattle.std.specs.Prelude.{◌≡◌, IfSome};
    ghost use Rattle.value_domain.specs.declared.states.State.{State};
    ghost use Rattle.small_states.specs.CompactForms.{all_values};

    ghost Value = { State };

    ghost view = { λ s. s.state };

    ghost invariant = { λ s. IfSome s.last (λ last. s.state.regs ≡ all_values last.value) };
}

/// Overwrites `regs`, the registers of a reused state, with compact `values`. `last` remembers what
/// was written, so that equal values are skipped next time; `None` if out of memory.
#[inline(always)]
fn write_scratch_values(values: &Rc<Values>, last: &mut Option<Rc<Values>>, regs: &mut [Val; 27])
    requires long { length (all_values values.now.value) ≡ 27 }
    requires last { IfSome last.old (λ v. regs.old ≡ all_values v.value) }
    ensures regs { regs.new ≡ all_values values.now.value }
    ensures last { IfSome last.new (λ v. regs.new ≡ all_values v.value) }
{
    match &*last {
        Some(own) => {
            if overwrite_last_values(values.as_ref(), own.as_ref(), regs) {
                return;
            }
        }
        None => values.as_ref().write_to(regs),
    }
    *last = match values.clone() {
        Ok(own) => Some(own),
        Err(_) => None,
    };
}

/// Overwrites `regs`, which holds the values `last`, with `values`; equal ones are skipped if both
/// lists have unknown values at the same indices. Returns true only if all are equal.
#[inline(always)]
fn overwrite_last_values(values: &Values, last: &Values, regs: &mut [Val; 27]) -> bool
    requires long { length (all_values values.now) ≡ 27 }
    requires last { regs.old ≡ all_values last.now }
    ensures regs { regs.new ≡ all_values values.now }
    ensures kept { IsTrue result → regs.new ≡ regs.old }
{
    let known = values.known.as_slice();
    let old = last.known.as_slice();
    if old.len() != known.len() {
        values.write_to(regs);
        return false;
    }
    let mut same = true;
    let mut at = 0;
    for n in 0..known.len() {
        let here = &known[n];
        let before = &old[n];
        if before.anys != here.anys {
            values.write_to(regs);
            return false;
        }
        let place = at + here.anys as usize;
        if !here.value.is_equal(&before.value) {
            here.value.write_to(&mut regs[place]);
            same = false;
        }
        at = place + 1;
    }
    same
}

impl ScratchState {
    /// Returns a state buffer that begins with `state` and over which compact states are written.
    pub fn new(state: State) -> ScratchState
        ensures { result ≡ state }
    {
        ScratchState { state, last: None }
    }

    /// Returns the state that was written last over this scratch state, or at first that of `new`.
    #[inline(always)]
    pub fn state(&self) -> &State
        ensures { result.now ≡ self.now }
    {
        &self.state
    }

    /// Writes a compact state over this scratch state, as whole values.
    pub(crate) fn write(&mut self, s: &SmallState)
        requires { length (all_values s.now.regs.value) ≡ 27 }
        ensures { self.new ≡ whole_state s.now }
    {
        write_scratch_values(&s.regs, &mut self.last, &mut self.state.regs);
        self.state.ie = s.ie;
        self.state.ccpn = s.ccpn;
        self.state.lower = s.lower;
        self.state.locals = copy_locals(&s.locals);
    }
}
