// States of 27 registers: copies, order and join.
ghost use Rattle.std.specs.Prelude.{◌≡◌, ◌≤◌, ◌<◌, ◌↔◌, IsTrue, length, ◌&&◌};
ghost use Rattle.value_domain.specs.State.{Covers, AreWellFormed, AreInLattice, state_join_if_any, joined_regs, joined_locals, AreBelow, FlagsImply};

use crate::values::{are_values_equal, copied_elements, copy_to};
use crate::{Bounds, Val, join, leq};
use arrayvec::ArrayVec;

/// The place of A10, the stack pointer, among the registers of a state.
pub const A10_SLOT: usize = 22;

/// What is known before an instruction.
#[derive(Drop)]
pub struct State {
    /// The values of D0 to D15, A2 to A7, A10 and A12 to A15, in this order.
    pub regs: [Val; 27],
    /// Interrupts may be enabled.
    pub ie: bool,
    /// CCPN is at least this.
    pub ccpn: u8,
    /// The lower registers are those of the entry.
    pub lower: bool,
    /// A flag for each lower context that the frame saved itself and hasn't restored: it holds the
    /// lower registers of the entry.
    pub locals: ArrayVec<bool, 8>,
}

impl State {
    /// Returns a copy of the state.
    pub fn copy(&self) -> State
        ensures { result ≡ self.now }
    {
        State {
            regs: copy_regs(&self.regs),
            ie: self.ie,
            ccpn: self.ccpn,
            lower: self.lower,
            locals: copied_elements(self.locals.as_slice()),
        }
    }
}

/// Returns a copy of the abstract values of a state's 27 registers.
fn copy_regs(regs: &[Val; 27]) -> [Val; 27]
    ensures { result ≡ regs.now }
{
    let mut copy = std::array::from_fn(|_| Val::any());
    for (i, v) in regs.iter().enumerate() {
        copy_to(v, &mut copy[i]);
    }
    copy
}

/// Returns true if the abstract state `upper` covers `s`: each machine state that `s` allows,
/// `upper` allows too.
pub fn covers(upper: &State, s: &State) -> bool
    requires upper { AreWellFormed upper.now.regs }
    requires state { AreWellFormed s.now.regs }
    ensures { IsTrue result ↔ Covers upper.now s.now }
{
    if !covers_context(upper, s.ie, s.ccpn, s.lower) {
        return false;
    }
    if !flags_imply(upper.locals.as_slice(), s.locals.as_slice()) {
        return false;
    }
    are_regs_below(&s.regs, &upper.regs)
}

/// Returns true if `upper` permits interrupts if `ie` does, has a least CCPN up to `ccpn`, and
/// promises the entry's lower registers only if `lower` does.
pub fn covers_context(upper: &State, ie: bool, ccpn: u8, lower: bool) -> bool
    ensures { IsTrue result
        ↔ ((IsTrue ie → IsTrue upper.now.ie) × (upper.now.ccpn ≤ ccpn)
        × (IsTrue upper.now.lower → IsTrue lower)) }
{
    flag_implies(ie, upper.ie) && upper.ccpn <= ccpn && flag_implies(upper.lower, lower)
}

/// Returns true if two lists of flags of saved lower contexts are equally long, and each of `flags`
/// implies the one with its index in `others`.
pub fn flags_imply(flags: &[bool], others: &[bool]) -> bool
    ensures { IsTrue result ↔ FlagsImply flags.now others.now }
{
    if flags.len() != others.len() {
        return false;
    }
    for (i, flag) in flags.iter().enumerate() {
        if !flag_implies(*flag, others[i]) {
            return false;
        }
    }
    true
}

/// Returns the join of two abstract states: the least that covers both, or `None` if they have
/// different numbers of saved lower contexts.
pub fn join_states(b: &Bounds, s: &State, t: &State) -> Option<State>
    requires left { AreInLattice b.now s.now.regs }
    requires right { AreInLattice b.now t.now.regs }
    ensures { result ≡ state_join_if_any b.now s.now t.now }
{
    if s.locals.len() != t.locals.len() {
        return None;
    }
    Some(State {
        regs: join_regs(b, &s.regs, &t.regs),
        ie: s.ie || t.ie,
        ccpn: s.ccpn.min(t.ccpn),
        lower: s.lower && t.lower,
        locals: join_locals(s.locals.as_slice(), t.locals.as_slice()),
    })
}

/// Returns a copy of the flags of an abstract state's saved lower contexts. Most states have none,
/// and then nothing is copied.
#[inline(always)]
pub fn copy_locals(locals: &ArrayVec<bool, 8>) -> ArrayVec<bool, 8>
    ensures { result ≡ locals.now }
{
    let mut copy = ArrayVec::new();
    if !locals.is_empty() {
        copy.try_extend_from_slice(locals.as_slice()).unwrap();
    }
    copy
}

/// Returns the join of the flags of two states' saved lower contexts: those that are set in both
/// lists.
pub fn join_locals(s: &[bool], t: &[bool]) -> ArrayVec<bool, 8>
    requires same { length s.now ≡ length t.now }
    requires few { length s.now ≤ 8 }
    ensures { result.items ≡ joined_locals s.now t.now }
{
    let mut out = ArrayVec::new();
    for (i, flag) in s.iter().enumerate() {
        let both = are_both_flags_set(*flag, t[i]);
        out.push(both);
    }
    out
}

/// Returns true if each register's abstract value in `low` is below that in `high`.
fn are_regs_below(low: &[Val; 27], high: &[Val; 27]) -> bool
    requires low { AreWellFormed low.now }
    requires high { AreWellFormed high.now }
    ensures { IsTrue result ↔ AreBelow low.now high.now }
{
    for i in 0..27 {
        if !leq(&low[i], &high[i]) {
            return false;
        }
    }
    true
}

/// Returns true if `a` implies `b`, two flags of abstract states such as IE.
fn flag_implies(a: bool, b: bool) -> bool
    ensures { IsTrue result ↔ (IsTrue a → IsTrue b) }
{
    if a { b } else { true }
}

/// Returns the joins of the registers' abstract values in two states, register by register.
fn join_regs(b: &Bounds, s: &[Val; 27], t: &[Val; 27]) -> [Val; 27]
    requires left { AreInLattice b.now s.now }
    requires right { AreInLattice b.now t.now }
    ensures { result ≡ joined_regs b.now s.now t.now }
{
    let mut out = copy_regs(s);
    for i in 0..27 {
        if !are_values_equal(&s[i], &t[i]) {
            out[i] = join(b, &s[i], &t[i]);
        }
    }
    out
}

/// Returns true if both flags are set: the flag that a saved lower context has in the join of two
/// states.
fn are_both_flags_set(a: bool, b: bool) -> bool
    ensures { result ≡ (a && b) }
{
    a && b
}
