// The last contexts in which interrupts were taken: their handlers' entries are covered.
ghost use Rattle.std.specs.Prelude.{◌≡◌, IsTrue};
ghost use Rattle.value_domain.specs.declared.states.State.{State};
ghost use Rattle.value_domain.specs.Values.{IsBelow, IsInLattice, IsWellFormed};
ghost use Rattle.depth_maker.specs.InterruptHandlers.{IsEqualExceptSp, IsContextOf, IsWithinContext, joined_context, HasCoveringContextForCcpn};
ghost use Rattle.vd_transfer.specs.Registers.{a10_of};
ghost use Rattle.depth_cert.specs.WellFormed.{IsWellFormedState};
ghost use Rattle.frame_places.specs.declared.places.Spot.TheVariants.{Point};
ghost use Rattle.depth_maker.specs.TableInvariant.{TableInvariantHoldsForInputs};
ghost use Rattle.depth_maker.specs.VisitDuties.{AreDutiesCovered, OwesDuties, KeepsDutiesJoined, interrupt_duties};
ghost use Rattle.depth_maker.specs.Visits.{IsVisitedPlace, VisitInvariantHolds};
ghost use Rattle.depth_cert.specs.Known.{state};

use crate::inputs_and_limits::Visit;
use crate::table::Table;
use cfg_recover::possible_irqs;
use frame_places::is_place_queued;
use value_domain::{A10_SLOT, Bounds, State, Val, join, leq};

/// What the handlers' entries depend on at a point.
#[derive(Drop)]
pub(crate) struct InterruptContext {
    /// The frame runs on the interrupt stack (PSW.IS), so its handlers do too.
    is: bool,
    /// Covers A10 at the point. If entries are covered for two values, they are for their join.
    sp: Val,
    /// Interrupts above this priority may be taken.
    ccpn: u8,
}

/// The last two contexts of which all entries are covered.
#[derive(Drop)]
pub(crate) struct LastInterrupts {
    pub(crate) last: Option<InterruptContext>,
    pub(crate) before: Option<InterruptContext>,
}

impl InterruptContext {
    /// Returns the context in which a frame with this state takes interrupts: A10, CCPN, and `is`,
    /// whether the interrupt stack is in use.
    pub(crate) fn of_state(is: bool, s: &State) -> InterruptContext
        ensures { IsContextOf result is s.now }
    {
        InterruptContext {
            is,
            sp: s.regs[A10_SLOT].copy(),
            ccpn: s.ccpn,
        }
    }

    /// Returns true only if handlers' entry states from this cached context cover those from the
    /// state `s`, with the interrupt stack in use if `is`.
    pub(crate) fn covers(&self, is: bool, s: &State) -> bool
        requires own { IsWellFormed self.now.sp }
        requires other { IsWellFormed (a10_of s.now) }
        ensures { IsTrue result → IsWithinContext self.now is s.now }
    {
        self.is == is && self.ccpn <= s.ccpn && self.covers_sp(s)
    }

    /// Returns true only if this context covers the handlers' entries from frames with this CCPN
    /// and any A10. Both must be off the interrupt stack, with `is` false.
    #[inline(always)]
    fn covers_any_sp(&self, is: bool, ccpn: u8) -> bool
        ensures { IsTrue result → (s : State) → s.ccpn ≡ ccpn → IsWithinContext self.now is s }
    {
        !is && !self.is && self.ccpn <= ccpn
    }

    /// Returns true only if this context has the state's CCPN, and the interrupt stack in use or
    /// not, as `is` says. A10 may differ.
    pub(crate) fn is_equal_except_sp(&self, is: bool, s: &State) -> bool
        ensures { IsTrue result → IsEqualExceptSp self.now is s.now }
    {
        self.is == is && self.ccpn == s.ccpn
    }

    /// Joins A10, the stack pointer, of a state into that of this interrupt context, which then
    /// covers both.
    pub(crate) fn join_sp(&mut self, b: &Bounds, s: &State)
        requires own { IsInLattice b.now self.old.sp }
        requires other { IsInLattice b.now (a10_of s.now) }
        ensures { self.new ≡ joined_context b.now self.old (a10_of s.now) }
    {
        self.sp = join(b, &self.sp, &s.regs[A10_SLOT]);
    }

    /// Returns true if this context's stack pointer covers A10 of the state, or the context is off
    /// the interrupt stack, where handlers don't get A10.
    fn covers_sp(&self, s: &State) -> bool
        requires own { IsWellFormed self.now.sp }
        requires other { IsWellFormed (a10_of s.now) }
        ensures { IsTrue result → IsTrue self.now.is
            → IsBelow (a10_of s.now) self.now.sp }
    {
        !self.is || leq(&s.regs[A10_SLOT], &self.sp)
    }
}

/// Returns whether one of the two cached interrupt contexts covers the visited state. If so, the
/// entries of all handlers that may be entered there are covered.
pub(crate) fn has_covering_context(table: &Table, v: &Visit) -> bool
    requires { VisitInvariantHolds v.now table.now }
    ensures { IsTrue result → AreDutiesCovered v.now table.now (interrupt_duties v.now) }
{
    if let Some(last) = &table.covered.interrupts.last {
        if last.covers(v.key.is, v.state) {
            return true;
        }
    }
    match &table.covered.interrupts.before {
        Some(before) => before.covers(v.key.is, v.state),
        None => false,
    }
}

/// Returns true only if the last cached context covers the handlers' entries from each state with
/// this CCPN off the interrupt stack. Always false if `is`, on that stack.
#[inline(always)]
pub(crate) fn has_covering_context_for_ccpn(table: &Table, is: bool, ccpn: u8) -> bool
    ensures { IsTrue result → HasCoveringContextForCcpn table.now is ccpn }
{
    match &table.covered.interrupts.last {
        Some(last) => last.covers_any_sp(is, ccpn),
        None => false,
    }
}

/// Caches the visited point's interrupt context (stack in use, A10, CCPN), so that handler entries
/// it covers aren't joined again. Joins A10 into the last context if only A10 differs. Does nothing
/// if the point is queued again.
#[inline(never)]
pub(crate) fn cache_interrupt_context(table: &mut Table, v: &Visit)
    requires fine { TableInvariantHoldsForInputs v.now.ground.now table.old }
    requires near { IsVisitedPlace table.old (Point v.now.key v.now.addr) }
    requires well_formed { IsWellFormedState v.now.ground.now.bounds.now v.now.state.now }
    requires on { IsTrue v.now.state.now.ie }
    requires owes { OwesDuties v.now (interrupt_duties v.now) }
    ensures { KeepsDutiesJoined v.now table.old table.new (interrupt_duties v.now) }
{
    if is_place_queued(&table.places, table.near) {
        return;
    }
    if let Some(last) = &mut table.covered.interrupts.last {
        if last.is_equal_except_sp(v.key.is, v.state) {
            last.join_sp(v.ground.bounds, v.state);
            return;
        }
    }
    let context = InterruptContext::of_state(v.key.is, v.state);
    let before = table.covered.interrupts.last.take();
    table.covered.interrupts = LastInterrupts {
        last: Some(context),
        before,
    };
}
