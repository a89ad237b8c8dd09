// A fast path: entries of interrupts that hold in one state hold in other states too.
ghost use Rattle.std.specs.Prelude.{◌≡◌, IfSome, IsTrue, IsSomeAnd, ◌<◌};
ghost use Rattle.depth_cert.specs.Certs.{CertData};
ghost use Rattle.value_domain.specs.State.{AreInLattice};
ghost use Rattle.value_domain.specs.Values.{IsWellFormed, IsInLattice};
ghost use Rattle.vd_transfer.specs.Registers.{a10_of};
ghost use Rattle.tcd_plan.specs.PlanData.{PlanData};
ghost use Rattle.depth_check.specs.Interrupts.{IsContextExceptSp, FitsContextExceptSp, FitsContext, InterruptsHold, HasWellFormedSps, LastInterruptsHold, InterruptsHoldWithSp};

use crate::duty_rules::rule_broken_by_irqs;
use crate::points::PointCheck;
use cfg_recover::possible_irqs;
use packed_cert::Node;
use value_domain::{A10_SLOT, Bounds, State, Val, join, leq};
use vd_transfer::{A10, Base, identity_change, register_write};

/// The last two contexts in which entries of interrupts were found to hold. They are checked again
/// only at points that need more. In bench/, 16 interrupts at each of 4,000 points cost 32
/// instructions a point; `plain.c`, which checks them at each point, takes 19,800 for them.
#[derive(Drop)]
pub(crate) struct LastInterrupts {
    last: Option<InterruptContext>,
    before: Option<InterruptContext>,
}

impl LastInterrupts {
    /// Returns a cache without interrupt contexts, as before the first point is checked.
    pub(crate) fn empty() -> LastInterrupts
        ensures { (plan : PlanData) (cert : CertData) → LastInterruptsHold plan cert result }
    {
        LastInterrupts {
            last: None,
            before: None,
        }
    }

    /// Returns true only if a cached context shows that the rules on interrupt handlers, K11 and
    /// K14, hold in the node's state `s`. False with interrupts off.
    pub(crate) fn covers(&self, node: &Node<'_>, s: &State) -> bool
        requires stacks { HasWellFormedSps self.now }
        requires stack { IsWellFormed (a10_of s.now) }
        ensures { IsTrue result → (plan : PlanData) (cert : CertData)
            → LastInterruptsHold plan cert self.now → InterruptsHold plan cert node.now s.now }
    {
        if !s.ie {
            return false;
        }
        if context_covers(&self.last, node, s) {
            return true;
        }
        context_covers(&self.before, node, s)
    }

    /// Returns the join of the last cached stack pointer with A10 of the state, or `None`. Both
    /// must be on the interrupt stack, and the state must fit the cached context except for A10.
    fn joined_sp(&self, b: &Bounds, node: &Node<'_>, s: &State) -> Option<Val>
        requires last { IfSome self.now.last (λ a. IsInLattice b.now a.sp) }
        requires values { AreInLattice b.now s.now.regs }
        ensures value { IfSome result (IsInLattice b.now) }
        ensures stack { IfSome result (λ v. IsTrue node.now.key.is) }
    {
        match &self.last {
            Some(context) => {
                if context.is && context.fits_except_sp(node, s) {
                    Some(join(b, &context.sp, &s.regs[A10_SLOT]))
                } else {
                    None
                }
            }
            None => None,
        }
    }

    /// Caches the interrupt context of a point whose handlers' entries were checked, so that later
    /// points that fit the context skip this check. The older of the two cached contexts is
    /// dropped.
    #[inline(never)]
    pub(crate) fn keep_context(&mut self, at: &PointCheck<'_, '_>)
        requires holds { InterruptsHold at.now.plan at.now.cert at.now.node at.now.point.state }
        requires interrupts { LastInterruptsHold at.now.plan at.now.cert self.old }
        ensures { LastInterruptsHold at.now.plan at.now.cert self.new }
    {
        let sp = sp_to_keep(at, &*self);
        self.before = self.last.take();
        self.last = Some(InterruptContext::of_state(at.node, at.point.state, sp));
    }
}

/// What the entries of interrupts depend on: whether the node uses the interrupt stack and, if it
/// does, an A10 with which they hold; IE; CCPN; and the areas that the node's need leaves beside
/// its locals.
#[derive(Drop)]
pub(crate) struct InterruptContext {
    is: bool,
    sp: Val,
    ie: bool,
    ccpn: u8,
    spare: u16,
}

impl InterruptContext {
    /// Returns the interrupt context of the node's state `s`: the stack in use, IE, CCPN and the
    /// areas that the need leaves. The stack pointer is `sp` instead of A10.
    fn of_state(node: &Node<'_>, s: &State, sp: Val) -> InterruptContext
        ensures same { IsContextExceptSp result node.now s.now }
        ensures sp { result.sp ≡ sp }
    {
        InterruptContext {
            is: node.key.is,
            sp,
            ie: s.ie,
            ccpn: s.ccpn,
            spare: node.need.saturating_sub(s.locals.len() as u16),
        }
    }

    /// Returns true only if the node's state `s` has this context's IE and stack in use, no smaller
    /// CCPN, and the need leaves no fewer areas. The stack pointer isn't compared.
    fn fits_except_sp(&self, node: &Node<'_>, s: &State) -> bool
        ensures { IsTrue result → FitsContextExceptSp self.now node.now s.now }
    {
        self.ie == s.ie
            && self.ccpn <= s.ccpn
            && self.is == node.key.is
            && usize::from(self.spare) + s.locals.len() <= usize::from(node.need)
    }
}

/// Returns true only if there is a cached interrupt context that this state of the node fits. Then
/// the entries of handlers needn't be checked again.
fn context_covers(context: &Option<InterruptContext>, node: &Node<'_>, s: &State) -> bool
    requires own { IfSome context.now (λ a. IsWellFormed a.sp) }
    requires stack { IsWellFormed (a10_of s.now) }
    ensures { IsTrue result → IsSomeAnd context.now (λ a. FitsContext a node.now s.now) }
{
    match context {
        Some(context) => context.fits_except_sp(node, s)
            && (!context.is || leq(&s.regs[A10_SLOT], &context.sp)),
        None => false,
    }
}

/// Returns the stack pointer to cache for the checked point: A10, joined with the last cached one
/// if the handlers' rules hold for the join.
fn sp_to_keep(at: &PointCheck<'_, '_>, kept: &LastInterrupts) -> Val
    requires holds { InterruptsHold at.now.plan at.now.cert at.now.node at.now.point.state }
    requires interrupts { LastInterruptsHold at.now.plan at.now.cert kept.now }
    ensures value { IsInLattice at.now.bounds result }
    ensures holds { InterruptsHoldWithSp at.now.plan at.now.cert at.now.node
        at.now.point.state result }
{
    let s = at.point.state;
    let own = s.regs[A10_SLOT].copy();
    let Some(sp) = kept.joined_sp(at.bounds, at.node, s) else {
        return own;
    };
    let _most_words = at.bounds.most_words();
    let mut entry = identity_change(s);
    entry.base = Base::Any;
    entry.first = register_write(A10, sp.copy());
    entry.ie = false;
    entry.lower = true;
    entry.locals.clear();
    match rule_broken_by_irqs(at, possible_irqs(at.plan, s).as_slice(), entry) {
        Some(_) => own,
        None => sp,
    }
}
