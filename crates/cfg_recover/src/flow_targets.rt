// The targets of jumps and calls.
ghost use Rattle.std.specs.Prelude.{◌≡◌, ◌<◌, ◌≤◌, ◌-◌, ◌*◌, ◌/◌, ◌↔◌, [], ◌∷◌, ℕ, IsTrue, Some, length, map, slice_get, unwrap_or, IfSome};
ghost use Rattle.tcd_plan.specs.PlanData.{PlanData};
ghost use Rattle.tc_isa.specs.InBounds.{IsTargetInBounds};
ghost use Rattle.value_domain.specs.declared.states.State.{State};
ghost use Rattle.value_domain.specs.Sets.{Among, AreSetWords, IsAscending, sorted_set_of, sorted_set_insert};
ghost use Rattle.vd_transfer.specs.Registers.{reg_of};
ghost use Rattle.cfg_recover.specs.LocalRules as rules;
ghost use Rattle.cfg_recover.specs.LocalRules.{targets_of_value, targets_of};

use arrayvec::ArrayVec;
use tc_isa::Target;
use tcd_plan::Plan;
use value_domain::{State, Val};
use vd_transfer::reg;

/// Returns the only target of a jump or a call at `addr`, whatever the registers hold, or `None` if
/// the target is in a register.
#[inline(always)]
pub fn direct_target(addr: u32, to: Target) -> Option<u32>
    ensures target { result ≡ rules.direct_target addr to }
    ensures one { IfSome result
        (λ t. (plan : PlanData) (s : State) → targets_of plan s addr to ≡ Some (t ∷ [])) }
{
    match to {
        Target::Rel(by) => Some(addr.wrapping_add(by)),
        Target::Abs(x) => Some(x),
        Target::Reg(_) => None,
    }
}

/// Returns the addresses to which a jump or call at `addr` may go; none if the register has a Span.
pub fn targets(plan: &Plan, s: &State, addr: u32, to: Target) -> ArrayVec<u32, 128>
    requires { IsTargetInBounds to }
    ensures { result.items ≡ unwrap_or (targets_of plan.now s.now addr to) [] }
{
    match to {
        Target::Rel(by) => one_target(addr.wrapping_add(by)),
        Target::Abs(x) => one_target(x),
        Target::Reg(r) => targets_in_register(plan, s, r),
    }
}

/// Returns a list of one target, as a jump or call to a fixed address has.
pub(crate) fn one_target(x: u32) -> ArrayVec<u32, 128>
    ensures { result.items ≡ x ∷ [] }
{
    let mut targets = ArrayVec::new();
    targets.push(x);
    targets
}

/// Returns the targets of a jump or call by the register `r`, or an empty list if they are unknown.
/// A function of its own, so that direct jumps need no stack for a value.
#[inline(never)]
fn targets_in_register(plan: &Plan, s: &State, r: u8) -> ArrayVec<u32, 128>
    requires { r < 32 }
    ensures { result.items ≡ unwrap_or (targets_of_value (reg_of plan.now s.now r)) [] }
{
    targets_of_value(&reg(plan, s, r))
}

/// Returns the targets of a jump or call by a register with this value: a Set's words with bit 0
/// cleared, none for a Span.
fn targets_of_value(v: &Val) -> ArrayVec<u32, 128>
    ensures { result.items ≡ unwrap_or (targets_of_value v.now) [] }
{
    match v {
        Val::Set(words) => even_targets(words.as_slice()),
        Val::Span { .. } => ArrayVec::new(),
    }
}

/// Returns the targets that these ascending words name, each once: the words with bit 0 cleared.
fn even_targets(words: &[u32]) -> ArrayVec<u32, 128>
    requires { AreSetWords words.now }
    ensures { result.items ≡ sorted_set_of (map (λ w. w / 2 * 2) words.now) }
{
    let mut evened = ArrayVec::new();
    for word in words {
        add_target_once(&mut evened, *word / 2 * 2);
    }
    evened
}

/// Adds the target `x`, which isn't below any in the ascending list, at the end, unless the last
/// one is `x` already.
fn add_target_once(words: &mut ArrayVec<u32, 128>, x: u32)
    requires room { length words.old.items < 128 }
    requires rising { IsAscending words.old.items }
    requires greatest { (y : ℕ) → Among y words.old.items → y ≤ x }
    ensures { words.new.items ≡ sorted_set_insert x words.old.items }
{
    if !is_last_target(words.as_slice(), x) {
        words.push(x);
    }
}

/// Returns true if `x` is the last target of an ascending list.
fn is_last_target(words: &[u32], x: u32) -> bool
    ensures { IsTrue result ↔ (slice_get words.now (length words.now - 1) ≡ Some x) }
{
    match words.last() {
        Some(last) => *last == x,
        None => false,
    }
}
