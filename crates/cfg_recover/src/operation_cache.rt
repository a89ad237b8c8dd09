// The last results of operations on two sets of many words.
ghost use Rattle.std.specs.Prelude.{◌≡◌, ◌↔◌, IsTrue, IfSome};
ghost use Rattle.value_domain.specs.declared.values.Val.{Val};
ghost use Rattle.value_domain.specs.declared.values.Val.TheVariants.{Set};
ghost use Rattle.value_domain.specs.Limits.{Limits};
ghost use Rattle.value_domain.specs.State.{AreInLattice};
ghost use Rattle.tc_isa.specs.InBounds.{IsShapeInBounds};
ghost use Rattle.vd_transfer.specs.Changes.{state_after};
ghost use Rattle.vd_transfer.specs.EffectsOnStates.{transfer_of};
ghost use Rattle.cfg_recover.specs.SetOperations.{IsSetOperand, IsSetOperation, IsSameOperation, IsCorrectEntry, IsCorrectCache};

use tc_isa::{Arg, Op, Shape};
use tcd_plan::Plan;
use value_domain::{Bounds, State, Val, copy_to, set_words};
use vd_transfer::{Change, write_instruction_change};

/// Operands with fewer words aren't cached: comparing and copying them would cost as much as the
/// operation.
const MANY_WORDS: usize = 8;

/// An instruction that computes an operation on two sets of many words, and the data register that
/// it writes.
#[derive(Clone, Copy)]
struct SetOperation<'a> {
    shape: Shape,
    op: Op,
    dst: u8,
    x: &'a [u32],
    y: &'a [u32],
}

/// An operation with its operands and its result. An empty entry has no operation.
#[derive(Drop)]
struct CachedOperation {
    op: Option<Op>,
    x: Val,
    y: Val,
    result: Val,
}

/// The last operation on two sets of many words, for each remainder modulo 4 of the number of the
/// data register that it writes. An operation on two sets of 64 words takes 24,000 to 56,000
/// instructions, a hit some hundred.
// Four fields: an array would be built by itself and then moved.
#[derive(Drop)]
pub struct OperationCache {
    zero: CachedOperation,
    one: CachedOperation,
    two: CachedOperation,
    three: CachedOperation,
}

/// Returns true if a value in the cache of operations is the Set of these words.
fn is_cached_set(v: &Val, words: &[u32]) -> bool
    ensures { IsTrue result ↔ (v.now ≡ Set words.now) }
{
    match v {
        Val::Set(own) => own.as_slice() == words,
        Val::Span { .. } => false,
    }
}

/// Returns the operation of an instruction if the cache keeps its result, else `None`. The cache
/// keeps operations on data registers whose operands are both Sets of eight or more words.
#[inline(always)]
fn cacheable_operation(shape: Shape, s: &State) -> Option<SetOperation<'_>>
    ensures shape { IfSome result (λ o. o.shape ≡ shape) }
    ensures operation { IfSome result (IsSetOperation s.now) }
{
    let Shape::Compute { op, dst, x, y } = shape else {
        return None;
    };
    if dst >= 16 {
        return None;
    }
    let x = cacheable_words(s, x)?;
    let y = cacheable_words(s, y)?;
    Some(SetOperation {
        shape,
        op,
        dst,
        x,
        y,
    })
}

/// Returns the words of a data register's value if that is a Set of at least eight words, on which
/// the cache keeps operations; else `None`.
fn cacheable_words(s: &State, r: Arg) -> Option<&[u32]>
    ensures { IfSome result (λ ws. IsSetOperand s.now r ws.now) }
{
    let Arg::Reg(r) = r else {
        return None;
    };
    if r >= 16 {
        return None;
    }
    let regs = &s.regs[..];
    let Val::Set(words) = &regs[r as usize] else {
        return None;
    };
    let words = words.as_slice();
    if words.len() < MANY_WORDS {
        None
    } else {
        Some(words)
    }
}

impl CachedOperation {
    /// Returns an empty entry of the cache of operations.
    #[inline(never)]
    fn empty() -> CachedOperation
        ensures { (b : Limits) → IsCorrectEntry b result }
    {
        CachedOperation {
            op: None,
            x: Val::any(),
            y: Val::any(),
            result: Val::any(),
        }
    }

    /// Writes into `c` what an operation changes in the state `s`. The result is copied if this
    /// cache entry has one for equal operands, else computed and kept.
    #[inline(never)]
    fn write_change(
        &mut self,
        b: &Bounds,
        plan: &Plan,
        s: &State,
        operation: SetOperation<'_>,
        c: &mut Change,
    )
        requires shape { IsShapeInBounds operation.shape }
        requires values { AreInLattice b.now s.now.regs }
        requires operation { IsSetOperation s.now operation }
        requires results { IsCorrectEntry b.now self.old }
        ensures change { (loaded : Val) → state_after s.now c.new
            ≡ transfer_of b.now plan.now operation.entry.shape s.now loaded }
        ensures values { AreInLattice b.now (state_after s.now c.new).regs }
        ensures results { IsCorrectEntry b.now self.new }
    {
        let _regs = &s.regs[..];
        let place = operation.dst as usize;
        if self.has_operation(operation) {
            c.set_to_identity(s);
            copy_to(&self.result, &mut c.second.value);
            c.second.at = Some(place);
            c.lower = s.lower && operation.dst >= 8;
            return;
        }
        self.op = None;
        write_instruction_change(b, plan, operation.shape, s, c);
        if c.second.at == Some(place) && c.third.at.is_none() {
            set_words(&mut self.x, operation.x);
            set_words(&mut self.y, operation.y);
            copy_to(&c.second.value, &mut self.result);
            self.op = Some(operation.op);
        }
    }

    /// Returns true only if this entry of the cache has the operation, on equal Sets.
    fn has_operation(&self, operation: SetOperation<'_>) -> bool
        ensures { IsTrue result → IsSameOperation self.now operation.entry }
    {
        match self.op {
            Some(op) => op == operation.op
                && is_cached_set(&self.x, operation.x)
                && is_cached_set(&self.y, operation.y),
            None => false,
        }
    }
}

impl OperationCache {
    /// Returns a cache of operations without results.
    #[inline(always)]
    pub fn empty() -> OperationCache
        ensures { (b : Limits) → IsCorrectCache b result }
    {
        OperationCache {
            zero: CachedOperation::empty(),
            one: CachedOperation::empty(),
            two: CachedOperation::empty(),
            three: CachedOperation::empty(),
        }
    }

    /// Writes into `c` what an instruction of this shape changes in the state `s`, if the cache
    /// keeps such operations. Else returns false, and leaves `c`.
    #[inline(always)]
    pub fn write_change(
        &mut self,
        b: &Bounds,
        plan: &Plan,
        shape: Shape,
        s: &State,
        c: &mut Change,
    ) -> bool
        requires shape { IsShapeInBounds shape }
        requires values { AreInLattice b.now s.now.regs }
        requires results { IsCorrectCache b.now self.old }
        ensures change { IsTrue result → (loaded : Val) → state_after s.now c.new
            ≡ transfer_of b.now plan.now shape s.now loaded }
        ensures values { IsTrue result → AreInLattice b.now (state_after s.now c.new).regs }
        ensures results { IsCorrectCache b.now self.new }
    {
        let Some(operation) = cacheable_operation(shape, s) else {
            return false;
        };
        match operation.dst % 4 {
            0 => self.zero.write_change(b, plan, s, operation, c),
            1 => self.one.write_change(b, plan, s, operation, c),
            2 => self.two.write_change(b, plan, s, operation, c),
            _ => self.three.write_change(b, plan, s, operation, c),
        }
        true
    }
}
