// The work list.
ghost use Rattle.std.specs.Prelude.{◌≡◌, ◌<◌, ◌^◌, ◌==◌, IfOk, IfSome, IfNone, OnOk, OnErr, [], length};
ghost use Rattle.frame_places.specs.Work.{BeginsRound, HasEmptyQueue, HasSameWork, PushesToRound, PushesToQueue, PushesToWaiting, PopsPlace, PopsFront, PopsBack, PopsFromRound, RefillsFront, all_work, PushesToWaitingOrQueue, PushesToRoundOrQueue};

use std::alloc::{AllocError, Global};
use std::cmp::Reverse;
use std::collections::BinaryHeap;
use std::marker::Model;
use std::mem::swap;

/// The greatest number of places that become a round.
const MOST_IN_ROUND: usize = 64;

/// The greatest number of places that are moved when one is put before them.
const MOST_SHIFTED: usize = 64;

/// Numbers of places. Each place with work is listed. Some are listed twice, or have no work any
/// more; these are skipped.
/// Most places are next, first in, first out: `first` holds the first of them in reverse, and is
/// taken from its end; `next` holds the others. When none is next, the last one of `round` is
/// taken. When `round` is empty, the first found of the places in `waiting` become the round, in
/// the order of their numbers, which is the order in which they were found. So the readers of an
/// exit that rises again are visited once, after the exit has risen as far as it does for now; if
/// it rises step by step, few of them are visited at each step. And a frame is visited after the
/// frames found before it, which may enter it too.
/// Entry points that weren't visited yet are put into `round` above its first `base` places, which
/// are those that were left when a place of it was taken last. So the frame that was found last is
/// visited first, with all that it enters; of up to 64 frames found since then, the first one.
#[derive(Drop)]
pub struct Work {
    first: Vec<usize>,
    next: Vec<usize>,
    round: Vec<usize>,
    waiting: BinaryHeap<Reverse<usize>>,
    base: usize,
}

impl Model for Work {
    ghost use Rattle.frame_places.specs.Work.{WorkLists};
    ghost use Rattle.std.specs.BinaryHeap.{heap_items};
    ghost use Rattle.std.specs.Prelude.{map};

    ghost Value = { WorkLists };

    ghost view = { λ w. record { first = w.first.items; next = w.next.items; round = w.round.items; waiting = map (λ n. n.0) (heap_items w.waiting) } };
}

impl Work {
    /// Returns an empty work list of places.
    pub fn new(alloc: Global) -> Work
        ensures { all_work result ≡ [] }
    {
        Work {
            first: Vec::new(alloc),
            next: Vec::new(alloc),
            round: Vec::new(alloc),
            waiting: BinaryHeap::new(alloc),
            base: 0,
        }
    }

    /// Returns how many numbers of places the work list has; a place that is listed twice counts
    /// twice.
    pub fn len(&self) -> u128
        ensures listed { result ≡ length (all_work self.now) }
        ensures few { result < 2 ^ 66 }
    {
        let next = self.first.len() as u128 + self.next.len() as u128;
        next + (self.round.len() as u128 + self.waiting.len() as u128)
    }

    /// Returns whether the work list has no places.
    pub fn is_empty(&self) -> bool
        ensures { result ≡ (length (all_work self.now) == 0) }
    {
        self.first.is_empty()
            && self.next.is_empty()
            && self.round.is_empty()
            && self.waiting.is_empty()
    }

    /// Puts the place with this number at the end of the work list's queue, which is visited first
    /// in, first out.
    #[inline(always)]
    pub(crate) fn push_to_queue(&mut self, number: usize) -> Result<(), AllocError>
        ensures { OnOk result (PushesToQueue self.old self.new number) }
    {
        self.next.push(number)?;
        Ok(())
    }

    /// Puts the place with this number among the places of the work list that wait for the next
    /// round.
    #[inline(always)]
    pub(crate) fn push_to_waiting(&mut self, number: usize) -> Result<(), AllocError>
        ensures { OnOk result (PushesToWaiting self.old self.new number) }
    {
        self.waiting.push(Reverse(number))?;
        Ok(())
    }

    /// Puts the unvisited entry point with this number into the round, the places taken when the
    /// queue is empty. The point comes before places left of the round, but after up to 64 put
    /// there since the last pop.
    #[inline(always)]
    pub(crate) fn push_to_round(&mut self, number: usize) -> Result<(), AllocError>
        ensures { OnOk result (PushesToRound self.old self.new number) }
    {
        let len = self.round.len();
        let at = self.base.max(len.saturating_sub(MOST_SHIFTED)).min(len);
        self.round.insert(at, number)?;
        Ok(())
    }

    /// Takes the number of the place to visit next off the work list; returns `None` if the list is
    /// empty. If out of memory, all places stay listed.
    #[inline(always)]
    pub fn pop(&mut self) -> Result<Option<usize>, AllocError>
        ensures some { IfOk result (λ o. IfSome o (PopsPlace self.old self.new)) }
        ensures none { IfOk result (λ o. IfNone o (all_work self.old ≡ [])) }
        ensures empty { IfOk result (λ o. IfNone o (all_work self.new ≡ [])) }
        ensures err { OnErr result (HasSameWork self.old self.new) }
    {
        if let Some(number) = self.pop_from_queue() {
            return Ok(Some(number));
        }
        if let Some(number) = self.pop_from_round() {
            return Ok(Some(number));
        }
        self.begin_round()?;
        Ok(self.pop_from_round())
    }

    /// Takes the number of the first place off the work list's queue, or returns `None` if the
    /// queue is empty.
    #[inline(always)]
    fn pop_from_queue(&mut self) -> Option<usize>
        ensures some { IfSome result (PopsPlace self.old self.new) }
        ensures none { IfNone result (HasEmptyQueue self.old self.new) }
    {
        if let Some(number) = self.pop_front() {
            return Some(number);
        }
        if self.next.len() > 1 {
            self.refill_front();
            return self.pop_front();
        }
        self.pop_back()
    }

    /// Takes the number of a place off the work list's current round, or returns `None` if the
    /// round is over.
    #[inline(always)]
    fn pop_from_round(&mut self) -> Option<usize>
        ensures some { IfSome result (PopsFromRound self.old self.new) }
        ensures none { IfNone result ((self.old.round ≡ []) × (self.new ≡ self.old)) }
    {
        let number = self.round.pop();
        self.base = self.round.len();
        number
    }

    /// Begins the work list's next round with up to 64 of the waiting places, which are taken by
    /// ascending number.
    fn begin_round(&mut self) -> Result<(), AllocError>
        ensures round { OnOk result (BeginsRound self.old self.new) }
        ensures err { OnErr result (HasSameWork self.old self.new) }
    {
        while self.round.len() < MOST_IN_ROUND {
            self.round.reserve(1)?;
            let Some(number) = self.waiting.pop() else {
                break;
            };
            self.round.push(number.0)?;
        }
        self.round.reverse();
        Ok(())
    }

    /// Takes the number of the front place off the reversed part of the work list's queue, or
    /// returns `None` if that part is empty.
    #[inline(always)]
    fn pop_front(&mut self) -> Option<usize>
        ensures some { IfSome result (PopsFront self.old self.new) }
        ensures none { IfNone result ((self.old.first ≡ []) × (self.new ≡ self.old)) }
    {
        self.first.pop()
    }

    /// Moves the work list's queue, reversed, to the part from whose end places are taken, so that
    /// the oldest is taken first.
    fn refill_front(&mut self)
        ensures { RefillsFront self.old self.new }
    {
        swap(&mut self.first, &mut self.next);
        self.first.reverse();
    }

    /// Takes the number of the last place off the queue's part that isn't reversed, or returns
    /// `None` if that part is empty.
    #[inline(always)]
    fn pop_back(&mut self) -> Option<usize>
        ensures some { IfSome result (PopsBack self.old self.new) }
        ensures none { IfNone result ((self.old.next ≡ []) × (self.new ≡ self.old)) }
    {
        self.next.pop()
    }
}

/// Puts the place with this number on the work list: for the next round if `waits`, else at the end
/// of the queue.
#[inline(always)]
pub(crate) fn enqueue(work: &mut Work, number: usize, waits: bool) -> Result<(), AllocError>
    ensures { OnOk result (PushesToWaitingOrQueue waits work.old work.new number) }
{
    if waits {
        work.push_to_waiting(number)
    } else {
        work.push_to_queue(number)
    }
}

/// Puts the new place with this number on the work list: if a frame's entry point (`entry`), before
/// the places found earlier, else at the end of the queue.
#[inline(always)]
pub(crate) fn enqueue_new(work: &mut Work, number: usize, entry: bool) -> Result<(), AllocError>
    ensures { OnOk result (PushesToRoundOrQueue entry work.old work.new number) }
{
    if entry {
        work.push_to_round(number)
    } else {
        work.push_to_queue(number)
    }
}
