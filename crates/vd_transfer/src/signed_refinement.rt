// Refinement by signed comparisons.
ghost use Rattle.std.specs.Prelude.{◌≡◌, ◌≢◌, ◌<◌, ◌≤◌, ◌+◌, ◌^◌, length, ℕ, IfSome, ◌↔◌, ◌⊎◌, ◌-◌};
ghost use Rattle.value_domain.specs.Values.{IsInLattice, IsWellFormed, members, multiples_in_range};
ghost use Rattle.value_domain.specs.declared.values.Val.TheVariants.{Set, Span};
ghost use Rattle.value_domain.specs.Meets.{cover_if_any, value_if_found};
ghost use Rattle.tc_isa.specs.Arithmetic.{signed_rank};
ghost use Rattle.vd_transfer.specs.Intervals.{IsInInterval};
ghost use Rattle.vd_transfer.specs.Signs.{IsSignedRange, signed_related_words, is_signed_condition};
ghost use Rattle.vd_transfer.specs.declared.refinement.Relation.TheVariants.{Same};

use crate::refinement::{Interval, NONE, Relation, join_members_in_interval, related_intervals};
use tc_isa::Cond;
use value_domain::{Bounds, Val, extent_of, write_meet_with_span};

const HALF: u32 = 1 << 31;

/// Overwrites `out` with the cover of the members of `v` that are in a relation to some member of
/// `w` in the signed order. Returns false if there are none; then `out` may be any value.
pub fn refine_by_signed_relation(b: &Bounds, rel: Relation, v: &Val, w: &Val, out: &mut Val) -> bool
    requires left { IsInLattice b.now v.now }
    requires right { IsInLattice b.now w.now }
    requires order { rel ≢ Same }
    ensures kept { value_if_found result out.new
        ≡ cover_if_any b.now (signed_related_words rel (members v.now) (members w.now)) }
    ensures value { IfSome (value_if_found result out.new) (IsInLattice b.now) }
{
    let (low, high) = signed_range(w);
    let (i, j) = related_intervals(rel, signed_rank(low), signed_rank(high));
    let (first, second) = words_in_signed_interval(i);
    let (third, fourth) = words_in_signed_interval(j);
    let one = write_meet_with_span(b, v, first.lo, first.last, 0, out);
    let two = join_members_in_interval(b, v, second, one, out);
    let three = join_members_in_interval(b, v, third, two, out);
    join_members_in_interval(b, v, fourth, three, out)
}

/// Returns a word's rank in the signed order: 0 for 80000000, 2^31 for 0, 2^32 - 1 for 7FFFFFFF.
pub(crate) fn signed_rank(x: u32) -> u32
    ensures { result ≡ signed_rank x }
{
    x.wrapping_add(1 << 31)
}

/// Returns true if the condition of a branch compares words in the signed order.
#[tactic(auto, unfolding(crate::specs::Signs::is_signed_condition))]
pub(crate) fn is_signed_condition(cond: Cond) -> bool
    ensures { result ≡ is_signed_condition cond }
{
    match cond {
        Cond::Lt | Cond::Ge => true,
        Cond::Eq | Cond::Ne | Cond::LtU | Cond::GeU => false,
    }
}

/// Returns the least and the greatest member of an abstract value in the signed order.
fn signed_range(v: &Val) -> (u32, u32)
    requires { IsWellFormed v.now }
    ensures { IsSignedRange (members v.now) result.0 result.1 }
{
    match v {
        Val::Set(words) => signed_range_of_words(words.as_slice()),
        Val::Span { lo, last, step } => signed_range_of_span(*lo, *last, *step),
    }
}

/// Returns the words whose ranks in the signed order are in `i`, as two intervals: the negative
/// words, and the others. Either may be empty.
fn words_in_signed_interval(i: Interval) -> (Interval, Interval)
    ensures { (x : ℕ) → x < 2 ^ 32 → (IsInInterval result.0 x ⊎ IsInInterval result.1 x)
        ↔ IsInInterval i (signed_rank x) }
{
    let first = if i.lo < HALF {
        Interval {
            lo: i.lo + HALF,
            last: i.last.min(HALF - 1) + HALF,
        }
    } else {
        NONE
    };
    let second = if HALF <= i.last {
        Interval {
            lo: i.lo.max(HALF) - HALF,
            last: i.last - HALF,
        }
    } else {
        NONE
    };
    (first, second)
}

/// Returns the least and the greatest of these words in the signed order.
fn signed_range_of_words(words: &[u32]) -> (u32, u32)
    requires { 1 ≤ length words.now }
    ensures { IsSignedRange words.now result.0 result.1 }
{
    let mut low = words[0];
    let mut high = words[0];
    for x in words {
        low = signed_min(*x, low);
        high = signed_max(*x, high);
    }
    (low, high)
}

/// Returns the least and the greatest member of a Span in the signed order.
fn signed_range_of_span(lo: u32, last: u32, step: u8) -> (u32, u32)
    requires { IsWellFormed (Span lo last step) }
    ensures { IsSignedRange (multiples_in_range lo last step) result.0 result.1 }
{
    let v = Val::Span { lo, last, step };
    let e = extent_of(&v);
    if e.least < HALF && HALF <= e.greatest {
        (HALF, HALF - (1 << step))
    } else {
        (e.least, e.greatest)
    }
}

/// Returns the lesser of two words in the signed order.
fn signed_min(x: u32, low: u32) -> u32
    ensures either { (result ≡ x) ⊎ (result ≡ low) }
    ensures below_x { signed_rank result ≤ signed_rank x }
    ensures below_low { signed_rank result ≤ signed_rank low }
{
    if signed_rank(x) < signed_rank(low) {
        x
    } else {
        low
    }
}

/// Returns the greater of two words in the signed order.
fn signed_max(x: u32, high: u32) -> u32
    ensures either { (result ≡ x) ⊎ (result ≡ high) }
    ensures above_x { signed_rank x ≤ signed_rank result }
    ensures above_high { signed_rank high ≤ signed_rank result }
{
    if signed_rank(high) < signed_rank(x) {
        x
    } else {
        high
    }
}
