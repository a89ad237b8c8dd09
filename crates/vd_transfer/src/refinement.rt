// Refinement: the members of two values for which a comparison holds.
ghost use Rattle.std.specs.Prelude.{◌≡◌, ◌==◌, ◌<◌, ◌≤◌, ◌+◌, ◌-◌, ◌^◌, ◌++◌, List, ℕ, IfSome, Some, ◌↔◌, ◌⊎◌, ◌≢◌, None};
ghost use Rattle.value_domain.specs.Values.{IsInLattice, members};
ghost use Rattle.value_domain.specs.declared.values.Val.TheVariants.{Set, Span};
ghost use Rattle.value_domain.specs.Meets.{cover_if_any, value_if_found};
ghost use Rattle.vd_transfer.specs.Relations.{MayBeRelated, related_words, converse};
ghost use Rattle.vd_transfer.specs.Intervals.{IsInInterval, members_in_interval};
ghost use Rattle.vd_transfer.specs.declared.refinement.Relation.TheVariants.{Same};
ghost use Rattle.value_domain.specs.State.{AreInLattice};
ghost use Rattle.vd_transfer.specs.Signs.{is_signed_condition};
ghost use Rattle.vd_transfer.specs.Branches.{narrowed_left_value, narrowed_right_value, state_if_possible, state_narrowed_by_values};
ghost use Rattle.vd_transfer.specs.Changes.{state_after};

use crate::branch_sides::{Comparison, narrow_left_register, operand_relation};
use crate::change::Change;
use crate::operands::arg_slot;
use crate::signed_refinement::{is_signed_condition, refine_by_signed_relation};
use value_domain::{
    Bounds, State, Val, extent_of, join_into, write_meet_with_set, write_meet_with_span,
};

/// A relation between two words.
#[derive(Clone, Copy, PartialEq, Eq)]
pub enum Relation {
    Same,
    Other,
    Less,
    AtLeast,
    More,
    AtMost,
}

/// An interval of words. If `last` is below `lo`, it is empty.
#[derive(Clone, Copy)]
pub struct Interval {
    pub lo: u32,
    pub last: u32,
}

pub(crate) const NONE: Interval = Interval { lo: 1, last: 0 };

/// Returns two intervals, perhaps empty, of the words in the relation to some word in `low..=high`.
/// For `Same`, which callers treat apart, they hold others too.
#[tactic(auto, unfolding(crate::specs::Relations::MayBeRelated))]
pub(crate) fn related_intervals(rel: Relation, low: u32, high: u32) -> (Interval, Interval)
    ensures { (x : ℕ) → x < 2 ^ 32 → (IsInInterval result.0 x ⊎ IsInInterval result.1 x)
        ↔ MayBeRelated rel low high x }
{
    match rel {
        Relation::Less => (words_below(high), NONE),
        Relation::AtMost => (Interval { lo: 0, last: high }, NONE),
        Relation::AtLeast => (words_from(low), NONE),
        Relation::More => (words_above(low), NONE),
        Relation::Other => (words_below(high), words_above(low)),
        Relation::Same => (words_from(low), NONE),
    }
}

/// Overwrites `out` with the cover of the members of `v` that are in a relation to some member of
/// `w` in the unsigned order. Returns false if there are none; then `out` may be any value.
pub fn refine_by_relation(b: &Bounds, rel: Relation, v: &Val, w: &Val, out: &mut Val) -> bool
    requires left { IsInLattice b.now v.now }
    requires right { IsInLattice b.now w.now }
    ensures kept { value_if_found result out.new
        ≡ cover_if_any b.now (related_words rel (members v.now) (members w.now)) }
    ensures value { IfSome (value_if_found result out.new) (IsInLattice b.now) }
{
    match rel {
        Relation::Same => refine_to_common_members(b, v, w, out),
        _ => refine_by_intervals(b, rel, v, w, out),
    }
}

/// Joins the members of `v` in the interval `i` into `out`, which has none yet if `found` is false.
/// Returns true if `out` has members afterwards.
pub(crate) fn join_members_in_interval(
    b: &Bounds,
    v: &Val,
    i: Interval,
    found: bool,
    out: &mut Val,
) -> bool
    requires value { IsInLattice b.now v.now }
    requires before { IfSome (value_if_found found out.old) (IsInLattice b.now) }
    ensures more { (xs : List ℕ) → value_if_found found out.old ≡ cover_if_any b.now xs
        → value_if_found result out.new ≡ cover_if_any b.now (xs ++ members_in_interval i v.now) }
    ensures value { IfSome (value_if_found result out.new) (IsInLattice b.now) }
{
    if i.last < i.lo {
        return found;
    }
    if found {
        join_meet_with_interval(b, v, i, out);
        true
    } else {
        write_meet_with_span(b, v, i.lo, i.last, 0, out)
    }
}

/// Refines a branch's left operand: overwrites `out` with the cover of those members of `v` that
/// lead to the side for some member of `w`. Returns false if there are none.
pub(crate) fn refine_left_operand(
    b: &Bounds,
    test: Comparison,
    v: &Val,
    w: &Val,
    out: &mut Val,
) -> bool
    requires left { IsInLattice b.now v.now }
    requires right { IsInLattice b.now w.now }
    ensures kept { value_if_found result out.new
        ≡ narrowed_left_value b.now test.cond test.side v.now w.now }
    ensures value { IfSome (value_if_found result out.new) (IsInLattice b.now) }
{
    let rel = operand_relation(test.cond, test.side);
    if is_signed_condition(test.cond) {
        refine_by_signed_relation(b, rel, v, w, out)
    } else {
        refine_by_relation(b, rel, v, w, out)
    }
}

/// Writes into `c` how a side of a branch refines its operands: their values `v` and `w` lose their
/// impossible members. Returns false if one has none left.
pub(crate) fn refine_both_operands(
    b: &Bounds,
    test: Comparison,
    s: &State,
    v: &Val,
    w: &Val,
    c: &mut Change,
) -> bool
    requires values { AreInLattice b.now s.now.regs }
    requires left { IsInLattice b.now v.now }
    requires right { IsInLattice b.now w.now }
    ensures two { state_if_possible result (state_after s.now c.new)
        ≡ state_narrowed_by_values b.now test.cond test.side test.x test.y s.now v.now w.now }
    ensures values { AreInLattice b.now (state_after s.now c.new).regs }
    ensures free { c.new.third.at ≡ None }
{
    if !narrow_left_register(b, test, s, v, w, c) {
        return false;
    }
    if !refine_right_operand(b, test, v, w, &mut c.second.value) {
        return false;
    }
    c.second.at = arg_slot(test.y);
    true
}

/// Returns the interval of the words below `high`, which is empty if `high` is 0.
fn words_below(high: u32) -> Interval
    ensures { (x : ℕ) → IsInInterval result x ↔ (x < high) }
{
    if high == 0 {
        NONE
    } else {
        Interval {
            lo: 0,
            last: high - 1,
        }
    }
}

/// Returns the interval of the words from `low` to the greatest word, 2^32 - 1.
fn words_from(low: u32) -> Interval
    ensures { (x : ℕ) → x < 2 ^ 32 → IsInInterval result x ↔ (low ≤ x) }
{
    Interval {
        lo: low,
        last: u32::MAX,
    }
}

/// Returns the interval of the words above `low`, which is empty if `low` is the greatest word.
fn words_above(low: u32) -> Interval
    ensures { (x : ℕ) → x < 2 ^ 32 → IsInInterval result x ↔ (low < x) }
{
    if low == u32::MAX {
        NONE
    } else {
        Interval {
            lo: low + 1,
            last: u32::MAX,
        }
    }
}

/// Refines by equality: overwrites `out` with the cover of the common members of both values.
/// Returns false if there are none.
fn refine_to_common_members(b: &Bounds, v: &Val, w: &Val, out: &mut Val) -> bool
    requires left { IsInLattice b.now v.now }
    requires right { IsInLattice b.now w.now }
    ensures kept { value_if_found result out.new
        ≡ cover_if_any b.now (related_words Same (members v.now) (members w.now)) }
    ensures value { IfSome (value_if_found result out.new) (IsInLattice b.now) }
{
    match w {
        Val::Set(words) => write_meet_with_set(b, words.as_slice(), v, out),
        Val::Span { lo, last, step } => write_meet_with_span(b, v, *lo, *last, *step, out),
    }
}

/// Refines `v` as `refine_by_relation` does, for a relation other than `Same`, by the intervals of
/// words that are in the relation.
fn refine_by_intervals(b: &Bounds, rel: Relation, v: &Val, w: &Val, out: &mut Val) -> bool
    requires left { IsInLattice b.now v.now }
    requires right { IsInLattice b.now w.now }
    requires order { rel ≢ Same }
    ensures kept { value_if_found result out.new
        ≡ cover_if_any b.now (related_words rel (members v.now) (members w.now)) }
    ensures value { IfSome (value_if_found result out.new) (IsInLattice b.now) }
{
    let e = extent_of(w);
    let (first, second) = related_intervals(rel, e.least, e.greatest);
    let found = write_meet_with_span(b, v, first.lo, first.last, 0, out);
    join_members_in_interval(b, v, second, found, out)
}

/// Joins the members of `v` in the interval `i` into the value `out`. Never inlined, so that
/// callers reserve no stack for a value.
#[inline(never)]
fn join_meet_with_interval(b: &Bounds, v: &Val, i: Interval, out: &mut Val)
    requires value { IsInLattice b.now v.now }
    requires before { IsInLattice b.now out.old }
    ensures more { (xs : List ℕ) → Some out.old ≡ cover_if_any b.now xs
        → Some out.new ≡ cover_if_any b.now (xs ++ members_in_interval i v.now) }
    ensures value { IsInLattice b.now out.new }
{
    let mut others = Val::any();
    if !write_meet_with_span(b, v, i.lo, i.last, 0, &mut others) {
        return;
    }
    join_into(b, out, &others);
}

/// Refines a branch's right operand: overwrites `out` with the cover of those members of `w` that
/// lead to the side for some member of `v`. Returns false if there are none.
fn refine_right_operand(b: &Bounds, test: Comparison, v: &Val, w: &Val, out: &mut Val) -> bool
    requires left { IsInLattice b.now v.now }
    requires right { IsInLattice b.now w.now }
    ensures kept { value_if_found result out.new
        ≡ narrowed_right_value b.now test.cond test.side v.now w.now }
    ensures value { IfSome (value_if_found result out.new) (IsInLattice b.now) }
{
    let rel = converse(operand_relation(test.cond, test.side));
    if is_signed_condition(test.cond) {
        refine_by_signed_relation(b, rel, w, v, out)
    } else {
        refine_by_relation(b, rel, w, v, out)
    }
}

/// Returns the relation with its operands exchanged, by which refinement narrows the right operand
/// as it does the left one.
#[tactic(auto, unfolding(crate::specs::Relations::converse))]
fn converse(rel: Relation) -> Relation
    ensures { result ≡ converse rel }
{
    match rel {
        Relation::Same => Relation::Same,
        Relation::Other => Relation::Other,
        Relation::Less => Relation::More,
        Relation::AtLeast => Relation::AtMost,
        Relation::More => Relation::Less,
        Relation::AtMost => Relation::AtLeast,
    }
}
