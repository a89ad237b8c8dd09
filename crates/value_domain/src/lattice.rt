// Operations of the lattice of values: order, join, and the least value that holds a set.
ghost use Rattle.std.specs.Prelude.{◌≡◌, ◌==◌, ◌≤◌, ◌<◌, ◌+◌, ◌-◌, ◌*◌, ◌/◌, IsTrue, length, min, max, ◌∷◌, ◌++◌, List, ℕ, ◌↔◌, IsSome, IsNone, slice_index};
ghost use Rattle.value_domain.specs.Values as values;
ghost use Rattle.value_domain.specs.Sets.{AreSetWords, AreAmong, IsAscending, least, greatest, step_of_set, IsExtent};
ghost use Rattle.value_domain.specs.Sets as sets;
ghost use Rattle.value_domain.specs.Limits.{AreLimits};
ghost use Rattle.value_domain.specs.Values.{IsWellFormed, IsInLattice, IsBelow, cover, members, multiples_in_range, span_between_thresholds, span_len, words_of};
ghost use Rattle.value_domain.specs.declared.values.Val.TheVariants.{Set, Span};

use crate::merged_lists::set_union;
use crate::values::{
    alignment_log2, is_set, is_span_of_all_words, is_word_of_set, member, set_span, set_word,
    set_words, span_len,
};
use crate::{Bounds, Val, Words};
use arrayvec::ArrayVec;
use std::marker::Model;

/// The least and the greatest member of a value, and its step: the greatest one up to 2 such that
/// 2^`step` divides all members.
#[derive(Clone, Copy)]
pub struct Extent {
    pub least: u32,
    pub greatest: u32,
    pub step: u8,
}

/// Returns the extent of a Set's ascending words: the least, the greatest, and the greatest step up
/// to 2 such that 2^`step` divides all.
pub(crate) fn extent_of_set(words: &[u32]) -> Extent
    requires { AreSetWords words.now }
    ensures { IsExtent words.now result.least result.greatest result.step }
{
    Extent {
        least: words[0],
        greatest: words[words.len() - 1],
        step: extent_step(words),
    }
}

/// Returns the extent of a Span: its least and its greatest member, which may be inside
/// `lo..=last`, and its step: all members are multiples of `2 ^ step`.
pub(crate) fn extent_of_span(lo: u32, last: u32, step: u8) -> Extent
    requires { IsWellFormed (Span lo last step) }
    ensures { IsExtent (multiples_in_range lo last step) result.least result.greatest result.step }
{
    let unit = 1u64 << step;
    Extent {
        least: ((u64::from(lo) + (unit - 1)) / unit * unit) as u32,
        greatest: (u64::from(last) / unit * unit) as u32,
        step,
    }
}

/// Overwrites `out` with a Span of this step. The Span goes from the widening threshold at or below
/// `least` to just before the one above `greatest`.
pub fn write_span(b: &Bounds, least: u32, greatest: u32, step: u8, out: &mut Val)
    ensures { out.new ≡ span_between_thresholds b.now least greatest step }
{
    let lo = b.floor(least);
    let last = (b.threshold_above(greatest) - 1) as u32;
    set_span(out, lo, last, step);
}

/// Joins the word `x` into the abstract value `v`, which becomes the least one of the lattice that
/// holds `x` too.
pub fn join_word(b: &Bounds, v: &mut Val, x: u32)
    requires { IsInLattice b.now v.old }
    ensures cover { v.new ≡ cover b.now (x ∷ members v.old) }
    ensures value { IsInLattice b.now v.new }
{
    let _most_words = b.most_words();
    insert_or_widen(b, v, x);
}

/// Joins words into the abstract value `v`, which becomes the least one of the lattice that holds
/// these words too.
pub fn join_word_list(b: &Bounds, v: &mut Val, words: &[u32])
    requires { IsInLattice b.now v.old }
    ensures cover { v.new ≡ cover b.now (members v.old ++ words.now) }
    ensures value { IsInLattice b.now v.new }
{
    let _most_words = b.most_words();
    let mut i = 0;
    while i < words.len() && is_set(v) {
        join_word(b, v, words[i]);
        i += 1;
    }
    if i < words.len() {
        widen_span(b, v, &words[i..]);
    }
}

/// Returns the extent of these words joined with a set of words of extent `e`. An extent is the
/// least word, the greatest, and the greatest step up to 2 such that 2^`step` divides all.
pub fn extent_with_words(e: &Extent, words: &[u32]) -> Extent
    ensures { (xs : List ℕ) → IsExtent xs e.now.least e.now.greatest e.now.step
        → IsExtent (xs ++ words.now) result.least result.greatest result.step }
{
    let mut least = e.least;
    let mut greatest = e.greatest;
    let mut bits = 0;
    for x in words {
        least = least.min(*x);
        greatest = greatest.max(*x);
        bits |= *x;
    }
    Extent {
        least,
        greatest,
        step: alignment_log2(bits).min(e.step),
    }
}

/// Returns the least abstract value of the lattice that holds these words, of which there is at
/// least one.
pub fn cover_words(b: &Bounds, words: &[u32]) -> Val
    requires { 1 ≤ length words.now }
    ensures cover { result ≡ cover b.now words.now }
    ensures value { IsInLattice b.now result }
{
    let mut out = Val::one(words[0]);
    write_cover_words(b, words, &mut out);
    out
}

/// Overwrites `out` with the least abstract value of the lattice that holds these words, of which
/// there is at least one.
pub fn write_cover_words(b: &Bounds, words: &[u32], out: &mut Val)
    requires { 1 ≤ length words.now }
    ensures cover { out.new ≡ cover b.now words.now }
    ensures value { IsInLattice b.now out.new }
{
    let _most_words = b.most_words();
    set_word(out, words[0]);
    join_word_list(b, out, words);
}

/// Returns the join of two abstract values: the least value that holds the members of both.
pub fn join(b: &Bounds, v: &Val, w: &Val) -> Val
    requires left { IsInLattice b.now v.now }
    requires right { IsInLattice b.now w.now }
    ensures cover { result ≡ cover b.now (members v.now ++ members w.now) }
    ensures value { IsInLattice b.now result }
{
    let mut out = v.copy();
    join_into(b, &mut out, w);
    out
}

/// Joins the abstract value `w` into `v`, which becomes the least value that holds the members of
/// both.
pub fn join_into(b: &Bounds, v: &mut Val, w: &Val)
    requires left { IsInLattice b.now v.old }
    requires right { IsInLattice b.now w.now }
    ensures cover { v.new ≡ cover b.now (members v.old ++ members w.now) }
    ensures value { IsInLattice b.now v.new }
{
    let _most_words = b.most_words();
    match w {
        Val::Set(words) => join_set(b, v, words),
        Val::Span { lo, last, step } => join_span(b, v, *lo, *last, *step),
    }
}

/// Returns true if the abstract value `v` is below `w` in the lattice: each member of `v` is a
/// member of `w`.
pub fn leq(v: &Val, w: &Val) -> bool
    requires left { IsWellFormed v.now }
    requires right { IsWellFormed w.now }
    ensures { IsTrue result ↔ IsBelow v.now w.now }
{
    match w {
        Val::Span { lo, last, step } => is_below_span(v, *lo, *last, *step),
        Val::Set(words) => match v {
            Val::Set(own) => is_set_below_set(own.as_slice(), words.as_slice()),
            Val::Span { lo, last, step } => is_span_below_set(*lo, *last, *step, words.as_slice()),
        },
    }
}

/// Returns true if an abstract value of this extent is below this Span: all of its members are in
/// `lo..=last`, and its step isn't smaller.
pub fn is_extent_in_span(e: &Extent, lo: u32, last: u32, step: u8) -> bool
    ensures { IsTrue result ↔ ((lo ≤ e.now.least) × (e.now.greatest ≤ last) × (step ≤ e.now.step)) }
{
    lo <= e.least && e.greatest <= last && step <= e.step
}

/// Returns true if `v` is a value under the limits `b`: a Set of few enough words, or a larger Span
/// between widening thresholds.
pub fn is_value(b: &Bounds, v: &Val) -> bool
    ensures { IsTrue result ↔ IsInLattice b.now v.now }
{
    match v {
        Val::Set(words) => words.as_slice().len() <= b.most_words(),
        Val::Span { lo, last, step } => is_span_in_lattice(b, *lo, *last, *step),
    }
}

/// Returns the least abstract value that holds the multiples of `2 ^ step` in `first..=last`.
pub fn cover(b: &Bounds, first: u32, last: u32, step: u8) -> Val
    requires step { step ≤ 2 }
    requires some { 1 ≤ span_len first last step }
    ensures cover { result ≡ cover b.now (multiples_in_range first last step) }
    ensures value { IsInLattice b.now result }
{
    let mut out = Val::any();
    write_cover(b, first, last, step, &mut out);
    out
}

/// Overwrites a value with the least one of the lattice that holds the multiples of `2 ^ step` in
/// `first..=last`.
pub fn write_cover(b: &Bounds, first: u32, last: u32, step: u8, out: &mut Val)
    requires step { step ≤ 2 }
    requires some { 1 ≤ span_len first last step }
    ensures cover { out.new ≡ cover b.now (multiples_in_range first last step) }
    ensures value { IsInLattice b.now out.new }
{
    let most_words = b.most_words();
    if span_len(first, last, step) > most_words as u64 {
        write_cover_as_span(b, first, last, step, out)
    } else {
        write_cover_as_set(b, first, last, step, out)
    }
}

/// Returns the extent of an abstract value: its least and its greatest member, and its step.
pub fn extent_of(v: &Val) -> Extent
    requires { IsWellFormed v.now }
    ensures { IsExtent (members v.now) result.least result.greatest result.step }
{
    match v {
        Val::Set(words) => extent_of_set(words.as_slice()),
        Val::Span { lo, last, step } => extent_of_span(*lo, *last, *step),
    }
}

/// Returns the first index from `k` on in ascending words whose word is at least `x`; the number of
/// words if there is none.
pub(crate) fn lower_bound_from(words: &[u32], k: usize, x: u32) -> usize
    requires start { k ≤ length words.now }
    ensures start { k ≤ result }
    ensures end { result ≤ length words.now }
    ensures below { (j : ℕ) → k ≤ j → j < result → slice_index words.now j < x }
    ensures reached { result < length words.now → x ≤ slice_index words.now result }
{
    let mut at = k;
    while at < words.len() && words[at] < x {
        at += 1;
    }
    at
}

/// Returns the common alignment of these words: the greatest step up to 2 such that 2^`step`
/// divides all of them.
fn extent_step(words: &[u32]) -> u8
    ensures { result ≡ step_of_set words.now }
{
    alignment_log2(bitwise_or_of_words(words))
}

/// Returns the bitwise or of these words. The trailing zero bits of the result, up to two, are the
/// words' common alignment.
fn bitwise_or_of_words(words: &[u32]) -> u32
    ensures { sets.alignment_log2 result ≡ step_of_set words.now }
{
    let mut bits = 0;
    for x in words {
        bits |= *x;
    }
    bits
}

/// Joins the word `x` into the abstract value `v`: a member changes nothing, a Set with room gets
/// the word, any other value becomes a Span.
fn insert_or_widen(b: &Bounds, v: &mut Val, x: u32)
    requires { IsInLattice b.now v.old }
    ensures { v.new ≡ cover b.now (x ∷ members v.old) }
{
    let most_words = b.most_words();
    if member(x, v) {
        return;
    }
    if let Val::Set(words) = v {
        if words.as_slice().len() < most_words {
            words.insert(x);
            return;
        }
    }
    let e = extent_of(v);
    write_span_with_word(b, &e, x, v);
}

/// Overwrites `out` with the Span between thresholds that holds `x` and a value of extent `e`.
fn write_span_with_word(b: &Bounds, e: &Extent, x: u32, out: &mut Val)
    ensures { out.new ≡ span_between_thresholds b.now (min x e.now.least) (max x e.now.greatest)
        (min (sets.alignment_log2 x) e.now.step) }
{
    write_span(
        b,
        x.min(e.least),
        x.max(e.greatest),
        alignment_log2(x).min(e.step),
        out,
    );
}

/// Joins words into a Span: overwrites the Span with the lattice's least value that holds these
/// words too.
fn widen_span(b: &Bounds, v: &mut Val, words: &[u32])
    requires span { IsNone (words_of v.old) }
    requires value { IsInLattice b.now v.old }
    ensures { v.new ≡ cover b.now (members v.old ++ words.now) }
{
    let e = extent_with_words(&extent_of(v), words);
    write_span(b, e.least, e.greatest, e.step, v);
}

/// Joins a Set's words into an abstract value, which becomes the lattice's least one that holds
/// them too.
fn join_set(b: &Bounds, v: &mut Val, words: &Words)
    requires left { IsInLattice b.now v.old }
    requires right { IsInLattice b.now (Set words.now) }
    ensures { v.new ≡ cover b.now (members v.old ++ words.now) }
{
    if is_set(v) {
        join_set_with_set(b, v, words)
    } else {
        widen_span(b, v, words.as_slice())
    }
}

/// Joins a Span's members into an abstract value, which becomes the lattice's least one that holds
/// them too.
fn join_span(b: &Bounds, v: &mut Val, lo: u32, last: u32, step: u8)
    requires left { IsInLattice b.now v.old }
    requires right { IsInLattice b.now (Span lo last step) }
    ensures { v.new ≡ cover b.now (members v.old ++ multiples_in_range lo last step) }
{
    let e = extent_of(v);
    let f = extent_of_span(lo, last, step);
    write_span(
        b,
        e.least.min(f.least),
        e.greatest.max(f.greatest),
        e.step.min(f.step),
        v,
    );
}

/// Joins the words of a Set into the Set `v`, which becomes the least value that holds both. Not
/// inlined, so that callers need no stack for the union.
#[inline(never)]
fn join_set_with_set(b: &Bounds, v: &mut Val, words: &Words)
    requires { IsSome (words_of v.old) }
    ensures { v.new ≡ cover b.now (members v.old ++ words.now) }
{
    match v {
        Val::Set(own) => write_value_of_words(
            b,
            set_union(own.as_slice(), words.as_slice()).as_slice(),
            v,
        ),
        Val::Span { .. } => unreachable!(),
    }
}

/// Overwrites `out` with the least value that holds these ascending words: the Set of the words if
/// a Set can have so many, else a Span.
fn write_value_of_words(b: &Bounds, words: &[u32], out: &mut Val)
    requires some { 1 ≤ length words.now }
    requires rising { IsAscending words.now }
    ensures { out.new ≡ values.value_of_words b.now words.now }
{
    if words.len() <= b.most_words() {
        set_words(out, words);
        return;
    }
    write_span(b, words[0], words[words.len() - 1], extent_step(words), out);
}

/// Returns true if the abstract value `v` is below a Span: each of its members is a multiple of `2
/// ^ step` in `lo..=last`.
fn is_below_span(v: &Val, lo: u32, last: u32, step: u8) -> bool
    requires left { IsWellFormed v.now }
    requires step { step ≤ 2 }
    ensures { IsTrue result ↔ IsBelow v.now (Span lo last step) }
{
    if is_span_of_all_words(lo, last, step) {
        return true;
    }
    let e = extent_of(v);
    is_extent_in_span(&e, lo, last, step)
}

/// Returns true if the Set `own` is below the Set `words` in the lattice: all its words are among
/// them. Both lists ascend and are walked once.
fn is_set_below_set(own: &[u32], words: &[u32]) -> bool
    requires own { IsAscending own.now }
    requires words { IsAscending words.now }
    ensures { IsTrue result ↔ AreAmong own.now words.now }
{
    let mut k = 0;
    for x in own {
        k = lower_bound_from(words, k, *x);
        if k == words.len() || words[k] != *x {
            return false;
        }
    }
    true
}

/// Returns true if a Span is below a Set in the lattice: each of its members is one of the Set's
/// ascending words.
fn is_span_below_set(lo: u32, last: u32, step: u8, words: &[u32]) -> bool
    requires step { step ≤ 2 }
    requires words { IsAscending words.now }
    ensures { IsTrue result ↔ AreAmong (multiples_in_range lo last step) words.now }
{
    let unit = 1u64 << step;
    let start = (u64::from(lo) + (unit - 1)) / unit;
    let end = u64::from(last) / unit + 1;
    for k in start..end {
        if !is_word_of_set(words, (k * unit) as u32) {
            return false;
        }
    }
    true
}

/// Returns true if a Span is in the lattice with the limits `b`: its ends are at thresholds, and a
/// Set can't have so many members.
fn is_span_in_lattice(b: &Bounds, lo: u32, last: u32, step: u8) -> bool
    ensures { IsTrue result ↔ IsInLattice b.now (Span lo last step) }
{
    let most_words = b.most_words();
    if is_span_of_all_words(lo, last, step) {
        return true;
    }
    if step > 2 {
        return false;
    }
    if span_len(lo, last, step) <= most_words as u64 {
        return false;
    }
    let e = extent_of_span(lo, last, step);
    lo == b.floor(e.least) && u64::from(last) + 1 == b.threshold_above(e.greatest)
}

/// Overwrites `out` with the least value that holds the multiples of `2 ^ step` in `first..=last`:
/// a Span, since they are more than a Set can have.
fn write_cover_as_span(b: &Bounds, first: u32, last: u32, step: u8, out: &mut Val)
    requires step { step ≤ 2 }
    requires many { b.now.most_words < span_len first last step }
    requires limits { AreLimits b.now }
    ensures { out.new ≡ cover b.now (multiples_in_range first last step) }
{
    let e = extent_of_span(first, last, step);
    write_span(b, e.least, e.greatest, e.step, out);
}

/// Overwrites `out` with the least value that holds the multiples of `2 ^ step` in `first..=last`,
/// from a list of them, at most 128. Not inlined, since the list needs stack.
#[inline(never)]
fn write_cover_as_set(b: &Bounds, first: u32, last: u32, step: u8, out: &mut Val)
    requires step { step ≤ 2 }
    requires some { 1 ≤ span_len first last step }
    requires few { span_len first last step ≤ 128 }
    ensures { out.new ≡ cover b.now (multiples_in_range first last step) }
{
    let unit = 1u64 << step;
    let start = (u64::from(first) + (unit - 1)) / unit;
    let end = u64::from(last) / unit + 1;
    let mut words = ArrayVec::<u32, 128>::new();
    for k in start..end {
        words.push((k * unit) as u32);
    }
    write_value_of_words(b, words.as_slice(), out);
}
