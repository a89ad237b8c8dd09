// Compact values.
ghost use Rattle.std.specs.Prelude.{◌≡◌, ◌↔◌, ◌≤◌, ◌<◌, ℕ, List, IsTrue, IfOk, IfSome, OnOk, ◌∷◌, ◌++◌, [], length, slice_index};
ghost use Rattle.depth_cert.specs.Spelling.{bytes_of_value};
ghost use Rattle.value_domain.specs.declared.values.Val.TheVariants.{Set, Span};
ghost use Rattle.value_domain.specs.Sets.{Among, IsAscending};
ghost use Rattle.value_domain.specs.Values.{IsWellFormed, IsInLattice, IsBelow, IsMember, any_val, cover, members, join_of};
ghost use Rattle.small_states.specs.SmallValues.{whole_value};
ghost use Rattle.small_states.specs.Incoming.{incoming_value_of};

use crate::incoming::Given;
use depth_cert::write_value;
use std::alloc::{AllocError, Global};
use std::marker::Model;
use std::rc::Rc;
use tcd_base::NoMemory;
use value_domain::{
    Bounds, Val, Words, alignment_log2, extent_of, is_equal_span, is_extent_in_span, is_set,
    join_into, join_word_list, leq, set_span, set_words, write_any,
};
use vd_transfer::singleton_word;

/// All words, a single word, a whole value that copies share (a set of several words), or another
/// range.
#[derive(Drop)]
pub(crate) enum SmallForm {
    Any,
    One(u32),
    Many(Rc<Val>),
    Range { lo: u32, last: u32, step: u8 },
}

/// A value that takes no more room than its words need.
#[derive(Drop)]
pub struct Small {
    pub(crate) form: SmallForm,
}

impl Model for Small {
    ghost use Rattle.value_domain.specs.declared.values.Val.{Val};
    ghost use Rattle.small_states.specs.SmallValues.{whole_value};

    ghost Value = { Val };

    ghost view = { λ s. whole_value s.form };
}

/// Returns true only if a set of words has this word alone.
#[inline(always)]
fn is_single_word(words: &Words, x: u32) -> bool
    ensures { IsTrue result → words.now ≡ x ∷ [] }
{
    let all = words.as_slice();
    if all.len() != 1 {
        return false;
    }
    all[0] == x
}

/// Returns true only if both values are sets of the same words.
#[inline(never)]
fn have_same_words(v: &Val, w: &Val) -> bool
    ensures { IsTrue result → v.now ≡ w.now }
{
    let Some(own) = v.words() else {
        return false;
    };
    let Some(words) = w.words() else {
        return false;
    };
    own.len() == words.len() && starts_with_words(own, words)
}

/// Returns the length of the longest prefix of `words` whose words are all in the set `own`. Both
/// lists ascend.
fn count_leading_members(own: &[u32], words: &[u32]) -> usize
    requires own { IsAscending own.now }
    requires words { IsAscending words.now }
    ensures within { result ≤ length words.now }
    ensures held { (j : ℕ) → j < result → Among (slice_index words.now j) own.now }
    ensures missing { result < length words.now → ¬ Among (slice_index words.now result) own.now }
{
    let mut k = 0;
    let mut n = 0;
    while n < words.len() && k < own.len() {
        if own[k] > words[n] {
            return n;
        }
        if own[k] == words[n] {
            n += 1;
        }
        k += 1;
    }
    n
}

/// Returns whether each member of `v` is one of `own`, the value that a compact form shares. Of two
/// sets the greatest words are compared first.
fn is_below_shared_value(v: &Val, own: &Val) -> bool
    requires value { IsWellFormed v.now }
    requires own { IsWellFormed own.now }
    ensures { IsTrue result ↔ IsBelow v.now own.now }
{
    let Some(words) = v.words() else {
        return leq(v, own);
    };
    let Some(held) = own.words() else {
        return leq(v, own);
    };
    let end = words.len() - 1;
    if words[end] > held[held.len() - 1] {
        return false;
    }
    if end < held.len() && held[end] == words[end] {
        if starts_with_words(held, words) {
            return true;
        }
    }
    count_leading_members(held, words) == words.len()
}

/// Returns whether each member of a value is a multiple of `2 ^ step` from `lo` to `last`.
fn is_below_range(v: &Val, lo: u32, last: u32, step: u8) -> bool
    requires value { IsWellFormed v.now }
    requires step { step ≤ 2 }
    ensures { IsTrue result ↔ IsBelow v.now (Span lo last step) }
{
    let e = extent_of(v);
    is_extent_in_span(&e, lo, last, step)
}

/// Returns whether a word is a multiple of `2 ^ step` from `lo` to `last`, both included.
#[inline(always)]
fn is_word_in_range(x: u32, lo: u32, last: u32, step: u8) -> bool
    ensures { IsTrue result ↔ IsMember x (Span lo last step) }
{
    lo <= x && x <= last && step <= alignment_log2(x)
}

/// Returns the compact form of a range: the multiples of `2 ^ step` from `lo` to `last`.
#[inline(never)]
fn range_form(lo: u32, last: u32, step: u8) -> SmallForm
    ensures { whole_value result ≡ Span lo last step }
{
    SmallForm::Range { lo, last, step }
}

/// Returns true only if the words `own` start with `words`. There is no early exit, so that several
/// words are compared at once.
#[inline(always)]
fn starts_with_words(own: &[u32], words: &[u32]) -> bool
    ensures { IsTrue result → (rest : List ℕ) × (own.now ≡ words.now ++ rest) }
{
    if own.len() < words.len() {
        return false;
    }
    let mut same = true;
    for n in 0..words.len() {
        if own[n] != words[n] {
            same = false;
        }
    }
    same
}

// Code that needs room for a whole value is in functions of its own, so that the others have no
// such room to fill.
impl Small {
    /// Returns a compact copy of a value: of a single word, a range, a shared set, or all words.
    #[inline(always)]
    pub fn from_value(alloc: Global, v: &Val) -> Result<Small, AllocError>
        ensures { IfOk result (λ s. s ≡ v.now) }
    {
        match v {
            Val::Set(words) => {
                let first = words.as_slice()[0];
                if is_single_word(words, first) {
                    let form = SmallForm::One(first);
                    return Ok(Small { form });
                }
                Small::with_shared_copy(alloc, v)
            }
            Val::Span { lo, last, step } => {
                // All words have a form of their own, which is recognised at once.
                if *lo == 0 && *last == u32::MAX && *step == 0 {
                    return Ok(Small {
                        form: SmallForm::Any,
                    });
                }
                let form = range_form(*lo, *last, *step);
                Ok(Small { form })
            }
        }
    }

    /// Returns the whole value that a compact one stands for.
    #[inline(never)]
    pub fn value(&self) -> Val
        ensures { result ≡ self.now }
    {
        match &self.form {
            SmallForm::Any => Val::any(),
            SmallForm::One(x) => Val::one(*x),
            SmallForm::Many(own) => own.as_ref().copy(),
            SmallForm::Range { lo, last, step } => Val::Span {
                lo: *lo,
                last: *last,
                step: *step,
            },
        }
    }

    /// Returns whether a compact value holds all words, so that nothing is known.
    #[inline(always)]
    pub fn is_any(&self) -> bool
        ensures { IsTrue result ↔ (self.now ≡ any_val) }
    {
        match &self.form {
            SmallForm::Any => true,
            SmallForm::One(_) => false,
            SmallForm::Many(own) => match own.as_ref() {
                Val::Set(_) => false,
                Val::Span { lo, last, step } => *lo == 0 && *last == u32::MAX && *step == 0,
            },
            SmallForm::Range { lo, last, step } => *lo == 0 && *last == u32::MAX && *step == 0,
        }
    }

    /// Returns true only if this compact value stands for the whole value `v`.
    #[inline(always)]
    pub fn stands_for(&self, v: &Val) -> bool
        ensures { IsTrue result → v.now ≡ self.now }
    {
        match &self.form {
            SmallForm::Any => is_equal_span(v, 0, u32::MAX, 0),
            SmallForm::One(x) => match v {
                Val::Set(words) => is_single_word(words, *x),
                Val::Span { .. } => false,
            },
            SmallForm::Many(own) => have_same_words(v, own.as_ref()),
            SmallForm::Range { lo, last, step } => is_equal_span(v, *lo, *last, *step),
        }
    }

    /// Returns the word of a compact value that has the form of a single word, else `None`.
    #[inline(always)]
    pub(crate) fn single_word(&self) -> Option<u32>
        ensures { IfSome result (λ x. self.now ≡ Set (x ∷ [])) }
    {
        match &self.form {
            SmallForm::One(x) => Some(*x),
            _ => None,
        }
    }

    /// Returns true only if both compact values stand for the same value. Most are single words,
    /// which are compared first.
    #[inline(always)]
    pub(crate) fn is_equal(&self, v: &Small) -> bool
        ensures { IsTrue result → v.now ≡ self.now }
    {
        if let SmallForm::One(x) = &v.form {
            return self.single_word() == Some(*x);
        }
        self.has_equal_form(v)
    }

    /// Returns a copy of a compact value. The words of a set are shared.
    #[inline(always)]
    pub(crate) fn copy(&self) -> Result<Small, AllocError>
        ensures { IfOk result (λ s. s ≡ self.now) }
    {
        let form = match &self.form {
            SmallForm::Any => SmallForm::Any,
            SmallForm::One(x) => SmallForm::One(*x),
            SmallForm::Many(own) => SmallForm::Many(own.clone()?),
            SmallForm::Range { lo, last, step } => SmallForm::Range {
                lo: *lo,
                last: *last,
                step: *step,
            },
        };
        Ok(Small { form })
    }

    /// Returns a compact copy of an incoming value, which is whole or compact.
    #[inline(always)]
    pub(crate) fn from_incoming(alloc: Global, v: &Given) -> Result<Small, AllocError>
        ensures { IfOk result (λ s. s ≡ incoming_value_of v.now) }
    {
        match v {
            Given::Whole(v) => Small::from_value(alloc, v),
            Given::Compact(v) => v.copy(),
        }
    }

    /// Writes the whole value that a compact one stands for over `out`.
    #[inline(never)]
    pub fn write_to(&self, out: &mut Val)
        ensures { out.new ≡ self.now }
    {
        match &self.form {
            SmallForm::Any => write_any(out),
            SmallForm::One(x) => set_words(out, &[*x]),
            SmallForm::Many(own) => match own.as_ref() {
                Val::Set(words) => set_words(out, words.as_slice()),
                Val::Span { lo, last, step } => set_span(out, *lo, *last, *step),
            },
            SmallForm::Range { lo, last, step } => set_span(out, *lo, *last, *step),
        }
    }

    /// Appends the certificate's bytes of a compact value, by way of the whole value.
    #[inline(never)]
    pub(crate) fn append_bytes(&self, out: &mut Vec<u8>) -> Result<(), NoMemory>
        requires { IsWellFormed self.now }
        ensures { OnOk result (out.new.items ≡ out.old.items ++ bytes_of_value self.now) }
    {
        write_value(out, &self.value())
    }

    /// Returns whether a compact value has all members of a whole one.
    #[inline(always)]
    pub fn covers(&self, v: &Val) -> bool
        requires own { IsWellFormed self.now }
        requires value { IsWellFormed v.now }
        ensures { IsTrue result ↔ IsBelow v.now self.now }
    {
        if let Some(x) = singleton_word(v) {
            return self.has_member(x);
        }
        match &self.form {
            SmallForm::Many(own) => is_below_shared_value(v, own.as_ref()),
            SmallForm::One(x) => match v.words() {
                Some(words) => count_leading_members(&[*x], words) == words.len(),
                None => is_below_range(v, *x, *x, 0),
            },
            SmallForm::Range { lo, last, step } => {
                if is_equal_span(v, *lo, *last, *step) {
                    return true;
                }
                is_below_range(v, *lo, *last, *step)
            }
            SmallForm::Any => true,
        }
    }

    /// Hints that `v` may cover this value: true for a word or a set of fewer words than `v`.
    pub(crate) fn has_fewer_words(&self, v: &Val) -> bool {
        let most = match v.words() {
            Some(words) => words.len(),
            None => usize::MAX,
        };
        match &self.form {
            SmallForm::One(_) => 1 < most,
            SmallForm::Many(own) => match own.as_ref().words() {
                Some(words) => words.len() < most,
                None => false,
            },
            _ => false,
        }
    }

    /// Returns whether a compact value has all members of another compact one.
    #[inline(always)]
    pub(crate) fn covers_small(&self, v: &Small) -> bool
        requires own { IsWellFormed self.now }
        requires value { IsWellFormed v.now }
        ensures { IsTrue result ↔ IsBelow v.now self.now }
    {
        if self.is_equal(v) {
            return true;
        }
        self.covers_unequal(v)
    }

    /// Returns whether a compact value has all members of an incoming one.
    #[inline(always)]
    pub(crate) fn covers_incoming(&self, v: &Given) -> bool
        requires own { IsWellFormed self.now }
        requires value { IsWellFormed (incoming_value_of v.now) }
        ensures { IsTrue result ↔ IsBelow (incoming_value_of v.now) self.now }
    {
        match v {
            Given::Whole(v) => self.covers(v),
            Given::Compact(v) => self.covers_small(v),
        }
    }

    /// Returns the least compact value with the members of this one and of a whole one.
    #[inline(always)]
    pub fn join(&self, alloc: Global, b: &Bounds, v: &Val) -> Result<Small, AllocError>
        requires own { IsInLattice b.now self.now }
        requires value { IsInLattice b.now v.now }
        ensures { IfOk result (λ s. s ≡ join_of b.now self.now v.now) }
    {
        if self.stands_for(v) {
            return self.copy();
        }
        if let Some(x) = singleton_word(v) {
            if self.has_member(x) {
                return self.copy();
            }
        }
        match v {
            Val::Set(words) => self.join_word_set(alloc, b, v, words.as_slice()),
            Val::Span { .. } => self.join_range(alloc, b, v),
        }
    }

    /// Returns the least compact value with the members of this one and of an incoming one.
    #[inline(always)]
    pub(crate) fn join_incoming(
        &self,
        alloc: Global,
        b: &Bounds,
        v: &Given,
    ) -> Result<Small, AllocError>
        requires own { IsInLattice b.now self.now }
        requires value { IsInLattice b.now (incoming_value_of v.now) }
        ensures { IfOk result (λ s. s ≡ join_of b.now self.now (incoming_value_of v.now)) }
    {
        match v {
            Given::Whole(v) => self.join(alloc, b, v),
            Given::Compact(v) => {
                if self.is_equal(v) {
                    return v.copy();
                }
                self.join_unequal(alloc, b, v)
            }
        }
    }

    /// Returns a compact value that holds a copy of the whole value `v`, which its copies share.
    #[inline(never)]
    fn with_shared_copy(alloc: Global, v: &Val) -> Result<Small, AllocError>
        ensures { IfOk result (λ s. s ≡ v.now) }
    {
        let form = SmallForm::Many(Rc::new(alloc, v.copy())?);
        Ok(Small { form })
    }

    /// Returns true only if both compact values have the same form and stand for the same value.
    #[inline(always)]
    fn has_equal_form(&self, v: &Small) -> bool
        ensures { IsTrue result → v.now ≡ self.now }
    {
        match &v.form {
            SmallForm::Any => self.is_any(),
            SmallForm::One(x) => self.single_word() == Some(*x),
            SmallForm::Many(words) => match &self.form {
                SmallForm::Many(own) => have_same_words(words.as_ref(), own.as_ref()),
                _ => false,
            },
            SmallForm::Range { lo, last, step } => self.is_range(*lo, *last, *step),
        }
    }

    /// Returns true only if the form is the range of the multiples of `2 ^ step` in `lo..=last`.
    #[inline(always)]
    fn is_range(&self, lo: u32, last: u32, step: u8) -> bool
        ensures { IsTrue result → self.now ≡ Span lo last step }
    {
        match &self.form {
            SmallForm::Range {
                lo: own_lo,
                last: own_last,
                step: own_step,
            } => *own_lo == lo && *own_last == last && *own_step == step,
            _ => false,
        }
    }

    /// Returns whether a word is a member of a compact value.
    #[inline(always)]
    fn has_member(&self, x: u32) -> bool
        ensures { IsTrue result ↔ IsMember x self.now }
    {
        match &self.form {
            SmallForm::Any => true,
            SmallForm::One(own) => x == *own,
            SmallForm::Many(own) => match own.as_ref() {
                Val::Set(words) => words.as_slice().contains(&x),
                Val::Span { lo, last, step } => is_word_in_range(x, *lo, *last, *step),
            },
            SmallForm::Range { lo, last, step } => is_word_in_range(x, *lo, *last, *step),
        }
    }

    /// Returns whether a compact value has all members of another one, which has been found
    /// unequal.
    #[inline(never)]
    fn covers_unequal(&self, v: &Small) -> bool
        requires own { IsWellFormed self.now }
        requires value { IsWellFormed v.now }
        ensures { IsTrue result ↔ IsBelow v.now self.now }
    {
        match &v.form {
            SmallForm::One(x) => self.has_member(*x),
            SmallForm::Many(words) => self.covers(words.as_ref()),
            SmallForm::Range { lo, last, step } => {
                if self.has_all_of_range(*lo, *last, *step) {
                    return true;
                }
                self.covers_as_whole(v)
            }
            SmallForm::Any => self.covers_as_whole(v),
        }
    }

    /// Returns true only if the form shows all multiples of `2 ^ step` in `lo..=last` as members.
    #[inline(always)]
    fn has_all_of_range(&self, lo: u32, last: u32, step: u8) -> bool
        ensures { IsTrue result → IsBelow (Span lo last step) self.now }
    {
        match &self.form {
            SmallForm::Range {
                lo: own_lo,
                last: own_last,
                step: own_step,
            } => *own_lo <= lo && last <= *own_last && *own_step <= step,
            _ => false,
        }
    }

    /// Returns whether a compact value has all members of another one, which is made whole first.
    #[inline(never)]
    fn covers_as_whole(&self, v: &Small) -> bool
        requires own { IsWellFormed self.now }
        requires value { IsWellFormed v.now }
        ensures { IsTrue result ↔ IsBelow v.now self.now }
    {
        self.covers(&v.value())
    }

    /// Returns the least compact value with the members of this one and of `v`, the set of `words`.
    /// How both are merged depends on how many words are missing.
    #[inline(never)]
    fn join_word_set(
        &self,
        alloc: Global,
        b: &Bounds,
        v: &Val,
        words: &[u32],
    ) -> Result<Small, AllocError>
        requires own { IsInLattice b.now self.now }
        requires value { IsInLattice b.now v.now }
        requires words { v.now ≡ Set words.now }
        ensures { IfOk result (λ s. s ≡ join_of b.now self.now v.now) }
    {
        if let SmallForm::One(x) = &self.form {
            return Small::from_word_lists(alloc, b, words, &[*x]);
        }
        let SmallForm::Many(own) = &self.form else {
            return self.with_words(alloc, b, words);
        };
        let Some(held) = own.as_ref().words() else {
            return self.with_words(alloc, b, words);
        };
        let n = count_leading_members(held, words);
        if n == words.len() {
            return self.copy_out_of_line();
        }
        let missing = words.len() - n;
        if held.len() < missing {
            return Small::from_word_lists(alloc, b, words, held);
        }
        if missing > 16 {
            return self.join_in_whole_copy(alloc, b, v);
        }
        self.with_words(alloc, b, &words[n..])
    }

    /// Returns the least compact value with the members of this one and of the range `v`: one of
    /// the two, if that covers the other.
    #[inline(never)]
    fn join_range(&self, alloc: Global, b: &Bounds, v: &Val) -> Result<Small, AllocError>
        requires own { IsInLattice b.now self.now }
        requires value { IsInLattice b.now v.now }
        ensures { IfOk result (λ s. s ≡ join_of b.now self.now v.now) }
    {
        if let Val::Span { lo, last, step } = v {
            if self.has_all_of_range(*lo, *last, *step) {
                return self.copy_out_of_line();
            }
            if self.is_inside_range(*lo, *last, *step) {
                return Small::from_value(alloc, v);
            }
        }
        self.join_in_whole_copy(alloc, b, v)
    }

    /// Returns the least compact value with the words of a set and `others`, which are added to a
    /// copy of the set.
    #[inline(never)]
    fn from_word_lists(
        alloc: Global,
        b: &Bounds,
        words: &[u32],
        others: &[u32],
    ) -> Result<Small, AllocError>
        requires { IsInLattice b.now (Set words.now) }
        ensures { IfOk result (λ s. s ≡ cover b.now (words.now ++ others.now)) }
    {
        let mut out = Val::one(0);
        set_words(&mut out, words);
        join_word_list(b, &mut out, others);
        if is_set(&out) {
            let form = SmallForm::Many(Rc::new(alloc, out)?);
            return Ok(Small { form });
        }
        Small::from_value(alloc, &out)
    }

    /// Returns the least compact value with the members of this one and these words, which are
    /// added to a whole copy.
    #[inline(never)]
    fn with_words(&self, alloc: Global, b: &Bounds, words: &[u32]) -> Result<Small, AllocError>
        requires own { IsInLattice b.now self.now }
        ensures { IfOk result (λ s. s ≡ cover b.now (members self.now ++ words.now)) }
    {
        let mut out = Val::one(0);
        self.write_to(&mut out);
        join_word_list(b, &mut out, words);
        if is_set(&out) {
            let form = SmallForm::Many(Rc::new(alloc, out)?);
            return Ok(Small { form });
        }
        Small::from_value(alloc, &out)
    }

    /// Returns a copy of a compact value. Never inlined, since its callers need a copy in rare
    /// cases.
    #[inline(never)]
    fn copy_out_of_line(&self) -> Result<Small, AllocError>
        ensures { IfOk result (λ s. s ≡ self.now) }
    {
        self.copy()
    }

    /// Returns the least compact value with the members of this one and of the whole value `v`, by
    /// joining `v` into a whole copy.
    #[inline(never)]
    fn join_in_whole_copy(&self, alloc: Global, b: &Bounds, v: &Val) -> Result<Small, AllocError>
        requires own { IsInLattice b.now self.now }
        requires value { IsInLattice b.now v.now }
        ensures { IfOk result (λ s. s ≡ join_of b.now self.now v.now) }
    {
        let mut out = Val::one(0);
        self.write_to(&mut out);
        join_into(b, &mut out, v);
        Small::from_owned(alloc, out)
    }

    /// Returns the compact form of a value. A set of several words is moved, not copied.
    #[inline(never)]
    fn from_owned(alloc: Global, v: Val) -> Result<Small, AllocError>
        ensures { IfOk result (λ s. s ≡ v) }
    {
        if singleton_word(&v).is_none() && is_set(&v) {
            let form = SmallForm::Many(Rc::new(alloc, v)?);
            return Ok(Small { form });
        }
        Small::from_value(alloc, &v)
    }

    /// Returns true only if the form shows all members as multiples of `2 ^ step` in `lo..=last`.
    #[inline(always)]
    fn is_inside_range(&self, lo: u32, last: u32, step: u8) -> bool
        ensures { IsTrue result → IsBelow self.now (Span lo last step) }
    {
        match &self.form {
            SmallForm::One(x) => is_word_in_range(*x, lo, last, step),
            SmallForm::Range {
                lo: own_lo,
                last: own_last,
                step: own_step,
            } => lo <= *own_lo && *own_last <= last && step <= *own_step,
            _ => false,
        }
    }

    /// Returns the least compact value with the members of this one and of another, which has been
    /// found unequal.
    #[inline(never)]
    fn join_unequal(&self, alloc: Global, b: &Bounds, v: &Small) -> Result<Small, AllocError>
        requires own { IsInLattice b.now self.now }
        requires value { IsInLattice b.now v.now }
        ensures { IfOk result (λ s. s ≡ join_of b.now self.now v.now) }
    {
        match &v.form {
            SmallForm::One(x) => {
                if self.has_member(*x) {
                    return self.copy();
                }
                self.with_words(alloc, b, &[*x])
            }
            SmallForm::Many(words) => self.join(alloc, b, words.as_ref()),
            _ => self.join_as_whole(alloc, b, v),
        }
    }

    /// Returns the least compact value with the members of this one and of another, which is made
    /// whole first.
    #[inline(never)]
    fn join_as_whole(&self, alloc: Global, b: &Bounds, v: &Small) -> Result<Small, AllocError>
        requires own { IsInLattice b.now self.now }
        requires value { IsInLattice b.now v.now }
        ensures { IfOk result (λ s. s ≡ join_of b.now self.now v.now) }
    {
        self.join(alloc, b, &v.value())
    }
}
