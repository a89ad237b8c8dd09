// Values: sets of words.
// A value is a list of at most 128 words, or the multiples of a power of two in a range.
ghost use Rattle.std.specs.Prelude.{◌≡◌, ◌≤◌, ◌<◌, ◌+◌, ◌-◌, IsTrue, length, IfSome, [], ◌∷◌, List, ℕ, option_map, ◌↔◌, slice_index, IsSome, ◌==◌, ◌*◌, ◌/◌};
ghost use Rattle.std.specs.List.{list_any};
ghost use Rattle.std.specs.List.Sorted.{IsStrictlyIncreasing};
ghost use Rattle.value_domain.specs.Sets.{AreSetWords, Among, sorted_set_insert, IsAscending};
ghost use Rattle.value_domain.specs.declared.values.Val.TheVariants.{Set, Span};
ghost use Rattle.value_domain.specs.Sets as sets;
ghost use Rattle.value_domain.specs.Values.{IsMember, IsWellFormed, span_len, any_val, words_of, is_in_span, is_member};
ghost use Rattle.value_domain.specs.Values as spec;

use arrayvec::ArrayVec;
use std::marker::Model;

/// From 1 to 128 words in ascending order.
#[derive(Drop)]
pub struct Words {
    words: ArrayVec<u32, 128>,
}

impl Model for Words {
    ghost use Rattle.std.specs.Prelude.{List, ℕ};
    ghost use Rattle.value_domain.specs.Sets.{AreSetWords};

    ghost Value = { List ℕ };

    ghost view = { λ w. w.words.items };

    ghost invariant = { λ w. AreSetWords w.words.items };
}

impl Words {
    /// Returns the list of one word.
    pub fn one(x: u32) -> Words
        ensures { result ≡ x ∷ [] }
    {
        let mut words = ArrayVec::new();
        words.push(x);
        Words { words }
    }

    /// Returns the list of these words, or `None` if they don't strictly ascend or aren't 1 to 128.
    pub fn of(words: &[u32]) -> Option<Words>
        ensures some { IsSome result
            ↔ ((1 ≤ length words.now) × (length words.now ≤ 128) × IsStrictlyIncreasing words.now) }
        ensures value { IfSome result (λ w. w ≡ words.now) }
    {
        if words.is_empty() || words.len() > 128 || !are_ascending(words) {
            return None;
        }
        let copy = copied_elements(words);
        Some(Words { words: copy })
    }

    /// Returns the list of these words, which are 1 to 128 ascending ones.
    pub(crate) fn from_slice(words: &[u32]) -> Words
        requires { AreSetWords words.now }
        ensures { result ≡ words.now }
    {
        Words {
            words: copied_elements(words),
        }
    }

    /// Returns the words as a slice.
    pub fn as_slice(&self) -> &[u32]
        ensures items { result.now ≡ self.now }
        ensures words { AreSetWords self.now }
    {
        self.words.as_slice()
    }

    /// Returns a copy of this `Words`, the list of words of a Set.
    pub fn copy(&self) -> Words
        ensures { result ≡ self.now }
    {
        Words {
            words: copied_elements(self.words.as_slice()),
        }
    }

    /// Overwrites the list with these words, in place.
    fn set(&mut self, words: &[u32])
        requires { AreSetWords words.now }
        ensures { self.new ≡ words.now }
    {
        if words.len() == 1 {
            self.set_one(words[0]);
            return;
        }
        self.words.clear();
        self.words.try_extend_from_slice(words).unwrap();
    }

    /// Overwrites the list with the one word `x`, in place.
    #[inline(always)]
    fn set_one(&mut self, x: u32)
        ensures { self.new ≡ x ∷ [] }
    {
        self.words.truncate(1);
        let _last = self.words.pop();
        self.words.push(x);
    }

    /// Inserts a word that isn't a member among a Set's ascending words, of which there are at most
    /// 127.
    pub fn insert(&mut self, x: u32)
        requires room { length self.old < 128 }
        requires absent { ¬ Among x self.old }
        ensures { self.new ≡ sorted_set_insert x self.old }
    {
        let at = count_words_below(self.words.as_slice(), x);
        self.words.insert(at, x);
    }
}

/// Returns true if each word is above the one before it.
fn are_ascending(words: &[u32]) -> bool
    ensures { IsTrue result ↔ IsStrictlyIncreasing words.now }
{
    for i in 1..words.len() {
        if words[i] <= words[i - 1] {
            return false;
        }
    }
    true
}

/// Returns the number of a Set's ascending words that are below `x`, which is the index of `x` if a
/// member.
fn count_words_below(words: &[u32], x: u32) -> usize
    requires { IsAscending words.now }
    ensures within { result ≤ length words.now }
    ensures before { (k : ℕ) → k < result → slice_index words.now k < x }
    ensures after { (k : ℕ) → result ≤ k → k < length words.now → x ≤ slice_index words.now k }
{
    if are_words_below(words, x) {
        return words.len();
    }
    words.partition_point(|w| *w < x)
}

/// Returns true if `x` is one of a Set's ascending words.
pub(crate) fn is_word_of_set(words: &[u32], x: u32) -> bool
    requires { IsAscending words.now }
    ensures { IsTrue result ↔ Among x words.now }
{
    let at = count_words_below(words, x);
    at < words.len() && words[at] == x
}

/// Returns a vector with a copy of these elements, such as the words of a value that is a Set.
pub(crate) fn copied_elements<T: Copy + Default, const N: usize>(items: &[T]) -> ArrayVec<T, N>
    requires { length items.now ≤ N }
    ensures { result.items ≡ items.now }
{
    let mut copy = ArrayVec::new();
    copy.try_extend_from_slice(items).unwrap();
    copy
}

/// Returns true if a value's list of ascending words isn't empty and all its words are below `x`:
/// then `x` is no member.
fn are_words_below(words: &[u32], x: u32) -> bool
    requires { IsAscending words.now }
    ensures { IsTrue result → (k : ℕ) → k < length words.now → slice_index words.now k < x }
{
    if words.is_empty() {
        return false;
    }
    words[words.len() - 1] < x
}

/// A value: a set of words. A Set has the words of its list. A Span has the multiples of 2^`step`
/// in `lo..=last`; `step` is at most 2.
#[derive(Drop)]
pub enum Val {
    Set(Words),
    Span { lo: u32, last: u32, step: u8 },
}

impl Val {
    ghost use Rattle.value_domain.specs.Values.{any_val, words_of};
    ghost use Rattle.value_domain.specs.declared.values.Val.TheVariants.{Set};

    /// Returns the abstract value that holds all words of 32 bits.
    pub fn any() -> Val
        ensures { result ≡ any_val }
    {
        Val::Span {
            lo: 0,
            last: u32::MAX,
            step: 0,
        }
    }

    /// Returns the value that holds one word.
    pub fn one(x: u32) -> Val
        ensures { result ≡ Set (x ∷ []) }
    {
        Val::Set(Words::one(x))
    }

    /// Returns the words of an abstract value that is a Set; of a Span, `None`.
    pub fn words(&self) -> Option<&[u32]>
        ensures { option_map (λ s. s.now) result ≡ words_of self.now }
    {
        match self {
            Val::Set(words) => Some(words.as_slice()),
            Val::Span { .. } => None,
        }
    }

    /// Returns a copy of the value.
    pub fn copy(&self) -> Val
        ensures { result ≡ self.now }
    {
        match self {
            Val::Set(words) => Val::Set(words.copy()),
            Val::Span { lo, last, step } => Val::Span {
                lo: *lo,
                last: *last,
                step: *step,
            },
        }
    }
}

/// Overwrites `out` with a copy of a value. For equal kinds, only the words or ends are written.
pub fn copy_to(v: &Val, out: &mut Val)
    ensures { out.new ≡ v.now }
{
    match v {
        Val::Set(words) => set_words(out, words.as_slice()),
        Val::Span { lo, last, step } => set_span(out, *lo, *last, *step),
    }
}

/// Overwrites a value with the Set of these words. If it is a Set, only its words are written.
pub fn set_words(out: &mut Val, words: &[u32])
    requires { AreSetWords words.now }
    ensures { out.new ≡ Set words.now }
{
    match out {
        Val::Set(own) => own.set(words),
        Val::Span { .. } => replace_by_set(out, words),
    }
}

/// Overwrites a value with the Set of one word. If it is a Set, only its words are written.
#[inline(always)]
pub fn set_word(out: &mut Val, x: u32)
    ensures { out.new ≡ Set (x ∷ []) }
{
    match out {
        Val::Set(own) => own.set_one(x),
        Val::Span { .. } => replace_by_singleton(out, x),
    }
}

// `replace_by_singleton`, `replace_by_set` and `replace_by_span` write all bytes of a
// value. Each is a function of its own, so that its callers need no stack for a value.

/// Replaces a value, Set or Span, by the Set of one word; not inlined, to save callers' stack.
#[inline(never)]
fn replace_by_singleton(out: &mut Val, x: u32)
    ensures { out.new ≡ Set (x ∷ []) }
{
    *out = Val::one(x);
}

/// Replaces a value, Set or Span, by the Set of these words; not inlined, to save callers' stack.
#[inline(never)]
fn replace_by_set(out: &mut Val, words: &[u32])
    requires { AreSetWords words.now }
    ensures { out.new ≡ Set words.now }
{
    replace_by_singleton(out, words[0]);
    match out {
        Val::Set(own) => own.set(words),
        Val::Span { .. } => unreachable!(),
    }
}

/// Overwrites a value with a Span. If it is a Span, only its ends and step are written.
pub fn set_span(out: &mut Val, lo: u32, last: u32, step: u8)
    ensures { out.new ≡ Span lo last step }
{
    match out {
        Val::Set(_) => replace_by_span(out, lo, last, step),
        Val::Span {
            lo: own_lo,
            last: own_last,
            step: own_step,
        } => {
            *own_lo = lo;
            *own_last = last;
            *own_step = step;
        }
    }
}

/// Returns how many times two divides a word, counted up to 2. A word in a Span's range is a member
/// if its count is at least the Span's step.
#[tactic(auto, unfolding(crate::specs::Sets::alignment_log2))]
pub fn alignment_log2(x: u32) -> u8
    ensures { result ≡ sets.alignment_log2 x }
{
    if x % 4 == 0 {
        2
    } else if x % 2 == 0 {
        1
    } else {
        0
    }
}

/// Returns true if the word is a member of the abstract value.
pub fn member(x: u32, v: &Val) -> bool
    requires { IsWellFormed v.now }
    ensures { IsTrue result ↔ IsMember x v.now }
{
    match v {
        Val::Set(words) => is_word_of_set(words.as_slice(), x),
        Val::Span { lo, last, step } => *lo <= x && x <= *last && *step <= alignment_log2(x),
    }
}

/// Returns true if an abstract value is a Set, not a Span.
pub fn is_set(v: &Val) -> bool
    ensures { IsTrue result ↔ IsSome (words_of v.now) }
{
    v.words().is_some()
}

/// Overwrites an abstract value with the one that holds all words.
#[inline(always)]
pub fn write_any(out: &mut Val)
    ensures { out.new ≡ any_val }
{
    set_span(out, 0, u32::MAX, 0);
}

/// Returns true if two abstract values are equal: both Sets of the same words, or the same Span.
pub(crate) fn are_values_equal(v: &Val, w: &Val) -> bool
    ensures { IsTrue result ↔ (v.now ≡ w.now) }
{
    match v {
        Val::Set(own) => match w {
            Val::Set(words) => own.as_slice() == words.as_slice(),
            Val::Span { .. } => false,
        },
        Val::Span { lo, last, step } => is_equal_span(w, *lo, *last, *step),
    }
}

/// Returns true if the Span with these ends and this step holds all words of 32 bits.
pub(crate) fn is_span_of_all_words(lo: u32, last: u32, step: u8) -> bool
    ensures { IsTrue result ↔ ((lo ≡ 0) × (last ≡ 4294967295) × (step ≡ 0)) }
{
    lo == 0 && last == u32::MAX && step == 0
}

/// Returns the number of multiples of `2 ^ step` in `lo..=last`: the members of a Span.
pub fn span_len(lo: u32, last: u32, step: u8) -> u64
    requires { step ≤ 2 }
    ensures { result ≡ span_len lo last step }
{
    let unit = 1u64 << step;
    (u64::from(last) / unit + 1).saturating_sub((u64::from(lo) + (unit - 1)) / unit)
}

/// Returns true if the word `x` is a member of the Span with these ends and this step.
pub(crate) fn is_word_in_span(lo: u32, last: u32, step: u8, x: u32) -> bool
    ensures { result ≡ is_in_span lo last step x }
{
    lo <= x && x <= last && step <= alignment_log2(x)
}

/// Returns true if the word is a member of the abstract value, which needn't be well-formed.
pub(crate) fn is_member(x: u32, v: &Val) -> bool
    ensures { result ≡ spec.is_member x v.now }
{
    match v {
        Val::Set(words) => is_one_of(words.as_slice(), x),
        Val::Span { lo, last, step } => is_word_in_span(*lo, *last, *step, x),
    }
}

/// Returns true if an abstract value is the Span with these ends and this step.
#[inline(always)]
pub fn is_equal_span(v: &Val, lo: u32, last: u32, step: u8) -> bool
    ensures { IsTrue result ↔ (v.now ≡ Span lo last step) }
{
    match v {
        Val::Set(_) => false,
        Val::Span {
            lo: own_lo,
            last: own_last,
            step: own_step,
        } => *own_lo == lo && *own_last == last && *own_step == step,
    }
}

/// Replaces a value, Set or Span, by a Span; not inlined, to save callers' stack.
#[inline(never)]
fn replace_by_span(out: &mut Val, lo: u32, last: u32, step: u8)
    ensures { out.new ≡ Span lo last step }
{
    *out = Val::Span { lo, last, step };
}

/// Returns true if `x` is one of the words of a value that is a Set, in any order.
fn is_one_of(words: &[u32], x: u32) -> bool
    ensures { result ≡ list_any (λ w. x == w) words.now }
{
    words.iter().any(|w| x == *w)
}
