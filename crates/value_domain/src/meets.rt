// Meets: the members of a value that are in a range or among given words.
ghost use Rattle.std.specs.Prelude.{◌≡◌, ◌==◌, ◌≤◌, List, ℕ, [], ◌∷◌, ◌++◌, filter, IfSome, Some};
ghost use Rattle.value_domain.specs.Values.{IsInLattice, IsWellFormed, members, multiples_in_range, is_in_span, is_member};
ghost use Rattle.value_domain.specs.Meets.{cover_if_any, value_if_found};

use crate::lattice::{join_word, write_cover};
use crate::values::{is_member, is_word_in_span, set_word, span_len};
use crate::{Bounds, Val};

/// Overwrites `out` with the meet of a value and a Span: the cover of their common members. Returns
/// false if there are none; then `out` may be any value.
pub fn write_meet_with_span(
    b: &Bounds,
    v: &Val,
    lo: u32,
    last: u32,
    step: u8,
    out: &mut Val,
) -> bool
    requires value { IsInLattice b.now v.now }
    requires step { step ≤ 2 }
    ensures meet { value_if_found result out.new
        ≡ cover_if_any b.now (filter (is_in_span lo last step) (members v.now)) }
    ensures value { IfSome (value_if_found result out.new) (IsInLattice b.now) }
{
    match v {
        Val::Set(words) => write_meet_of_set_and_span(b, words.as_slice(), lo, last, step, out),
        Val::Span {
            lo: first,
            last: end,
            step: own,
        } => write_meet_of_spans(b, lo.max(*first), last.min(*end), step.max(*own), out),
    }
}

/// Overwrites `out` with the meet of a Set's words and a value: the cover of those that are members
/// of `v`. Returns false, and leaves `out`, if there are none.
pub fn write_meet_with_set(b: &Bounds, words: &[u32], v: &Val, out: &mut Val) -> bool
    requires { IsWellFormed v.now }
    ensures kept { value_if_found result out.new
        ≡ cover_if_any b.now (filter (λ x. is_member x v.now) words.now) }
    ensures value { IfSome (value_if_found result out.new) (IsInLattice b.now) }
{
    let mut found = false;
    for x in words {
        if is_member(*x, v) {
            add_word_to_meet(b, found, out, *x);
            found = true;
        }
    }
    found
}

/// Overwrites `out` with the cover of those of a Set's words that are members of a Span. Returns
/// false if there are none; then `out` may be any value.
fn write_meet_of_set_and_span(
    b: &Bounds,
    words: &[u32],
    lo: u32,
    last: u32,
    step: u8,
    out: &mut Val,
) -> bool
    ensures meet { value_if_found result out.new
        ≡ cover_if_any b.now (filter (is_in_span lo last step) words.now) }
    ensures value { IfSome (value_if_found result out.new) (IsInLattice b.now) }
{
    let mut found = false;
    for x in words {
        if is_word_in_span(lo, last, step, *x) {
            add_word_to_meet(b, found, out, *x);
            found = true;
        }
    }
    found
}

/// Overwrites `out` with the meet of two Spans, whose common members are the multiples of `2 ^
/// step` in `lo..=last`. Returns false if there are none.
fn write_meet_of_spans(b: &Bounds, lo: u32, last: u32, step: u8, out: &mut Val) -> bool
    requires { step ≤ 2 }
    ensures meet { value_if_found result out.new
        ≡ cover_if_any b.now (multiples_in_range lo last step) }
    ensures value { IfSome (value_if_found result out.new) (IsInLattice b.now) }
{
    if span_len(lo, last, step) == 0 {
        return false;
    }
    write_cover(b, lo, last, step, out);
    true
}

/// Joins the word `x` into `out`, the meet of two values as far as known. If `found` is false, no
/// word was joined before, and `out` becomes the Set of `x`.
fn add_word_to_meet(b: &Bounds, found: bool, out: &mut Val, x: u32)
    requires { IfSome (value_if_found found out.old) (IsInLattice b.now) }
    ensures more { (xs : List ℕ) → value_if_found found out.old ≡ cover_if_any b.now xs
        → Some out.new ≡ cover_if_any b.now (xs ++ x ∷ []) }
    ensures value { IsInLattice b.now out.new }
{
    let _most_words = b.most_words();
    if found {
        join_word(b, out, x)
    } else {
        set_word(out, x)
    }
}
