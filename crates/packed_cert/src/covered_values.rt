// Are the values of a state, of a changed one, or of an exit below those in the bytes?
ghost use Rattle.std.specs.Prelude.{◌≡◌, ◌≤◌, ◌<◌, ◌↔◌, IsTrue, length, slice_index_or, ◌+◌, ◌*◌, ℕ, slice_index};
ghost use Rattle.value_domain.specs.Values.{any_val, IsBelow, IsWellFormed};
ghost use Rattle.value_domain.specs.State.{AreBelow, AreWellFormed};
ghost use Rattle.packed_cert.specs.ToCover.{values_to_cover};
ghost use Rattle.packed_cert.specs.ValuesInBytes.{values_in_bytes, ValuesBeginAt, value_in_bytes, ValueBeginsAt, words_in_bytes, decoded_value, PointsToValue};
ghost use Rattle.tcd_base.specs.Bytes.{word_in_bytes};
ghost use Rattle.value_domain.specs.declared.values.Val.{Val};
ghost use Rattle.value_domain.specs.Sets.{IsAscending, AreAmong};

use crate::certs::cert_bytes_below_256;
use crate::restored_values::ValuesAt;
use crate::value_reader::value_length_by_tag;
use crate::values_at_places::{is_below_value_at, value_at_offset, word_at_offset};
use depth_cert::{SPAN, lower_register_value};
use value_domain::{State, Val, extent_of, leq};
use vd_transfer::{Change, changed_value};

/// The values that are to be covered.
#[derive(Clone, Copy)]
pub(crate) enum ToCover<'a> {
    /// All values of a state.
    Whole(&'a State),
    /// All values of a state after a change, which is never built.
    Changed(&'a State, &'a Change),
    /// The lower registers' values of a state, which are those of its exit.
    Lower(&'a State),
}

/// Returns true if each of `n` given values is below the certificate's value in the same position.
/// The certificate's values begin at the offset `place`, in format `version`.
#[inline(always)]
pub(crate) fn are_values_covered_at(
    values: &ToCover,
    n: usize,
    bytes: &[u8],
    version: u8,
    place: usize,
) -> bool
    requires count { length (values_to_cover values.now) ≡ n }
    requires well { AreWellFormed (values_to_cover values.now) }
    requires stand { ValuesBeginAt version bytes.now place n }
    ensures { IsTrue result
        ↔ AreBelow (values_to_cover values.now) (values_in_bytes version bytes.now place n) }
{
    let any = Val::any();
    let mut at = place;
    for i in 0..n {
        let tag = bytes[at];
        // All words: each value is below it.
        if tag != 0 && !is_below_value_at(value_to_cover(&*values, &any, i), bytes, version, at) {
            return false;
        }
        at += value_length_by_tag(tag);
    }
    true
}

/// Returns true if the abstract value encoded at `low` in a certificate is below the one at `high`.
#[inline(never)]
pub(crate) fn is_encoded_value_below(low: ValuesAt<'_>, high: ValuesAt<'_>) -> bool
    requires low { PointsToValue low }
    requires high { PointsToValue high }
    ensures { IsTrue result ↔ IsBelow (decoded_value low.entry) (decoded_value high.entry) }
{
    cert_bytes_below_256(low.bytes);
    let v = value_at_offset(low.bytes, low.version, low.place);
    is_below_value_at(&v, high.bytes, high.version, high.place)
}

/// Returns true if `v` is below the Span at offset `place` of a certificate of format `version`.
pub(crate) fn is_below_span_at(v: &Val, bytes: &[u8], version: u8, place: usize) -> bool
    requires well { IsWellFormed v.now }
    requires stands { ValueBeginsAt version bytes.now place }
    requires span { 128 < slice_index bytes.now place }
    ensures { IsTrue result ↔ IsBelow v.now (value_in_bytes version bytes.now place) }
{
    let lo = word_at_offset(bytes, place + 1);
    let last = word_at_offset(bytes, place + 5);
    let step = bytes[place] - SPAN;
    let e = extent_of(v);
    if e.least < lo || last < e.greatest {
        return false;
    }
    step <= e.step
}

/// Returns true if each of the ascending words `own` is one of the `n` ascending words from the
/// offset `place` of a certificate on. Both lists are walked once.
pub(crate) fn are_words_in_set_at(own: &[u32], bytes: &[u8], place: usize, n: usize) -> bool
    requires within { place + 4 * n ≤ length bytes.now }
    requires own { IsAscending own.now }
    requires words { IsAscending (words_in_bytes bytes.now place n) }
    ensures { IsTrue result ↔ AreAmong own.now (words_in_bytes bytes.now place n) }
{
    let mut k = 0;
    for x in own {
        k = first_word_at_least(bytes, place, n, k, *x);
        if k == n || word_at_offset(bytes, place + 4 * k) != *x {
            return false;
        }
        k += 1;
    }
    true
}

/// Returns true if `v` is below the value decoded at the offset `place` of a certificate of format
/// `version`. A function of its own, so that faster paths need no stack for a value.
#[inline(never)]
pub(crate) fn is_below_decoded_value(v: &Val, bytes: &[u8], version: u8, place: usize) -> bool
    requires well { IsWellFormed v.now }
    requires stands { ValueBeginsAt version bytes.now place }
    ensures { IsTrue result ↔ IsBelow v.now (value_in_bytes version bytes.now place) }
{
    leq(v, &value_at_offset(bytes, version, place))
}

/// Returns value number `i` of `values`, those that a certificate has to cover. `any`, the value of
/// all words, is returned for a register that a change makes unknown.
#[inline(always)]
fn value_to_cover<'a>(values: &'a ToCover, any: &'a Val, i: usize) -> &'a Val
    requires place { i < length (values_to_cover values.now) }
    requires any { any.now ≡ any_val }
    ensures { result.now ≡ slice_index_or (values_to_cover values.now) i any_val }
{
    match values {
        ToCover::Whole(s) => {
            let _regs = &s.regs[..];
            value_in_slot(s, i)
        }
        ToCover::Changed(s, c) => {
            let _regs = &s.regs[..];
            changed_value(s, c, any, i)
        }
        ToCover::Lower(s) => {
            let _regs = &s.regs[..];
            lower_register_value(&s.regs, i)
        }
    }
}

/// Returns the value in slot `i` of the 27 register values of a state.
#[inline(always)]
fn value_in_slot<'a>(s: &'a State, i: usize) -> &'a Val
    requires place { i < 27 }
    ensures { result.now ≡ slice_index_or s.now.regs i any_val }
{
    let _regs = &s.regs[..];
    &s.regs[i]
}

/// Returns the index of the first of `n` words, from index `k` on, that is at least `x`; `n` if
/// there is none. The words begin at the offset `place` of a certificate.
fn first_word_at_least(bytes: &[u8], place: usize, n: usize, k: usize, x: u32) -> usize
    requires within { place + 4 * n ≤ length bytes.now }
    requires start { k ≤ n }
    ensures start { k ≤ result }
    ensures end { result ≤ n }
    ensures below { (j : ℕ) → k ≤ j → j < result → word_in_bytes bytes.now (place + 4 * j) < x }
    ensures reached { result < n → x ≤ word_in_bytes bytes.now (place + 4 * result) }
{
    if k < n && word_at_offset(bytes, place + 4 * k) == x {
        return k;
    }
    let mut at = k;
    while at < n && word_at_offset(bytes, place + 4 * at) < x {
        at += 1;
    }
    at
}
