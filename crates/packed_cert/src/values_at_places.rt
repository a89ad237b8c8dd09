// Values at places in the bytes: tests and readers of them.
ghost use Rattle.std.specs.Prelude.{◌≡◌, ◌≤◌, ◌<◌, ◌+◌, ◌*◌, ◌↔◌, IsTrue, length, ◌-◌};
ghost use Rattle.value_domain.specs.declared.values.Val.{Val};
ghost use Rattle.value_domain.specs.declared.values.Val.TheVariants.{Set};
ghost use Rattle.value_domain.specs.Sets.{AreSetWords};
ghost use Rattle.value_domain.specs.Values.{IsWellFormed, IsBelow, IsInLattice};
ghost use Rattle.packed_cert.specs.ValuesInBytes.{words_in_bytes, value_in_bytes, ValueBeginsAt, values_in_bytes, ValuesBeginAt};
ghost use Rattle.value_domain.specs.State.{AreInLattice};
ghost use Rattle.tcd_base.specs.Bytes.{word_in_bytes};

use crate::covered_values::{are_words_in_set_at, is_below_decoded_value, is_below_span_at};
use crate::value_reader::{MOST_WORDS, value_length_by_tag};
use depth_cert::SPAN;
use value_domain::{Bounds, Val, is_value, set_span, set_words, write_any};

/// Returns true if `v` is below the abstract value at the offset `place` of a certificate of format
/// `version`. Equal values are below each other.
pub(crate) fn is_below_value_at(v: &Val, bytes: &[u8], version: u8, place: usize) -> bool
    requires well { IsWellFormed v.now }
    requires stands { ValueBeginsAt version bytes.now place }
    ensures { IsTrue result ↔ IsBelow v.now (value_in_bytes version bytes.now place) }
{
    let tag = bytes[place];
    if tag == 0 {
        return true;
    }
    if tag > MOST_WORDS {
        return is_below_span_at(v, bytes, version, place);
    }
    if is_set_of_words_at(v, bytes, place + 1, tag as usize) {
        return true;
    }
    match v {
        Val::Set(words) => are_words_in_set_at(words.as_slice(), bytes, place + 1, tag as usize),
        Val::Span { .. } => is_below_decoded_value(v, bytes, version, place),
    }
}

/// Returns true if each of the `n` values from offset `place` on is in the lattice of `b`. The
/// lattice has Sets of limited size, and Spans between thresholds of the plan.
pub(crate) fn are_values_at(b: &Bounds, bytes: &[u8], version: u8, place: usize, n: usize) -> bool
    requires { ValuesBeginAt version bytes.now place n }
    ensures { IsTrue result ↔ AreInLattice b.now (values_in_bytes version bytes.now place n) }
{
    let _most_words = b.most_words();
    let mut at = place;
    for _i in 0..n {
        let tag = bytes[at];
        // All words: a value of each plan.
        if tag != 0 && !is_value_at(b, bytes, version, at) {
            return false;
        }
        at += value_length_by_tag(tag);
    }
    true
}

/// Decodes the abstract value at the offset `place` of a certificate of format `version`.
#[inline(never)]
pub(crate) fn value_at_offset(bytes: &[u8], version: u8, place: usize) -> Val
    requires { ValueBeginsAt version bytes.now place }
    ensures { result ≡ value_in_bytes version bytes.now place }
{
    let mut out = Val::any();
    read_value_at_offset(bytes, version, place, &mut out);
    out
}

/// Overwrites `out` with the abstract value at the offset `place` of a certificate of format
/// `version`. Nothing is written if `out` is that Set of two or more words already.
pub(crate) fn read_value_at_offset(bytes: &[u8], version: u8, place: usize, out: &mut Val)
    requires { ValueBeginsAt version bytes.now place }
    ensures { out.new ≡ value_in_bytes version bytes.now place }
{
    let tag = bytes[place];
    if tag == 0 {
        write_any(out);
        return;
    }
    if tag == 1 {
        set_words(out, &[word_at_offset(bytes, place + 1)]);
        return;
    }
    if tag > MOST_WORDS {
        let lo = word_at_offset(bytes, place + 1);
        let last = word_at_offset(bytes, place + 5);
        set_span(out, lo, last, tag - SPAN);
        return;
    }
    if is_set_of_words_at(out, bytes, place + 1, tag as usize) {
        return;
    }
    if tag <= 8 {
        read_set_at_offset::<8>(out, bytes, place + 1, tag as usize);
    } else {
        read_set_at_offset::<128>(out, bytes, place + 1, tag as usize);
    }
}

/// Overwrites `out` with the Set of the `n` words from the offset `place` of a certificate on. They
/// are collected in an array of `N` words.
fn read_set_at_offset<const N: usize>(out: &mut Val, bytes: &[u8], place: usize, n: usize)
    requires within { place + 4 * n ≤ length bytes.now }
    requires few { n ≤ N }
    requires small { N ≤ 128 }
    requires words { AreSetWords (words_in_bytes bytes.now place n) }
    ensures { out.new ≡ Set (words_in_bytes bytes.now place n) }
{
    let mut words = [0u32; N];
    for i in 0..n {
        words[i] = word_at_offset(bytes, place + 4 * i);
    }
    set_words(out, &words[..n]);
}

/// Returns true if the value `v` is the Set of just the `n` words from the offset `place` of a
/// certificate on.
fn is_set_of_words_at(v: &Val, bytes: &[u8], place: usize, n: usize) -> bool
    requires within { place + 4 * n ≤ length bytes.now }
    ensures { IsTrue result → v.now ≡ Set (words_in_bytes bytes.now place n) }
{
    let Val::Set(words) = v else {
        return false;
    };
    let own = words.as_slice();
    if own.len() != n {
        return false;
    }
    for i in 0..n {
        if own[i] != word_at_offset(bytes, place + 4 * i) {
            return false;
        }
    }
    true
}

/// Returns true if the value at offset `place` of a certificate is in the lattice of `b`. The
/// lattice has Sets of limited size, and Spans between thresholds of the plan.
#[inline(never)]
fn is_value_at(b: &Bounds, bytes: &[u8], version: u8, place: usize) -> bool
    requires { ValueBeginsAt version bytes.now place }
    ensures { IsTrue result ↔ IsInLattice b.now (value_in_bytes version bytes.now place) }
{
    is_value(b, &value_at_offset(bytes, version, place))
}

/// Returns the word of four bytes at the offset `place` of a certificate, little-endian.
pub(crate) fn word_at_offset(bytes: &[u8], place: usize) -> u32
    requires { place + 4 ≤ length bytes.now }
    ensures { result ≡ word_in_bytes bytes.now place }
{
    u32::from_le_bytes([
        bytes[place],
        bytes[place + 1],
        bytes[place + 2],
        bytes[place + 3],
    ])
}
