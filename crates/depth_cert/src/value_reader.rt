// Reads the fields of values.
ghost use Rattle.std.specs.Prelude.{◌≡◌, ◌≤◌, ◌<◌, ◌^◌, ◌-◌, length, Ok, Err, OnOk, IfOk, IfErr, true};
ghost use Rattle.tcd_base.specs.FieldReaders.{ReadsField};
ghost use Rattle.tcd_base.specs.Place.{place_moved_to};
ghost use Rattle.value_domain.specs.declared.values.Val.TheVariants.{Set};
ghost use Rattle.std.specs.List.Sorted.{IsStrictlyIncreasing};
ghost use Rattle.depth_cert.specs.Grammar.{flag_at, set_word_after, set_at, span_at, value_at, values_at, is_above_last, is_cert_span, last_number};

use arrayvec::ArrayVec;
use tcd_base::{BAD_VALUE, FileCursor, FormErr, form_err_at, read_u8, read_u32};
use value_domain::{Val, set_span, set_words, span_len, write_any};

/// The first byte of a Span is this plus its step.
pub const SPAN: u8 = 240;

/// The first byte of a Span of the greatest step, which is 2.
const LAST_SPAN: u8 = 242;

/// A Set of no more words than these is read through room for as many, which is soon filled.
const FEW_WORDS: u8 = 8;

/// Reads a truth value of a certificate: a byte 0 or 1. Any other byte is a `BAD_VALUE`.
#[tactic(auto, unfolding(crate::specs::Grammar::flag_at))]
pub fn read_flag(c: &mut FileCursor<'_>) -> Result<bool, FormErr>
    ensures { ReadsField result c.old c.new flag_at }
{
    let at = c.place();
    let byte = read_u8(c)?;
    if byte > 1 {
        return Err(form_err_at(BAD_VALUE, at));
    }
    Ok(byte == 1)
}

/// Reads the Set of `n` ascending words at the cursor of a certificate into `out`, or returns the
/// first fault. They are collected in an array of `N` words.
#[tactic(auto, unfolding(crate::specs::Grammar::set_at))]
#[inline(never)]
fn read_set<const N: usize>(c: &mut FileCursor<'_>, n: usize, out: &mut Val) -> Result<(), FormErr>
    requires some { 1 ≤ n }
    requires few { n ≤ N }
    requires small { N ≤ 128 }
    ensures ok { OnOk result (set_at n c.old ≡ Ok (out.new, c.new)) }
    ensures err { IfErr result (λ e. set_at n c.old ≡ Err e) }
    ensures bytes { c.new.bytes ≡ c.old.bytes }
{
    let mut words: ArrayVec<u32, N> = ArrayVec::new();
    for _i in 0..n {
        let word = read_set_word(c, words.as_slice())?;
        words.push(word);
    }
    overwrite_with_set(words.as_slice(), out);
    Ok(())
}

/// Overwrites `out` with the value at the cursor, in format `version`, or returns the first fault.
#[tactic(auto, unfolding(crate::specs::Grammar::value_at))]
pub fn read_value(c: &mut FileCursor<'_>, version: u8, out: &mut Val) -> Result<(), FormErr>
    ensures ok { OnOk result (value_at version c.old ≡ Ok (out.new, c.new)) }
    ensures err { IfErr result (λ e. value_at version c.old ≡ Err e) }
    ensures bytes { c.new.bytes ≡ c.old.bytes }
{
    let start = c.place();
    let byte = read_u8(c)?;
    if byte == 0 {
        write_any(out);
        return Ok(());
    }
    let width = if version == 1 { 64 } else { 128 };
    if byte <= FEW_WORDS {
        return read_set::<8>(c, byte as usize, out);
    }
    if byte <= width {
        return read_set::<128>(c, byte as usize, out);
    }
    if byte < SPAN || byte > LAST_SPAN {
        return Err(form_err_at(BAD_VALUE, start));
    }
    read_span(c, version, byte - SPAN, start, out)
}

/// Overwrites each element of `out` with the next value at the cursor, in format `version`, or
/// returns the first fault.
#[tactic(auto, unfolding(crate::specs::Grammar::values_at))]
pub fn read_values(c: &mut FileCursor<'_>, version: u8, out: &mut [Val]) -> Result<(), FormErr>
    ensures ok { OnOk result (values_at version (length out.old) c.old ≡ Ok (out.new, c.new)) }
    ensures err { IfErr result (λ e. values_at version (length out.old) c.old ≡ Err e) }
    ensures bytes { c.new.bytes ≡ c.old.bytes }
{
    for i in 0..out.len() {
        read_value(c, version, &mut out[i])?;
    }
    Ok(())
}

/// Reads a word of a certificate's Set. One that isn't above all words `before` is a `BAD_VALUE`.
#[tactic(auto, unfolding(crate::specs::Grammar::set_word_after))]
fn read_set_word(c: &mut FileCursor<'_>, before: &[u32]) -> Result<u32, FormErr>
    ensures read { ReadsField result c.old c.new (set_word_after before.now) }
    ensures next { IfOk result (λ w. is_above_last (last_number before.now) w ≡ true) }
{
    let at = c.place();
    let word = read_u32(c)?;
    if !is_above_last_word(before, word) {
        return Err(form_err_at(BAD_VALUE, at));
    }
    Ok(word)
}

/// Overwrites `out` with the Set of these ascending words, which were read from a certificate.
fn overwrite_with_set(words: &[u32], out: &mut Val)
    requires some { 1 ≤ length words.now }
    requires few { length words.now ≤ 128 }
    requires rising { IsStrictlyIncreasing words.now }
    ensures { out.new ≡ Set words.now }
{
    set_words(out, words);
}

/// Returns true if `x` is above the words of a certificate's Set that were read before, or if there
/// are none.
fn is_above_last_word(before: &[u32], x: u32) -> bool
    ensures { result ≡ is_above_last (last_number before.now) x }
{
    before.is_empty() || before[before.len() - 1] < x
}

/// Reads the two ends of a Span of this step at the cursor into `out`. A Span that the format
/// `version` forbids is a fault at offset `start`, where the value began.
#[tactic(auto, unfolding(crate::specs::Grammar::span_at))]
fn read_span(
    c: &mut FileCursor<'_>,
    version: u8,
    step: u8,
    start: usize,
    out: &mut Val,
) -> Result<(), FormErr>
    requires step { step ≤ 2 }
    requires start { start ≤ 2 ^ 30 }
    ensures ok { OnOk result
        (span_at version step (place_moved_to c.old start) c.old ≡ Ok (out.new, c.new)) }
    ensures err { IfErr result
        (λ e. span_at version step (place_moved_to c.old start) c.old ≡ Err e) }
    ensures bytes { c.new.bytes ≡ c.old.bytes }
{
    let lo = read_u32(c)?;
    let last = read_u32(c)?;
    if !is_cert_span(version, lo, last, step) {
        return Err(form_err_at(BAD_VALUE, start));
    }
    set_span(out, lo, last, step);
    Ok(())
}

/// Returns true if a certificate of format `version` may spell the Span `lo` to `last` of this
/// step. Such a Span has more members than a Set can have, but not all words.
fn is_cert_span(version: u8, lo: u32, last: u32, step: u8) -> bool
    requires { step ≤ 2 }
    ensures { result ≡ is_cert_span version lo last step }
{
    let width = if version == 1 { 64 } else { 128 };
    width < span_len(lo, last, step) && !(lo == 0 && last == u32::MAX && step == 0)
}
