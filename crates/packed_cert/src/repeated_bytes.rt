// Fast path: how many bytes are equal at two places?
// From 1,024 bytes on they are compared as slices first. Where those differ, and below, they are
// compared eight at a time: 64 in a turn, then 16. A turn of 64 takes some 28 instructions.
ghost use Rattle.std.specs.Prelude.{◌≡◌, ◌≤◌, ◌<◌, ◌+◌, IsTrue, length, take, ◌-◌, IsFalse};
ghost use Rattle.packed_cert.specs.RepeatedBytes.{AreBytesRepeated, IsStartRepeatedAt, SkipsRepeatedBytes, double_word_in_bytes};

use crate::places::RepeatedState;
use crate::value_reader::FEW_BYTES;
use tcd_base::FileCursor;

/// Returns the length of the common prefix of two parts of a certificate: from offset `x` to before
/// `end`, and from `y` on.
pub(crate) fn count_repeated_before(bytes: &[u8], x: usize, y: usize, end: usize) -> usize
    requires first { x ≤ length bytes.now }
    requires second { y ≤ length bytes.now }
    ensures first { x + result ≤ length bytes.now }
    ensures second { y + result ≤ length bytes.now }
    ensures same { AreBytesRepeated bytes.now x y result }
{
    let n = end.min(bytes.len()).saturating_sub(x).min(bytes.len() - y);
    count_repeated_bytes(bytes, x, y, n)
}

/// Returns the length of the common prefix of the `n` bytes from offset `x` on and those from
/// offset `y` on. The contract promises a common prefix, not the longest.
pub(crate) fn count_repeated_bytes(bytes: &[u8], x: usize, y: usize, n: usize) -> usize
    requires first { x + n ≤ length bytes.now }
    requires second { y + n ≤ length bytes.now }
    ensures within { result ≤ n }
    ensures same { AreBytesRepeated bytes.now x y result }
{
    if n >= MANY_BYTES && are_bytes_repeated(bytes, x, y, n) {
        return n;
    }
    let blocks = count_repeated_by_blocks(bytes, x, y, n);
    let from = count_repeated_by_eights(bytes, x, y, blocks, n);
    if are_last_eight_repeated(bytes, x, y, from, n) {
        return n;
    }
    count_repeated_one_by_one(bytes, x, y, from, n)
}

/// At least this number of bytes is compared as slices first. That takes 17 instructions for 64
/// bytes, but doesn't tell where they differ.
const MANY_BYTES: usize = 1024;

/// Returns true only if the `n` bytes from offset `x` on equal those from offset `y` on.
fn are_bytes_repeated(bytes: &[u8], x: usize, y: usize, n: usize) -> bool
    requires first { x + n ≤ length bytes.now }
    requires second { y + n ≤ length bytes.now }
    ensures { IsTrue result → AreBytesRepeated bytes.now x y n }
{
    let first = &bytes[x..x + n];
    let second = &bytes[y..y + n];
    first == second
}

/// The number of bytes that are compared in a turn.
const BLOCK: usize = 64;

/// Returns how many of `n` bytes from `x` on equal those from `y` on, in whole blocks of 64 bytes.
#[inline(always)]
fn count_repeated_by_blocks(bytes: &[u8], x: usize, y: usize, n: usize) -> usize
    requires first { x + n ≤ length bytes.now }
    requires second { y + n ≤ length bytes.now }
    ensures within { result ≤ n }
    ensures same { AreBytesRepeated bytes.now x y result }
{
    let mut i = 0;
    while i + BLOCK <= n {
        if !is_block_repeated(bytes, x, y, i) {
            return i;
        }
        i += BLOCK;
    }
    i
}

/// Returns how many of `n` bytes from offset `x` on equal those from `y` on, eight by eight up to a
/// difference. The first `from` are known to be equal.
#[inline(always)]
fn count_repeated_by_eights(bytes: &[u8], x: usize, y: usize, from: usize, n: usize) -> usize
    requires first { x + n ≤ length bytes.now }
    requires second { y + n ≤ length bytes.now }
    requires from { from ≤ n }
    requires same { AreBytesRepeated bytes.now x y from }
    ensures within { result ≤ n }
    ensures same { AreBytesRepeated bytes.now x y result }
{
    let mut i = from;
    while i + 16 <= n {
        if !are_eight_bytes_repeated(bytes, x + i, y + i) {
            return i;
        }
        let k = i + 8;
        if !are_eight_bytes_repeated(bytes, x + k, y + k) {
            return k;
        }
        i = k + 8;
    }
    if i + 8 <= n && are_eight_bytes_repeated(bytes, x + i, y + i) {
        return i + 8;
    }
    i
}

/// Returns true only if the `n` bytes from offset `x` on equal those from `y` on. The first `from`
/// do; if at most eight follow, the last eight are compared, else the answer is false.
#[inline(always)]
fn are_last_eight_repeated(bytes: &[u8], x: usize, y: usize, from: usize, n: usize) -> bool
    requires first { x + n ≤ length bytes.now }
    requires second { y + n ≤ length bytes.now }
    requires same { AreBytesRepeated bytes.now x y from }
    ensures { IsTrue result → AreBytesRepeated bytes.now x y n }
{
    if n < 8 || n - 8 > from {
        return false;
    }
    are_eight_bytes_repeated(bytes, x + (n - 8), y + (n - 8))
}

/// Returns how many of `n` bytes from `x` on equal those from `y` on. The first `from` do.
#[inline(always)]
fn count_repeated_one_by_one(bytes: &[u8], x: usize, y: usize, from: usize, n: usize) -> usize
    requires first { x + n ≤ length bytes.now }
    requires second { y + n ≤ length bytes.now }
    requires from { from ≤ n }
    requires same { AreBytesRepeated bytes.now x y from }
    ensures within { result ≤ n }
    ensures same { AreBytesRepeated bytes.now x y result }
{
    let mut i = from;
    while i < n {
        if bytes[x + i] != bytes[y + i] {
            return i;
        }
        i += 1;
    }
    i
}

/// Skips `n` bytes of a certificate if they equal the `n` bytes from offset `x` on. Otherwise, or
/// if fewer are left, returns false, and the cursor stays.
#[inline(always)]
pub(crate) fn skip_if_repeated(c: &mut FileCursor<'_>, bytes: &[u8], x: usize, n: usize) -> bool
    requires same { c.old.bytes ≡ bytes.now }
    requires within { x + n ≤ length bytes.now }
    ensures moved { IsTrue result → SkipsRepeatedBytes bytes.now x n c.old c.new }
    ensures kept { IsFalse result → c.new ≡ c.old }
{
    let y = c.place();
    if n > bytes.len() - y {
        return false;
    }
    if n < FEW_BYTES {
        return count_repeated_bytes(bytes, x, y, n) == n && c.take(n).is_some();
    }
    let before = &bytes[x..x + n];
    let here = &bytes[y..y + n];
    before == here && c.take(n).is_some()
}

/// Returns the offset up to which the bytes of the values of `state` equal those of the next
/// state's. The next state begins at offset `start`, its values at offset `at`.
pub(crate) fn end_of_repeated(bytes: &[u8], state: RepeatedState, start: usize, at: usize) -> usize
    requires inside { at ≤ length bytes.now }
    requires values { state.at.values ≤ length bytes.now }
    requires again { IsStartRepeatedAt bytes.now start state }
    ensures from { state.at.values ≤ result }
    ensures first { result ≤ length bytes.now }
    ensures second { at + (result - state.at.values) ≤ length bytes.now }
    ensures same { AreBytesRepeated bytes.now state.at.values at (result - state.at.values) }
{
    let front = at.saturating_sub(start);
    if start + front == at && state.at.start + front == state.at.values && front < state.same {
        return state.at.start + state.same;
    }
    state.at.values + count_repeated_before(bytes, state.at.values, at, state.at.end)
}

/// Returns true only if the 64 bytes at `x + i` equal those at `y + i`. The `i` before them do.
#[inline(always)]
fn is_block_repeated(bytes: &[u8], x: usize, y: usize, i: usize) -> bool
    requires first { x + i + 64 ≤ length bytes.now }
    requires second { y + i + 64 ≤ length bytes.now }
    requires same { AreBytesRepeated bytes.now x y i }
    ensures { IsTrue result → AreBytesRepeated bytes.now x y (i + 64) }
{
    if !is_half_block_repeated(bytes, x, y, i) {
        return false;
    }
    is_half_block_repeated(bytes, x, y, i + 32)
}

/// Returns true only if the 32 bytes at `x + i` equal those at `y + i`. The `i` before them do.
#[inline(always)]
fn is_half_block_repeated(bytes: &[u8], x: usize, y: usize, i: usize) -> bool
    requires first { x + i + 32 ≤ length bytes.now }
    requires second { y + i + 32 ≤ length bytes.now }
    requires same { AreBytesRepeated bytes.now x y i }
    ensures { IsTrue result → AreBytesRepeated bytes.now x y (i + 32) }
{
    if !are_eight_bytes_repeated(bytes, x + i, y + i) {
        return false;
    }
    if !are_eight_bytes_repeated(bytes, x + (i + 8), y + (i + 8)) {
        return false;
    }
    if !are_eight_bytes_repeated(bytes, x + (i + 16), y + (i + 16)) {
        return false;
    }
    are_eight_bytes_repeated(bytes, x + (i + 24), y + (i + 24))
}

/// Returns true if the eight bytes from offset `x` on equal those from offset `y` on.
fn are_eight_bytes_repeated(bytes: &[u8], x: usize, y: usize) -> bool
    requires first { x + 8 ≤ length bytes.now }
    requires second { y + 8 ≤ length bytes.now }
    ensures { IsTrue result → double_word_in_bytes bytes.now x ≡ double_word_in_bytes bytes.now y }
{
    read_double_word(bytes, x) == read_double_word(bytes, y)
}

/// Returns the eight bytes at the offset `place` of a certificate as a number, little-endian.
#[inline(always)]
fn read_double_word(bytes: &[u8], place: usize) -> u64
    requires { place + 8 ≤ length bytes.now }
    ensures { result ≡ double_word_in_bytes bytes.now place }
{
    u64::from_le_bytes([
        bytes[place],
        bytes[place + 1],
        bytes[place + 2],
        bytes[place + 3],
        bytes[place + 4],
        bytes[place + 5],
        bytes[place + 6],
        bytes[place + 7],
    ])
}
