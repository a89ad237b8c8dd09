// One page: its bytes, their bits, and what reads and writes them.
ghost use Rattle.std.specs.Prelude.{◌≡◌, ◌<◌, ◌≤◌, ◌+◌, ◌==◌, [], ◌∷◌, ℕ, ◌*◌, ◌/◌, ◌%◌, ◌^◌, All, IfSome, is_some, length, true, slice_index, slice_set, if◌then◌else◌, ◌||◌, ◌&&◌, nat_le, nat_lt, false, Some, None};
ghost use Rattle.tcd_base.specs.Bytes.{word_in_bytes, half_in_bytes};
ghost use Rattle.tc_mem.specs.Pages.{is_page_bit_set, page_byte_at, page_bytes_with_words, page_bytes_with, page_bytes_with_half, are_page_bits_set, is_block_mapped, BlockBitsFitWord, IsPage};
ghost use Rattle.tcd_base.specs.Ranges.{is_address_in_range, is_address_in_ranges};

use std::marker::Model;
use tcd_base::Range;

/// A page of 4,096 bytes: its first address divided by 4,096, the bits that say which bytes are
/// mapped (64 to a word, the lowest first), and the bytes.
#[derive(Drop)]
pub(crate) struct Page {
    pub number: u32,
    pub mapped: [u64; 64],
    pub bytes: [u8; 4096],
}

// Returns the byte of a page at an address, or `None` if that byte isn't mapped.
pub(crate) fn page_byte_at(page: &Page, addr: u32) -> Option<u8>
    requires { page.now.number ≡ addr / 4096 }
    ensures { result ≡ page_byte_at addr page.now }
{
    let offset = (addr % 4096) as usize;
    if is_page_byte_mapped(page, offset) {
        Some(page.bytes[offset])
    } else {
        None
    }
}

// Writes the byte at an offset of a page. If unmapped, the answer is false, and nothing changes.
pub(crate) fn write_page_byte(page: &mut Page, offset: usize, byte: u8) -> bool
    requires { offset < 4096 }
    ensures mapped { result ≡ is_page_bit_set page.old.mapped offset }
    ensures written { page.new
        ≡ record page.old {
          bytes = if result then slice_set page.old.bytes offset byte
              else page.old.bytes;
        } }
{
    let mapped = is_page_byte_mapped(page, offset);
    if mapped {
        page.bytes[offset] = byte;
    }
    mapped
}

// Writes bytes to a page from an offset on, mapped or not: nobody reads an unmapped one.
pub(crate) fn write_page_bytes(page: &mut Page, offset: usize, bytes: &[u8])
    requires { offset + length bytes.now ≤ 4096 }
    ensures written { page.new
        ≡ record page.old { bytes = page_bytes_with page.old.bytes offset bytes.now } }
    ensures small { All (λ b. b < 2 ^ 8) bytes.now }
{
    page.bytes[offset..offset + bytes.len()].copy_from_slice(bytes);
}

// Returns the word of four bytes of a page from an offset on, the lowest byte first.
pub(crate) fn page_word(bytes: &[u8; 4096], offset: usize) -> u32
    requires { offset + 4 ≤ 4096 }
    ensures { result ≡ word_in_bytes bytes.now offset }
{
    u32::from_le_bytes([
        bytes[offset],
        bytes[offset + 1],
        bytes[offset + 2],
        bytes[offset + 3],
    ])
}

// Writes a word to four bytes of a page from an offset on, the lowest byte first.
#[tactic(auto, unfolding(crate::specs::Pages::page_bytes_with_words))]
pub(crate) fn write_page_word(bytes: &mut [u8; 4096], offset: usize, word: u32)
    requires { offset + 4 ≤ 4096 }
    ensures { bytes.new ≡ page_bytes_with_words bytes.old offset (word ∷ []) }
{
    let parts = word.to_le_bytes();
    bytes[offset] = parts[0];
    bytes[offset + 1] = parts[1];
    bytes[offset + 2] = parts[2];
    bytes[offset + 3] = parts[3];
}

// Returns the 16 words of the context save area (64 bytes) at an offset of a page, or `None` unless
// all its bytes are mapped.
pub(crate) fn area_in_page(page: &Page, offset: usize) -> Option<[u32; 16]>
    requires aligned { offset % 64 ≡ 0 }
    requires within { offset < 4096 }
    ensures fits { BlockBitsFitWord page.now.mapped offset }
    ensures mapped { is_some result ≡ is_block_mapped page.now.mapped offset }
    ensures size { IfSome result (λ ws. length ws ≡ 16) }
    ensures words { IfSome result
        (λ ws. (k : ℕ) → k < 16 → slice_index ws k
        ≡ word_in_bytes page.now.bytes (offset + 4 * k)) }
{
    if page.mapped[offset / 64] != u64::MAX {
        return None;
    }
    Some(page_words(&page.bytes, offset))
}

// Writes 16 words to the context save area (64 bytes) at an offset of a page. If one of the bytes
// isn't mapped, the answer is false, and nothing changes.
pub(crate) fn write_area_in_page(page: &mut Page, offset: usize, words: &[u32; 16]) -> bool
    requires aligned { offset % 64 ≡ 0 }
    requires within { offset < 4096 }
    ensures fits { BlockBitsFitWord page.old.mapped offset }
    ensures mapped { result ≡ is_block_mapped page.old.mapped offset }
    ensures written { page.new
        ≡ record page.old {
          bytes = if result then page_bytes_with_words page.old.bytes offset words.now
              else page.old.bytes;
        } }
{
    let mapped = page.mapped[offset / 64] == u64::MAX;
    if mapped {
        write_page_words(&mut page.bytes, offset, words);
    }
    mapped
}

// Returns the first word of the context save area (64 bytes) at an offset of a page, or `None`
// unless all its bytes are mapped.
pub(crate) fn area_first_word_in_page(page: &Page, offset: usize) -> Option<u32>
    requires aligned { offset % 64 ≡ 0 }
    requires within { offset < 4096 }
    ensures fits { BlockBitsFitWord page.now.mapped offset }
    ensures mapped { is_some result ≡ is_block_mapped page.now.mapped offset }
    ensures word { IfSome result (λ w. w ≡ word_in_bytes page.now.bytes offset) }
{
    let mapped = page.mapped[offset / 64] == u64::MAX;
    if mapped {
        Some(page_word(&page.bytes, offset))
    } else {
        None
    }
}

// Returns the word of the four bytes of a page from an offset on, the lowest byte first. If one of
// them isn't mapped, or they cross a multiple of 64, the answer is `None`.
pub(crate) fn mapped_page_word(page: &Page, offset: usize) -> Option<u32>
    requires { offset + 4 ≤ 4096 }
    ensures mapped { is_some result ≡ are_page_bits_set 4 page.now.mapped offset }
    ensures word { IfSome result (λ w. w ≡ word_in_bytes page.now.bytes offset) }
{
    if is_page_word_mapped(page, offset) {
        Some(page_word(&page.bytes, offset))
    } else {
        None
    }
}

// Returns the halfword of the two bytes of a page from an offset on, the lower byte first. If one
// of them isn't mapped, or they cross a multiple of 64, the answer is `None`.
pub(crate) fn mapped_page_half(page: &Page, offset: usize) -> Option<u16>
    requires { offset + 2 ≤ 4096 }
    ensures mapped { is_some result ≡ are_page_bits_set 2 page.now.mapped offset }
    ensures half { IfSome result (λ h. h ≡ half_in_bytes page.now.bytes offset) }
{
    if is_page_half_mapped(page, offset) {
        Some(page_half(&page.bytes, offset))
    } else {
        None
    }
}

// Writes a word to the four bytes of a page from an offset on, the lowest byte first. If one of
// them isn't mapped, or they cross a multiple of 64, the answer is false, and nothing changes.
pub(crate) fn write_mapped_page_word(page: &mut Page, offset: usize, word: u32) -> bool
    requires { offset + 4 ≤ 4096 }
    ensures mapped { result ≡ are_page_bits_set 4 page.old.mapped offset }
    ensures written { page.new
        ≡ record page.old {
          bytes = if result then page_bytes_with_words page.old.bytes offset (word ∷ [])
              else page.old.bytes;
        } }
{
    let mapped = is_page_word_mapped(page, offset);
    if mapped {
        write_page_word(&mut page.bytes, offset, word);
    }
    mapped
}

// Writes a halfword to the two bytes of a page from an offset on, the lower byte first. If one of
// them isn't mapped, or they cross a multiple of 64, the answer is false, and nothing changes.
pub(crate) fn write_mapped_page_half(page: &mut Page, offset: usize, half: u16) -> bool
    requires { offset + 2 ≤ 4096 }
    ensures mapped { result ≡ are_page_bits_set 2 page.old.mapped offset }
    ensures written { page.new
        ≡ record page.old {
          bytes = if result then page_bytes_with_half page.old.bytes offset half
              else page.old.bytes;
        } }
{
    let mapped = is_page_half_mapped(page, offset);
    if mapped {
        write_page_half(&mut page.bytes, offset, half);
    }
    mapped
}

// Maps the bytes that a range of addresses has in the page with this number (its first address /
// 4,096): sets their bits in `mapped`.
pub(crate) fn set_page_bits_of_range(mapped: &mut [u64; 64], number: u32, range: &Range)
    ensures { (k : ℕ) → k < 4096
        → is_page_bit_set mapped.new k
        ≡ (is_page_bit_set mapped.old k || is_address_in_range range.now (number * 4096 + k)) }
{
    let base = u64::from(number) * 4096;
    let from = u64::from(range.at).max(base);
    let to = (u64::from(range.at) + u64::from(range.len)).min(base + 4096);
    if from < to {
        set_page_bits_between(mapped, (from - base) as usize, (to - base) as usize);
    }
}

/// Returns the bytes of a new page, all zero.
pub(crate) fn zero_page_bytes() -> [u8; 4096]
    ensures size { length result ≡ 4096 }
    ensures zeros { (k : ℕ) → k < 4096 → slice_index result k ≡ 0 }
    ensures small { (k : ℕ) → slice_index result k < 256 }
{
    [0; 4096]
}

// Returns the bits of a page in which nothing is mapped.
pub(crate) fn unmapped_page_bits() -> [u64; 64]
    ensures size { length result ≡ 64 }
    ensures clear { (k : ℕ) → k < 4096 → is_page_bit_set result k ≡ false }
{
    [0; 64]
}

// Returns the page with this number (its first address / 4,096), all zero, in which the bytes of
// the ranges are mapped.
pub(crate) fn new_page(number: u32, ranges: &[Range]) -> Page
    ensures number { result.number ≡ number }
    ensures page { IsPage result }
    ensures small { (k : ℕ) → slice_index result.bytes k < 256 }
    ensures zeros { (q : ℕ) → q / 4096 ≡ number
        → page_byte_at q result ≡ (if is_address_in_ranges ranges.now q then Some 0 else None) }
{
    let mut mapped = unmapped_page_bits();
    for range in ranges {
        set_page_bits_of_range(&mut mapped, number, range);
    }
    Page {
        number,
        mapped,
        bytes: zero_page_bytes(),
    }
}

// Returns true if the byte at an offset of a page is mapped.
fn is_page_byte_mapped(page: &Page, offset: usize) -> bool
    requires { offset < 4096 }
    ensures { result ≡ is_page_bit_set page.now.mapped offset }
{
    (page.mapped[offset / 64] >> (offset % 64)) % 2 == 1
}

// Returns the 16 words of a page from an offset on, mapped or not, each lowest byte first.
fn page_words(bytes: &[u8; 4096], offset: usize) -> [u32; 16]
    requires { offset + 64 ≤ 4096 }
    ensures size { length result ≡ 16 }
    ensures words { (k : ℕ) → k < 16 → slice_index result k
        ≡ word_in_bytes bytes.now (offset + 4 * k) }
{
    let mut words = [0; 16];
    for i in 0..16 {
        words[i] = page_word(bytes, offset + 4 * i);
    }
    words
}

// Writes 16 words to a page from an offset on, mapped or not, each lowest byte first.
fn write_page_words(bytes: &mut [u8; 4096], offset: usize, words: &[u32; 16])
    requires { offset + 64 ≤ 4096 }
    ensures { bytes.new ≡ page_bytes_with_words bytes.old offset words.now }
{
    let mut i = 16;
    while i > 0 {
        i -= 1;
        write_page_word(bytes, offset + 4 * i, words[i]);
    }
}

// Returns true if the four bytes from an offset on are mapped and cross no multiple of 64.
fn is_page_word_mapped(page: &Page, offset: usize) -> bool
    requires { offset < 4096 }
    ensures { result ≡ are_page_bits_set 4 page.now.mapped offset }
{
    (page.mapped[offset / 64] >> (offset % 64)) % 16 == 15
}

// Returns true if the two bytes from an offset on are mapped and cross no multiple of 64.
fn is_page_half_mapped(page: &Page, offset: usize) -> bool
    requires { offset < 4096 }
    ensures { result ≡ are_page_bits_set 2 page.now.mapped offset }
{
    (page.mapped[offset / 64] >> (offset % 64)) % 4 == 3
}

// Returns the halfword of two bytes of a page from an offset on, the lower byte first.
fn page_half(bytes: &[u8; 4096], offset: usize) -> u16
    requires { offset + 2 ≤ 4096 }
    ensures { result ≡ half_in_bytes bytes.now offset }
{
    u16::from_le_bytes([bytes[offset], bytes[offset + 1]])
}

// Writes a halfword to two bytes of a page from an offset on, the lower byte first.
fn write_page_half(bytes: &mut [u8; 4096], offset: usize, half: u16)
    requires { offset + 2 ≤ 4096 }
    ensures { bytes.new ≡ page_bytes_with_half bytes.old offset half }
{
    let parts = half.to_le_bytes();
    bytes[offset] = parts[0];
    bytes[offset + 1] = parts[1];
}

/// Maps the bytes of a page at offsets from `from` to before `to`: sets their bits in `mapped`.
/// Those of a whole page are set at once.
fn set_page_bits_between(mapped: &mut [u64; 64], from: usize, to: usize)
    requires ordered { from ≤ to }
    requires within { to ≤ 4096 }
    ensures { (k : ℕ) → k < 4096
        → is_page_bit_set mapped.new k
        ≡ (is_page_bit_set mapped.old k || (nat_le from k && nat_lt k to)) }
{
    if to - from == 4096 {
        *mapped = mapped_page_bits();
        return;
    }
    let mut offset = from;
    while offset < to {
        if offset % 64 == 0 && to - offset >= 64 {
            set_page_bit_block(mapped, offset);
            offset += 64;
        } else {
            set_page_bit(mapped, offset);
            offset += 1;
        }
    }
}

// Returns the bits of a page that is wholly mapped.
fn mapped_page_bits() -> [u64; 64]
    ensures size { length result ≡ 64 }
    ensures set { (k : ℕ) → k < 4096 → is_page_bit_set result k ≡ true }
{
    [u64::MAX; 64]
}

// Maps the 64 bytes of a page from an offset on: sets their bits, which are one `u64` of `mapped`.
fn set_page_bit_block(mapped: &mut [u64; 64], offset: usize)
    requires aligned { offset % 64 ≡ 0 }
    requires within { offset < 4096 }
    ensures { (k : ℕ) → k < 4096 → is_page_bit_set mapped.new k
        ≡ (is_page_bit_set mapped.old k || (nat_le offset k && nat_lt k (offset + 64))) }
{
    mapped[offset / 64] = u64::MAX;
}

/// Maps the byte at an offset of a page: sets its bit in `mapped`.
fn set_page_bit(mapped: &mut [u64; 64], offset: usize)
    requires { offset < 4096 }
    ensures { (k : ℕ) → k < 4096 → is_page_bit_set mapped.new k
        ≡ (is_page_bit_set mapped.old k || (k == offset)) }
{
    mapped[offset / 64] |= 1u64 << (offset % 64);
}
