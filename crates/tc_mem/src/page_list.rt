// Reads and writes on the sorted list of pages of a `Mem`.
ghost use Rattle.std.specs.Prelude.{◌≡◌, ◌≤◌, ◌+◌, ◌%◌, ◌^◌, IfOk, length, ◌<◌, ◌/◌, Some, None, ◌-◌, false, ◌*◌};
ghost use Rattle.std.specs.Bool.{OnFalse};
ghost use Rattle.std.specs.FinMap as finite;
ghost use Rattle.csa_chain.specs.MemoryBytes.{are_mapped, with_byte, HasOnlyBytes, is_mapped};
ghost use Rattle.tc_mem.specs.Areas.{mapped_area_words, memory_with_area, area_first_word};
ghost use Rattle.tc_mem.specs.Blocks.{are_mapped_in_block, mapped_word_in_block, mapped_half_in_block, with_word_in_block, with_half_in_block};
ghost use Rattle.tc_mem.specs.Pages.{memory_of, AreMemoryPages};
ghost use Rattle.tc_mem.specs.PlanMemory.{IsMemoryOfZeros};
ghost use Rattle.tc_mem.specs.Written.{IsMemoryWritten};

use crate::page::{
    Page, area_first_word_in_page, area_in_page, mapped_page_half, mapped_page_word, new_page,
    page_byte_at, write_area_in_page, write_mapped_page_half, write_mapped_page_word,
    write_page_byte, write_page_bytes,
};
use crate::page_numbers::{find_page, find_page_near, page_numbers};
use std::alloc::Global;
use std::marker::Model;
use tcd_base::{NoMemory, Range};

/// Returns the byte at an address, or `None` if unmapped. `near` guesses the index of its page.
pub(crate) fn read_memory_byte(pages: &[Page], addr: u32, near: usize) -> Option<u8>
    requires { AreMemoryPages pages.now }
    ensures byte { result ≡ finite.get (memory_of pages.now) addr }
    ensures bytes { HasOnlyBytes (memory_of pages.now) }
{
    let Some(i) = find_page(pages, addr / 4096, near) else {
        return None;
    };
    page_byte_at(&pages[i], addr)
}

/// Writes bytes from an address on, all in one page, for `Mem::set_bytes`. Those that aren't mapped
/// are dropped.
pub(crate) fn write_bytes_in_page(pages: &mut [Page], addr: u32, bytes: &[u8])
    requires pages { AreMemoryPages pages.old }
    requires within { addr % 4096 + length bytes.now ≤ 4096 }
    ensures written { IsMemoryWritten (memory_of pages.old) addr bytes.now (memory_of pages.new) }
    ensures pages { AreMemoryPages pages.new }
{
    let Some(i) = find_page(pages, addr / 4096, 0) else {
        return;
    };
    write_page_bytes(&mut pages[i], (addr % 4096) as usize, bytes);
}

/// Returns the word at an address, or `None` if one of its bytes isn't mapped or they cross a
/// multiple of 64. `near` guesses the page's index in `pages`.
pub(crate) fn read_memory_word(pages: &[Page], addr: u32, near: usize) -> Option<u32>
    requires { AreMemoryPages pages.now }
    ensures word { result ≡ mapped_word_in_block (memory_of pages.now) addr }
    ensures bytes { HasOnlyBytes (memory_of pages.now) }
{
    if addr % 64 > 60 {
        return None;
    }
    let Some(i) = find_page(pages, addr / 4096, near) else {
        return None;
    };
    mapped_page_word(&pages[i], (addr % 4096) as usize)
}

/// Returns the halfword at an address, or `None` if one of its bytes isn't mapped or they cross a
/// multiple of 64. `near` guesses the page's index in `pages`.
pub(crate) fn read_memory_half(pages: &[Page], addr: u32, near: usize) -> Option<u16>
    requires { AreMemoryPages pages.now }
    ensures half { result ≡ mapped_half_in_block (memory_of pages.now) addr }
    ensures bytes { HasOnlyBytes (memory_of pages.now) }
{
    if addr % 64 > 62 {
        return None;
    }
    let Some(i) = find_page(pages, addr / 4096, near) else {
        return None;
    };
    mapped_page_half(&pages[i], (addr % 4096) as usize)
}

/// Writes a byte, or returns false if unmapped. `near` guesses its page's index in `pages`.
pub(crate) fn write_memory_byte(pages: &mut [Page], addr: u32, byte: u8, near: usize) -> bool
    requires { AreMemoryPages pages.old }
    ensures mapped { result ≡ is_mapped (memory_of pages.old) addr }
    ensures written { memory_of pages.new ≡ with_byte (memory_of pages.old) addr byte }
    ensures kept { OnFalse result (memory_of pages.new ≡ memory_of pages.old) }
    ensures pages { AreMemoryPages pages.new }
    ensures bytes { HasOnlyBytes (memory_of pages.new) }
{
    let Some(i) = find_page(pages, addr / 4096, near) else {
        return false;
    };
    write_page_byte(&mut pages[i], (addr % 4096) as usize, byte)
}

/// Writes bytes from an address on, page by page, for `Mem::set_bytes`. Those that aren't mapped
/// are dropped.
pub(crate) fn write_memory_bytes(pages: &mut [Page], addr: u32, bytes: &[u8])
    requires pages { AreMemoryPages pages.old }
    requires fits { addr + length bytes.now ≤ 2 ^ 32 }
    ensures written { IsMemoryWritten (memory_of pages.old) addr bytes.now (memory_of pages.new) }
    ensures pages { AreMemoryPages pages.new }
    ensures bytes { HasOnlyBytes (memory_of pages.new) }
{
    let mut done = 0;
    while done < bytes.len() {
        let at = addr + done as u32;
        let end = bytes.len().min(done + (4096 - at % 4096) as usize);
        write_bytes_in_page(pages, at, &bytes[done..end]);
        done = end;
    }
}

/// Writes a word, or returns false if one of its four bytes isn't mapped or they cross a multiple
/// of 64. `near` guesses the page's index in `pages`.
pub(crate) fn write_memory_word(pages: &mut [Page], addr: u32, word: u32, near: usize) -> bool
    requires { AreMemoryPages pages.old }
    ensures mapped { result ≡ are_mapped_in_block (memory_of pages.old) addr 4 }
    ensures written { memory_of pages.new ≡ with_word_in_block (memory_of pages.old) addr word }
    ensures pages { AreMemoryPages pages.new }
    ensures bytes { HasOnlyBytes (memory_of pages.new) }
{
    if addr % 64 > 60 {
        return false;
    }
    let Some(i) = find_page(pages, addr / 4096, near) else {
        return false;
    };
    write_mapped_page_word(&mut pages[i], (addr % 4096) as usize, word)
}

/// Writes a halfword, or returns false if one of its two bytes isn't mapped or they cross a
/// multiple of 64. `near` guesses the page's index in `pages`.
pub(crate) fn write_memory_half(pages: &mut [Page], addr: u32, half: u16, near: usize) -> bool
    requires { AreMemoryPages pages.old }
    ensures mapped { result ≡ are_mapped_in_block (memory_of pages.old) addr 2 }
    ensures written { memory_of pages.new ≡ with_half_in_block (memory_of pages.old) addr half }
    ensures pages { AreMemoryPages pages.new }
    ensures bytes { HasOnlyBytes (memory_of pages.new) }
{
    if addr % 64 > 62 {
        return false;
    }
    let Some(i) = find_page(pages, addr / 4096, near) else {
        return false;
    };
    write_mapped_page_half(&mut pages[i], (addr % 4096) as usize, half)
}

/// Returns the first word of a context save area (64 bytes), or `None` if one of the bytes isn't
/// mapped. `near` guesses the page's index in `pages`, and becomes that index if the page is there.
pub(crate) fn read_area_first_word(pages: &[Page], addr: u32, near: &mut usize) -> Option<u32>
    requires pages { AreMemoryPages pages.now }
    requires aligned { addr % 64 ≡ 0 }
    ensures word { result ≡ area_first_word (memory_of pages.now) addr }
    ensures bytes { HasOnlyBytes (memory_of pages.now) }
{
    let Some(i) = find_page_near(pages, addr / 4096, *near) else {
        return None;
    };
    *near = i;
    area_first_word_in_page(&pages[i], (addr % 4096) as usize)
}

/// Returns the 16 words of a context save area, or `None` if one of the 64 bytes isn't mapped.
/// `near` guesses the page's index in `pages`.
pub(crate) fn read_area(pages: &[Page], addr: u32, near: usize) -> Option<[u32; 16]>
    requires pages { AreMemoryPages pages.now }
    requires aligned { addr % 64 ≡ 0 }
    ensures words { result ≡ mapped_area_words (memory_of pages.now) addr }
    ensures bytes { HasOnlyBytes (memory_of pages.now) }
{
    let Some(i) = find_page(pages, addr / 4096, near) else {
        return None;
    };
    area_in_page(&pages[i], (addr % 4096) as usize)
}

/// Writes 16 words to a context save area, or returns false if one of the 64 bytes isn't mapped.
/// `near` guesses the page's index in `pages`, and becomes that index if the page is there.
pub(crate) fn write_area(pages: &mut [Page], addr: u32, words: &[u32; 16], near: &mut usize) -> bool
    requires pages { AreMemoryPages pages.old }
    requires aligned { addr % 64 ≡ 0 }
    ensures mapped { result ≡ are_mapped (memory_of pages.old) addr 64 }
    ensures written { memory_of pages.new ≡ memory_with_area (memory_of pages.old) addr words.now }
    ensures pages { AreMemoryPages pages.new }
    ensures bytes { HasOnlyBytes (memory_of pages.new) }
{
    let Some(i) = find_page(pages, addr / 4096, *near) else {
        return false;
    };
    *near = i;
    write_area_in_page(&mut pages[i], (addr % 4096) as usize, words)
}

/// Returns the pages of a new memory in which these ranges are mapped, all zero, for `Mem::of`.
/// Room for all pages is reserved first, so that no page is moved.
pub(crate) fn new_pages(alloc: Global, ranges: &[Range]) -> Result<Vec<Page>, NoMemory>
    ensures pages { IfOk result (λ v. AreMemoryPages v.items) }
    ensures bytes { IfOk result (λ v. HasOnlyBytes (memory_of v.items)) }
    ensures zeros { IfOk result (λ v. IsMemoryOfZeros ranges.now (memory_of v.items)) }
{
    let numbers = page_numbers(alloc, ranges)?;
    let mut pages = Vec::with_capacity(alloc, numbers.len())?;
    for number in &numbers {
        pages.push_reserved(new_page(*number, ranges));
    }
    Ok(pages)
}
