// The type `Mem`, a sorted list of pages, with its public functions.
ghost use Rattle.std.specs.Prelude.{◌≡◌, ◌≤◌, ◌+◌, ◌%◌, ◌^◌, All, IfOk, length, ◌<◌, ◌-◌};
ghost use Rattle.std.specs.Bool.{OnFalse};
ghost use Rattle.std.specs.FinMap as finite;
ghost use Rattle.csa_chain.specs.MemoryBytes.{is_mapped, are_mapped, with_byte, HasOnlyBytes};
ghost use Rattle.tc_mem.specs.Areas.{mapped_area_words, memory_with_area, area_first_word};
ghost use Rattle.tc_mem.specs.Blocks.{are_mapped_in_block, mapped_word_in_block, mapped_half_in_block, with_word_in_block, with_half_in_block};
ghost use Rattle.tc_mem.specs.Pages.{memory_of, AreMemoryPages};
ghost use Rattle.tc_mem.specs.PlanMemory.{IsMemoryOfZeros};
ghost use Rattle.tc_mem.specs.Written.{IsMemoryWritten};

use crate::page::{Page, page_byte_at};
use crate::page_list::{
    new_pages, read_area, read_area_first_word, read_memory_byte, read_memory_half,
    read_memory_word, write_area, write_memory_byte, write_memory_bytes, write_memory_half,
    write_memory_word,
};
use std::alloc::Global;
use std::marker::Model;
use tcd_base::{NoMemory, Range};

/// Bytes at addresses, as a sorted list of pages of 4,096 bytes. Each page has a bit for each byte:
/// it is set if the byte is mapped.
#[derive(Drop)]
pub struct Mem {
    pages: Vec<Page>,
    /// The place of the page to which an area was written last, near which the next one is. A hint.
    near: usize,
}

impl Model for Mem {
    ghost use Rattle.std.specs.FinMap as finite;
    ghost use Rattle.std.specs.Coded.{coded_ℕ};
    ghost use Rattle.csa_chain.specs.MemoryBytes.{Memory};
    ghost use Rattle.tc_mem.specs.Pages.{memory_of, AreMemoryPages};

    ghost Value = { Memory };

    ghost coded = { finite.code coded_ℕ coded_ℕ };

    ghost view = { λ m. memory_of m.pages.items };

    ghost invariant = { λ m. AreMemoryPages m.pages.items };
}

impl Mem {
    /// Returns a memory in which the bytes of the ranges, and no others, are mapped, all zero.
    pub fn of(alloc: Global, ranges: &[Range]) -> Result<Mem, NoMemory>
        requires { All (λ r. r.at + r.len ≤ 2 ^ 32) ranges.now }
        ensures zeros { IfOk result (λ m. IsMemoryOfZeros ranges.now m) }
        ensures bytes { IfOk result (λ m. HasOnlyBytes m) }
    {
        Ok(Mem {
            pages: new_pages(alloc, ranges)?,
            near: 0,
        })
    }

    /// Returns the byte at an address, or `None` if that byte isn't mapped.
    pub fn get(&self, addr: u32) -> Option<u8>
        ensures byte { result ≡ finite.get self.now addr }
        ensures bytes { HasOnlyBytes self.now }
    {
        read_memory_byte(&self.pages, addr, self.near)
    }

    /// Writes a mapped byte. If the byte isn't mapped, the answer is false, and nothing changes.
    pub fn set(&mut self, addr: u32, byte: u8) -> bool
        ensures mapped { result ≡ is_mapped self.old addr }
        ensures written { self.new ≡ with_byte self.old addr byte }
        ensures kept { OnFalse result (self.new ≡ self.old) }
        ensures bytes { HasOnlyBytes self.new }
    {
        write_memory_byte(&mut self.pages, addr, byte, self.near)
    }

    /// Writes bytes from an address on. Those at addresses that aren't mapped are dropped.
    pub fn set_bytes(&mut self, addr: u32, bytes: &[u8])
        requires { addr + length bytes.now ≤ 2 ^ 32 }
        ensures written { IsMemoryWritten self.old addr bytes.now self.new }
        ensures bytes { HasOnlyBytes self.new }
    {
        write_memory_bytes(&mut self.pages, addr, bytes);
    }

    /// Returns the 16 words of the context save area at an address, each with its lowest byte
    /// first. If one of the 64 bytes isn't mapped, the answer is `None`.
    pub fn area(&self, addr: u32) -> Option<[u32; 16]>
        requires { addr % 64 ≡ 0 }
        ensures words { result ≡ mapped_area_words self.now addr }
        ensures bytes { HasOnlyBytes self.now }
    {
        read_area(&self.pages, addr, self.near)
    }

    /// Writes 16 words to the context save area at an address, each with its lowest byte first. If
    /// one of the 64 bytes isn't mapped, the answer is false, and nothing changes.
    pub fn set_area(&mut self, addr: u32, words: &[u32; 16]) -> bool
        requires { addr % 64 ≡ 0 }
        ensures mapped { result ≡ are_mapped self.old addr 64 }
        ensures written { self.new ≡ memory_with_area self.old addr words.now }
        ensures kept { OnFalse result (self.new ≡ self.old) }
        ensures bytes { HasOnlyBytes self.new }
    {
        write_area(&mut self.pages, addr, words, &mut self.near)
    }

    /// Returns the word of the four bytes from an address on, its lowest byte first. If one of them
    /// isn't mapped, or they cross a multiple of 64, the answer is `None`.
    pub fn word(&self, addr: u32) -> Option<u32>
        ensures word { result ≡ mapped_word_in_block self.now addr }
        ensures bytes { HasOnlyBytes self.now }
    {
        read_memory_word(&self.pages, addr, self.near)
    }

    /// Returns the halfword of the two bytes from an address on, its lower byte first. If one of
    /// them isn't mapped, or they cross a multiple of 64, the answer is `None`.
    pub fn half(&self, addr: u32) -> Option<u16>
        ensures half { result ≡ mapped_half_in_block self.now addr }
        ensures bytes { HasOnlyBytes self.now }
    {
        read_memory_half(&self.pages, addr, self.near)
    }

    /// Writes a word to the four bytes from an address on, its lowest byte first. If one of them
    /// isn't mapped, or they cross a multiple of 64, the answer is false, and nothing changes.
    pub fn set_word(&mut self, addr: u32, word: u32) -> bool
        ensures mapped { result ≡ are_mapped_in_block self.old addr 4 }
        ensures written { self.new ≡ with_word_in_block self.old addr word }
        ensures bytes { HasOnlyBytes self.new }
    {
        write_memory_word(&mut self.pages, addr, word, self.near)
    }

    /// Writes a halfword to the two bytes from an address on, its lower byte first. If one of them
    /// isn't mapped, or they cross a multiple of 64, the answer is false, and nothing changes.
    pub fn set_half(&mut self, addr: u32, half: u16) -> bool
        ensures mapped { result ≡ are_mapped_in_block self.old addr 2 }
        ensures written { self.new ≡ with_half_in_block self.old addr half }
        ensures bytes { HasOnlyBytes self.new }
    {
        write_memory_half(&mut self.pages, addr, half, self.near)
    }

    /// Returns the first word of the save area at an address, or `None` if one of the 64 bytes
    /// isn't mapped. `near` is a hint, kept between calls: the page's index; any number is allowed.
    pub fn area_first_word(&self, addr: u32, near: &mut usize) -> Option<u32>
        requires { addr % 64 ≡ 0 }
        ensures word { result ≡ area_first_word self.now addr }
        ensures bytes { HasOnlyBytes self.now }
    {
        read_area_first_word(&self.pages, addr, near)
    }
}
