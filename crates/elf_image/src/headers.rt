// Reads the fields of an ELF file by their offsets.
ghost use Rattle.std.specs.Prelude.{◌≡◌, ◌+◌, ◌*◌, ◌≤◌, ◌<◌, ◌^◌, length, ◌-◌, ◌⊎◌, None, IfOk, IfErr, true, false};
ghost use Rattle.elf_image.specs.ReadElf.{elf_half_at, elf_word_at, program_header_offset, program_header_at, loads_file_bytes, program_header_refusal, loading_headers, exceeds_image_limits};

use crate::ImageErr;
use std::alloc::Global;

/// The offset of the kind of file in the ELF header.
pub(crate) const E_TYPE: usize = 16;

/// The offset of the machine in the ELF header.
pub(crate) const E_MACHINE: usize = 18;

/// The offset of the address at which the program begins in the ELF header.
pub(crate) const E_ENTRY: usize = 24;

/// The offset of the place of the program headers in the ELF header.
const E_PHOFF: usize = 28;

/// The offset of the size of a program header in the ELF header.
pub(crate) const E_PHENTSIZE: usize = 42;

/// The offset of the number of program headers in the ELF header.
pub(crate) const E_PHNUM: usize = 44;

/// The kind of file: an executable.
pub(crate) const ET_EXEC: u16 = 2;

/// The machine: TriCore.
pub(crate) const EM_TRICORE: u16 = 44;

/// The type of a program header whose bytes are loaded.
pub(crate) const PT_LOAD: u32 = 1;

/// A program header, with its number in the file.
#[derive(Clone, Copy)]
pub(crate) struct Header {
    pub(crate) number: u32,
    pub(crate) kind: u32,
    pub(crate) offset: u32,
    pub(crate) address: u32,
    pub(crate) file_size: u32,
    pub(crate) memory_size: u32,
}

/// Returns the two bytes at offset `at` of an ELF file as a number, the least significant first
/// (Elf32_Half).
#[tactic(auto, unfolding(crate::specs::ReadElf::elf_half_at))]
pub(crate) fn elf_half_at(bytes: &[u8], at: usize) -> u16
    requires { at + 2 ≤ length bytes.now }
    ensures { result ≡ elf_half_at bytes.now at }
{
    u16::from_le_bytes([bytes[at], bytes[at + 1]])
}

/// Returns the four bytes at offset `at` of an ELF file as a number, the least significant first
/// (Elf32_Word).
#[tactic(auto, unfolding(crate::specs::ReadElf::elf_word_at))]
pub(crate) fn elf_word_at(bytes: &[u8], at: usize) -> u32
    requires { at + 4 ≤ length bytes.now }
    ensures { result ≡ elf_word_at bytes.now at }
{
    u32::from_le_bytes([bytes[at], bytes[at + 1], bytes[at + 2], bytes[at + 3]])
}

// Returns the byte offset in the file of the program header with this number, from 0.
pub(crate) fn program_header_offset(bytes: &[u8], number: u16) -> usize
    requires { 52 ≤ length bytes.now }
    ensures place { result ≡ program_header_offset bytes.now number }
    ensures small { result < 2 ^ 33 }
{
    elf_word_at(bytes, E_PHOFF) as usize + 32 * number as usize
}

// Returns the program header with this number, from 0, which is wholly in the file.
#[tactic(auto, unfolding(crate::specs::ReadElf::program_header_at))]
pub(crate) fn program_header_at(bytes: &[u8], number: u16) -> Header
    requires long { 52 ≤ length bytes.now }
    requires whole { program_header_offset bytes.now number + 32 ≤ length bytes.now }
    ensures { result ≡ program_header_at bytes.now number }
{
    let place = program_header_offset(bytes, number);
    Header {
        number: u32::from(number),
        kind: elf_word_at(bytes, place),
        offset: elf_word_at(bytes, place + 4),
        address: elf_word_at(bytes, place + 12),
        file_size: elf_word_at(bytes, place + 16),
        memory_size: elf_word_at(bytes, place + 20),
    }
}

// Returns true if the program header is of type PT_LOAD and has bytes in the file.
#[tactic(auto, unfolding(crate::specs::ReadElf::loads_file_bytes))]
pub(crate) fn loads_file_bytes(header: &Header) -> bool
    ensures { result ≡ loads_file_bytes header.now }
{
    header.kind == PT_LOAD && header.file_size > 0
}

// Returns the program headers of an ELF file that load bytes, in order. The error is `TooLarge` for
// more than 64 of them, or more than 2^24 bytes.
pub(crate) fn loading_headers(alloc: Global, bytes: &[u8]) -> Result<Vec<Header>, ImageErr>
    requires long { 52 ≤ length bytes.now }
    requires good { program_header_refusal bytes.now ≡ None }
    ensures ok { IfOk result (λ v. (v.items ≡ loading_headers bytes.now)
        × (exceeds_image_limits (loading_headers bytes.now) ≡ false)) }
    ensures err { IfErr result (λ e.
        (e ≡ ImageErr.NoMemory)
        ⊎ ((e ≡ ImageErr.TooLarge) × (exceeds_image_limits (loading_headers bytes.now) ≡ true))) }
{
    let mut loads = Vec::new(alloc);
    let mut total = 0u32;
    let count = elf_half_at(bytes, E_PHNUM);
    for number in 0..count {
        let header = program_header_at(bytes, number);
        if loads_file_bytes(&header) {
            if loads.len() == 64 || header.file_size > 16_777_216 - total {
                return Err(ImageErr::TooLarge);
            }
            total += header.file_size;
            loads.push(header)?;
        }
    }
    Ok(loads)
}
