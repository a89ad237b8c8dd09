// The checks of an ELF file, in their order.
ghost use Rattle.std.specs.Prelude.{◌≡◌, ◌+◌, ◌≤◌, ◌<◌, length, find, Option, Some, None, OnOk, ◌-◌, true};
ghost use Rattle.std.specs.Result.{result_err};
ghost use Rattle.std.specs.Option.{option_map};
ghost use Rattle.elf_image.specs.ReadElf.{program_headers_of, is_bad_header, elf_header_refusal, program_header_refusal, has_overlap_with, overlap_refusal, has_bytes_out_of_bounds, program_header_offset, program_header_at};

use crate::ImageErr;
use crate::headers::{
    E_MACHINE, E_PHENTSIZE, E_PHNUM, E_TYPE, EM_TRICORE, ET_EXEC, Header, PT_LOAD, elf_half_at,
    program_header_at, program_header_offset,
};

// Checks that a file begins with the header of a 32-bit little-endian ELF executable for TriCore.
#[tactic(auto, unfolding(crate::specs::ReadElf::elf_header_refusal))]
pub(crate) fn check_elf_header(bytes: &[u8]) -> Result<(), ImageErr>
    ensures refusal { result_err result ≡ elf_header_refusal bytes.now }
    ensures long { OnOk result (52 ≤ length bytes.now) }
{
    if bytes.len() < 52 {
        return Err(ImageErr::Short);
    }
    if !bytes.starts_with(&[127, 69, 76, 70, 1, 1]) {
        return Err(ImageErr::NotElf32Le);
    }
    if elf_half_at(bytes, E_MACHINE) != EM_TRICORE {
        return Err(ImageErr::NotTriCore);
    }
    if elf_half_at(bytes, E_TYPE) != ET_EXEC {
        return Err(ImageErr::NotExec);
    }
    Ok(())
}

// Checks that each program header of an ELF file has 32 bytes, is wholly in the file, and loads
// bytes within bounds. The error names the first that doesn't.
#[tactic(auto, unfolding(crate::specs::ReadElf::program_header_refusal))]
pub(crate) fn check_program_headers(bytes: &[u8]) -> Result<(), ImageErr>
    requires { 52 ≤ length bytes.now }
    ensures { result_err result ≡ program_header_refusal bytes.now }
{
    if elf_half_at(bytes, E_PHNUM) > 0 && elf_half_at(bytes, E_PHENTSIZE) != 32 {
        return Err(ImageErr::BadSegment(0));
    }
    match first_bad_header(bytes) {
        Some(number) => Err(ImageErr::BadSegment(number)),
        None => Ok(()),
    }
}

// Checks that no two of the program headers `loads` load bytes to the same address. The error has
// the numbers of the first two that do.
#[tactic(auto, unfolding(crate::specs::ReadElf::overlap_refusal))]
pub(crate) fn check_no_segment_overlap(loads: &[Header]) -> Result<(), ImageErr>
    ensures { result_err result ≡ overlap_refusal loads.now }
{
    for (i, header) in loads.iter().enumerate() {
        if let Some(other) = first_overlapping_header(header, &loads[i + 1..]) {
            return Err(ImageErr::Overlap(header.number, other));
        }
    }
    Ok(())
}

/// Returns true if the bytes that a program header loads pass the file's end (`len`), address 2^32
/// or the header's memory size.
pub(crate) fn has_bytes_out_of_bounds(len: usize, header: &Header) -> bool
    ensures { result ≡ has_bytes_out_of_bounds len header.now }
{
    let size = u64::from(header.file_size);
    u64::from(header.offset) + size > len as u64
        || u64::from(header.address) + size > 1 << 32
        || header.memory_size < header.file_size
}

// Returns true if program header `number`, from 0, isn't wholly in the file, or is PT_LOAD with
// bytes past the file's end, 2^32 or its memory size.
#[tactic(auto, unfolding(crate::specs::ReadElf::is_bad_header, crate::specs::ReadElf::program_header_at))]
pub(crate) fn is_bad_header(bytes: &[u8], number: u16) -> bool
    requires { 52 ≤ length bytes.now }
    ensures { result ≡ is_bad_header bytes.now (program_header_at bytes.now number) }
{
    if program_header_offset(bytes, number) + 32 > bytes.len() {
        return true;
    }
    let header = program_header_at(bytes, number);
    header.kind == PT_LOAD && has_bytes_out_of_bounds(bytes.len(), &header)
}

/// Returns true if the bytes that two program headers load overlap in memory.
#[tactic(auto, unfolding(crate::specs::ReadElf::has_overlap_with))]
pub(crate) fn has_overlap_with(header: &Header, other: &Header) -> bool
    ensures { result ≡ has_overlap_with header.now other.now }
{
    let (at, other_at) = (u64::from(header.address), u64::from(other.address));
    at < other_at + u64::from(other.file_size) && other_at < at + u64::from(header.file_size)
}

// Returns the number of the first program header that is cut off or has bytes that pass a bound, or
// None if all are good.
fn first_bad_header(bytes: &[u8]) -> Option<u32>
    requires { 52 ≤ length bytes.now }
    ensures { result ≡ option_map (λ h. h.number)
        (find (is_bad_header bytes.now) (program_headers_of bytes.now)) }
{
    let count = elf_half_at(bytes, E_PHNUM);
    for number in 0..count {
        if is_bad_header(bytes, number) {
            return Some(u32::from(number));
        }
    }
    None
}

// Returns the number in the file of the first of `others` that loads a byte to an address of
// `header`, or None.
fn first_overlapping_header(header: &Header, others: &[Header]) -> Option<u32>
    ensures { result ≡ option_map (λ k. k.number) (find (has_overlap_with header.now) others.now) }
{
    for other in others {
        if has_overlap_with(header, other) {
            return Some(other.number);
        }
    }
    None
}
