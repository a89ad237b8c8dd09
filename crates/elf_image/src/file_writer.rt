// Writes the ELF file of an image, part by part.
ghost use Rattle.std.specs.Prelude.{◌≡◌, ◌++◌, ◌≤◌, ◌^◌, length, map, OnOk, IfOk, IfErr};
ghost use Rattle.elf_image.specs.Images.{segment_data, total_segment_size};
ghost use Rattle.elf_image.specs.WrittenElf.{elf_header, program_header, program_headers, elf_contents, elf_contents_offset, elf_file};

use crate::{ImageErr, Segment};
use std::alloc::Global;

// Returns the ELF file of an image with these segments, whose program begins at the address
// `entry`.
#[tactic(auto, unfolding(crate::specs::WrittenElf::elf_file))]
pub(crate) fn elf_file(alloc: Global, entry: u32, segments: &[Segment]) -> Result<Vec<u8>, ImageErr>
    requires few { length segments.now ≤ 64 }
    requires small { total_segment_size (map segment_data segments.now) ≤ 2 ^ 24 }
    ensures ok { IfOk result (λ v.
        v.items ≡ elf_file (record { entry = entry; segments = map segment_data segments.now })) }
    ensures err { IfErr result (λ e. e ≡ ImageErr.NoMemory) }
{
    let mut out = Vec::new(alloc);
    let header = elf_header(entry, segments.len() as u16);
    out.extend_from_slice(&header)?;
    append_program_headers(&mut out, segments)?;
    append_elf_contents(&mut out, segments)?;
    Ok(out)
}

/// Returns the ELF header with which a written file begins: that of an executable with this entry
/// and `count` program headers.
#[tactic(auto, unfolding(crate::specs::WrittenElf::elf_header))]
fn elf_header(entry: u32, count: u16) -> [u8; 52]
    ensures { result ≡ elf_header entry count }
{
    let e = entry.to_le_bytes();
    let n = count.to_le_bytes();
    [
        0x7f, b'E', b'L', b'F', 1, 1, 1, 0, 0, 0, 0, 0, 0, 0, 0, 0, 2, 0, 44, 0, 1, 0, 0, 0, e[0],
        e[1], e[2], e[3], 52, 0, 0, 0, 0, 0, 0, 0, 0, 0, 0, 0, 52, 0, 32, 0, n[0], n[1], 0, 0, 0,
        0, 0, 0,
    ]
}

// Appends a program header for each of these segments to an ELF file, whose segments' bytes follow
// the program headers.
#[tactic(auto, unfolding(crate::specs::WrittenElf::program_headers))]
fn append_program_headers(out: &mut Vec<u8>, segments: &[Segment]) -> Result<(), ImageErr>
    requires few { length segments.now ≤ 64 }
    requires small { total_segment_size (map segment_data segments.now) ≤ 2 ^ 24 }
    ensures ok { let all = map segment_data segments.now in
        OnOk result
        (out.new.items ≡ out.old.items ++ program_headers (elf_contents_offset all) all) }
    ensures err { IfErr result (λ e. e ≡ ImageErr.NoMemory) }
{
    let mut offset = 52 + 32 * segments.len() as u32;
    for segment in segments {
        let len = segment.bytes.len() as u32;
        out.extend_from_slice(&program_header(offset, segment.at, len))?;
        offset += len;
    }
    Ok(())
}

// Appends the bytes of these segments to an ELF file, one segment after another, without gaps.
#[tactic(auto, unfolding(crate::specs::WrittenElf::elf_contents))]
fn append_elf_contents(out: &mut Vec<u8>, segments: &[Segment]) -> Result<(), ImageErr>
    ensures ok { OnOk result
        (out.new.items ≡ out.old.items ++ elf_contents (map segment_data segments.now)) }
    ensures err { IfErr result (λ e. e ≡ ImageErr.NoMemory) }
{
    for segment in segments {
        out.extend_from_slice(&segment.bytes)?;
    }
    Ok(())
}

// Returns the program header of a segment of `len` bytes at `offset` of the file, which are loaded
// at the address `at`.
#[tactic(auto, unfolding(crate::specs::WrittenElf::program_header))]
fn program_header(offset: u32, at: u32, len: u32) -> [u8; 32]
    ensures { result ≡ program_header offset at len }
{
    let o = offset.to_le_bytes();
    let a = at.to_le_bytes();
    let n = len.to_le_bytes();
    [
        1, 0, 0, 0, o[0], o[1], o[2], o[3], a[0], a[1], a[2], a[3], a[0], a[1], a[2], a[3], n[0],
        n[1], n[2], n[3], n[0], n[1], n[2], n[3], 5, 0, 0, 0, 1, 0, 0, 0,
    ]
}
