// Segments: bytes from an address on, and those that an ELF file loads.
ghost use Rattle.std.specs.Prelude.{◌≡◌, ◌≤◌, ◌<◌, ◌-◌, ◌^◌, All, map, slice_get, ◌+◌, length, IfOk, IfErr};
ghost use Rattle.elf_image.specs.Images.{segment_data, segment_contains, HoldOnlyBytes};
ghost use Rattle.elf_image.specs.ReadElf.{loaded_segment};

use crate::ImageErr;
use crate::headers::Header;
use std::alloc::Global;

/// The bytes from the address `at` on.
#[derive(Drop)]
pub struct Segment {
    pub at: u32,
    pub bytes: Vec<u8>,
}

/// Returns true if an address is that of a byte of the segment.
pub(crate) fn segment_contains(segment: &Segment, addr: u32) -> bool
    ensures { result ≡ segment_contains (segment_data segment.now) addr }
{
    segment.at <= addr && ((addr - segment.at) as usize) < segment.bytes.len()
}

/// Returns the byte of a segment at an address not below its own, or `None` past the last byte.
pub(crate) fn segment_byte(segment: &Segment, addr: u32) -> Option<u8>
    requires { segment.now.at ≤ addr }
    ensures { result ≡ slice_get segment.now.bytes.items (addr - segment.now.at) }
{
    segment.bytes.get((addr - segment.at) as usize).copied()
}

/// Establishes for proofs that the bytes of segments are numbers below 256, which an image
/// requires. Each byte is read, and nothing changes.
pub fn establish_segment_bytes(segments: &[Segment])
    ensures { HoldOnlyBytes (map segment_data segments.now) }
{
    for segment in segments {
        establish_bytes_below_256(&segment.bytes);
    }
}

// Returns the segments that the program headers `loads` load from an ELF file, in order.
pub(crate) fn loaded_segments(
    alloc: Global,
    bytes: &[u8],
    loads: &[Header],
) -> Result<Vec<Segment>, ImageErr>
    requires { All (λ h. h.offset + h.file_size ≤ length bytes.now) loads.now }
    ensures ok { IfOk result (λ v.
        map segment_data v.items ≡ map (loaded_segment bytes.now) loads.now) }
    ensures err { IfErr result (λ e. e ≡ ImageErr.NoMemory) }
{
    let mut segments = Vec::new(alloc);
    for load in loads {
        let segment = loaded_segment(alloc, bytes, load)?;
        segments.push(segment)?;
    }
    Ok(segments)
}

/// Establishes for proofs that the bytes of a segment are numbers below 256. Nothing changes.
fn establish_bytes_below_256(bytes: &[u8])
    ensures { All (λ b. b < 2 ^ 8) bytes.now }
{
    for byte in bytes {
        let _value = *byte;
    }
}

// Returns the segment that a program header loads from an ELF file: a copy of its bytes, at its
// physical address.
fn loaded_segment(alloc: Global, bytes: &[u8], load: &Header) -> Result<Segment, ImageErr>
    requires { load.now.offset + load.now.file_size ≤ length bytes.now }
    ensures ok { IfOk result (λ s. segment_data s ≡ loaded_segment bytes.now load.now) }
    ensures err { IfErr result (λ e. e ≡ ImageErr.NoMemory) }
{
    let start = load.offset as usize;
    let end = start + load.file_size as usize;
    let loaded = Vec::from_slice(alloc, &bytes[start..end])?;
    Ok(Segment {
        at: load.address,
        bytes: loaded,
    })
}
