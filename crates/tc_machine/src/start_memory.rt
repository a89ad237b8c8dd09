// Fills the memory of a start state.
ghost use Rattle.std.specs.Prelude.{◌≡◌, ◌<◌, ◌≤◌, ◌+◌, ◌*◌, ◌^◌, [], ◌∷◌, ◌++◌, map, length, IsTrue, IfOk};
ghost use Rattle.std.specs.List.{list_all};
ghost use Rattle.elf_image.specs.Images.{segment_data, is_segment};
ghost use Rattle.csa_chain.specs.MemoryBytes.{HasOnlyBytes};
ghost use Rattle.tc_machine.specs.Starting.{with_image_in_range, with_image_in_ranges, next_start_link, with_area_links, start_memory_ranges, IsFilledStartMemory, AreSegmentsCopied};
ghost use Rattle.csa_chain.specs.Chain.{link_at};
ghost use Rattle.tcd_base.specs.Ranges.{RangesDoNotWrap};

use crate::contexts::write_area_word;
use elf_image::{Image, Segment};
use std::alloc::Global;
use tc_mem::Mem;
use tcd_base::{NoMemory, Range};

/// Returns the link of the context save area at the address `at`: its segment in bits 19:16, its
/// number in the segment in bits 15:0.
pub(crate) fn link_of_area_at(at: u32) -> u32
    ensures { result ≡ link_at at }
{
    at / 0x1000_0000 * 0x1_0000 + at % 0x1000_0000 / 64
}

/// Returns the memory of a machine's start state: the image's bytes in rom, and `n` save areas from
/// `at` on, linked as the free list. All other mapped bytes are 0.
pub(crate) fn start_memory(
    alloc: Global,
    image: &Image,
    rom: &[Range],
    ram: &[Range],
    at: u32,
    n: u32,
) -> Result<Mem, NoMemory>
    requires rom { RangesDoNotWrap rom.now }
    requires all { RangesDoNotWrap (start_memory_ranges rom.now ram.now at n) }
    requires areas { at + 64 * n ≤ 2 ^ 32 }
    requires few { n ≤ 4096 }
    requires links { link_at at + n < 2 ^ 32 }
    ensures { IfOk result (λ mem. IsFilledStartMemory image.now rom.now ram.now at n mem) }
{
    let ranges = start_memory_ranges(alloc, rom, ram, Range { at, len: 64 * n })?;
    let mut mem = Mem::of(alloc, &ranges)?;
    copy_image(&mut mem, image, rom);
    link_start_areas(&mut mem, at, link_of_area_at(at), n);
    Ok(mem)
}

/// Returns the ranges that the memory of a start state maps: rom, ram and the save areas.
fn start_memory_ranges(
    alloc: Global,
    rom: &[Range],
    ram: &[Range],
    areas: Range,
) -> Result<Vec<Range>, NoMemory>
    ensures { IfOk result (λ v. v.items ≡ rom.now ++ ram.now ++ areas ∷ []) }
{
    let mut ranges = Vec::new(alloc);
    ranges.extend_from_slice(rom)?;
    ranges.extend_from_slice(ram)?;
    ranges.push(areas)?;
    Ok(ranges)
}

/// Copies the image's bytes into these ranges of the memory of a start state.
fn copy_image(mem: &mut Mem, image: &Image, ranges: &[Range])
    requires { RangesDoNotWrap ranges.now }
    ensures copied { mem.new ≡ with_image_in_ranges image.now mem.old ranges.now }
    ensures bytes { HasOnlyBytes mem.old → HasOnlyBytes mem.new }
{
    for range in ranges {
        copy_image_to_range(mem, image, range);
    }
}

/// Links `n` save areas from the address `at` on to the free list of a start state. Word 0 of each
/// gets the next one's link, that of the last one 0. `first` is the link of the first.
#[tactic(auto, unfolding(crate::specs::Starting::with_area_links, csa_chain::specs::MemoryBytes::with_words))]
fn link_start_areas(mem: &mut Mem, at: u32, first: u32, n: u32)
    requires areas { at + 64 * n ≤ 2 ^ 32 }
    requires links { first + n < 2 ^ 32 }
    ensures { mem.new ≡ with_area_links at first n mem.old n }
{
    for i in 0..n {
        write_area_word(mem, at + 64 * i, next_start_link(first, n, i));
    }
}

/// Copies the image's bytes into one range of the memory of a start state.
fn copy_image_to_range(mem: &mut Mem, image: &Image, range: &Range)
    requires { range.now.at + range.now.len ≤ 2 ^ 32 }
    ensures copied { mem.new ≡ with_image_in_range image.now mem.old range.now.at range.now.len }
    ensures bytes { HasOnlyBytes mem.old → HasOnlyBytes mem.new }
{
    copy_segments(mem, &image.segments, range);
}

/// Copies into the memory of a start state the bytes of the image's segments that are in a range.
/// If segments overlap, the first one's bytes count.
fn copy_segments(mem: &mut Mem, segments: &[Segment], range: &Range)
    requires segments { IsTrue (list_all is_segment (map segment_data segments.now)) }
    requires range { range.now.at + range.now.len ≤ 2 ^ 32 }
    ensures copied { AreSegmentsCopied (map segment_data segments.now) range.now mem.old mem.new }
    ensures bytes { HasOnlyBytes mem.old → HasOnlyBytes mem.new }
{
    let mut rest = segments.len();
    while rest > 0 {
        rest -= 1;
        copy_segment(mem, &segments[rest], range);
    }
}

/// Copies into the memory of a start state the bytes of one segment of the image that are in a
/// range.
fn copy_segment(mem: &mut Mem, segment: &Segment, range: &Range)
    requires segment { segment.now.at + length segment.now.bytes.items ≤ 2 ^ 32 }
    requires range { range.now.at + range.now.len ≤ 2 ^ 32 }
    ensures copied { AreSegmentsCopied (segment_data segment.now ∷ []) range.now mem.old mem.new }
    ensures bytes { HasOnlyBytes mem.old → HasOnlyBytes mem.new }
{
    let from = segment.at.max(range.at);
    let end = u64::from(segment.at) + segment.bytes.len() as u64;
    let to = end.min(u64::from(range.at) + u64::from(range.len));
    if u64::from(from) < to {
        let first = (from - segment.at) as usize;
        let last = (to - u64::from(segment.at)) as usize;
        mem.set_bytes(from, &segment.bytes[first..last]);
    }
}

/// Returns the link of the save area after area `i` of `n`, or 0 after the last one. `first` is the
/// link of area 0.
fn next_start_link(first: u32, n: u32, i: u32) -> u32
    requires i { i < n }
    requires first { first + n < 2 ^ 32 }
    ensures { result ≡ next_start_link first n i }
{
    if i + 1 < n { first + (i + 1) } else { 0 }
}
