// The instruction at an address of an image.
ghost use Rattle.std.specs.Prelude.{◌≡◌, ◌≤◌, ◌+◌, ◌^◌, ◌↔◌, IsTrue, IfSome};
ghost use Rattle.tcd_base.specs.Ranges.{IsInOneRange};
ghost use Rattle.elf_image.specs.Images.{image_byte, segment_data};
ghost use Rattle.cfg_recover.specs.HeldBytes.{image_bytes_at, SegmentHoldsByte, SegmentHoldsBytes, FindsRomBytes};
ghost use Rattle.cfg_recover.specs.Code.{FindsCodeInBytes, FindsCode};

use elf_image::{Image, Segment};
use tc_encode::decode;
use tc_isa::Inst;
use tcd_base::is_in_one_range;
use tcd_plan::Plan;

/// Returns the instruction at an address of rom, and its length in bytes, or `None`. The address
/// must be even, and the bytes in one rom range and in segments of the image.
pub fn code_at(image: &Image, plan: &Plan, addr: u32) -> Option<(Inst, u32)>
    ensures { FindsCode image.now plan.now addr result }
{
    if addr % 2 == 1 {
        return None;
    }
    let mut near = 0;
    match four_bytes_in_rom(image, plan, addr, &mut near) {
        Some(bytes) => code_in_bytes(&bytes),
        None => match two_bytes_in_rom(image, plan, addr) {
            Some(bytes) => code_in_bytes(&bytes),
            None => None,
        },
    }
}

/// Returns the four bytes of code from an address on, if one rom range and the image's segments
/// have them. Segment number `near` is tried first, and replaced by the one found.
#[inline(always)]
pub(crate) fn four_bytes_in_rom(
    image: &Image,
    plan: &Plan,
    addr: u32,
    near: &mut usize,
) -> Option<[u8; 4]>
    ensures { FindsRomBytes image.now plan.now addr 4 result }
{
    if are_bytes_in_rom(plan, addr, 4) {
        four_code_bytes(image, addr, near)
    } else {
        None
    }
}

/// Returns the image's byte of code at an address, if a segment holds one. Segment number `near` is
/// tried first, and replaced by the one found.
#[inline(always)]
pub(crate) fn code_byte_at(image: &Image, addr: u32, near: &mut usize) -> Option<u8>
    ensures { result ≡ image_byte image.now addr }
{
    if let Some(segment) = image.segments.get(*near) {
        if let Some(byte) = code_byte_in_segment(segment, addr) {
            return Some(byte);
        }
    }
    code_byte_anywhere(image, addr, near)
}

/// Returns the instruction that these bytes of code begin with, and its length in bytes; `None` if
/// the bytes begin with no instruction.
#[inline(always)]
fn code_in_bytes(bytes: &[u8]) -> Option<(Inst, u32)>
    ensures { FindsCodeInBytes bytes.now result }
{
    match decode(bytes) {
        Ok(found) => Some((found.0, found.1 as u32)),
        Err(_) => None,
    }
}

/// Returns two bytes of code from an address on, if one rom range and the image's segments have
/// them.
#[inline(always)]
fn two_bytes_in_rom(image: &Image, plan: &Plan, addr: u32) -> Option<[u8; 2]>
    ensures { FindsRomBytes image.now plan.now addr 2 result }
{
    if are_bytes_in_rom(plan, addr, 2) {
        two_code_bytes(image, addr)
    } else {
        None
    }
}

/// Returns true if the `count` bytes from an address on are inside one rom range of the plan.
#[inline(always)]
pub fn are_bytes_in_rom(plan: &Plan, addr: u32, count: u32) -> bool
    ensures decides { IsTrue result ↔ IsInOneRange addr count plan.now.rom }
    ensures fits { IsTrue result → addr + count ≤ 2 ^ 32 }
{
    is_in_one_range(plan.rom.as_slice(), addr, count)
}

/// Returns two bytes of code from an address on, if segments of the image hold them.
#[inline(always)]
fn two_code_bytes(image: &Image, addr: u32) -> Option<[u8; 2]>
    requires { addr + 2 ≤ 2 ^ 32 }
    ensures { result ≡ image_bytes_at image.now addr 2 }
{
    let first = image.byte(addr)?;
    let second = image.byte(addr + 1)?;
    Some([first, second])
}

/// Returns four bytes of code from an address on, if segments of the image hold them. Segment
/// number `near`, which held the last ones, is tried first.
#[inline(always)]
fn four_code_bytes(image: &Image, addr: u32, near: &mut usize) -> Option<[u8; 4]>
    requires { addr + 4 ≤ 2 ^ 32 }
    ensures { result ≡ image_bytes_at image.now addr 4 }
{
    if let Some(segment) = image.segments.get(*near) {
        if let Some(bytes) = four_code_bytes_in_segment(segment, addr) {
            return Some(bytes);
        }
    }
    four_code_bytes_anywhere(image, addr, near)
}

/// Returns four bytes of code from an address on, if this segment of the image holds them all.
#[inline(always)]
fn four_code_bytes_in_segment(segment: &Segment, addr: u32) -> Option<[u8; 4]>
    ensures { IfSome result (SegmentHoldsBytes (segment_data segment.now) addr) }
{
    if addr < segment.at {
        return None;
    }
    let at = (addr - segment.at) as usize;
    let bytes = segment.bytes.as_slice();
    if bytes.len() < 4 || bytes.len() - 4 < at {
        return None;
    }
    Some([bytes[at], bytes[at + 1], bytes[at + 2], bytes[at + 3]])
}

/// Returns four bytes of code from an address on, if segments of the image hold them; all are
/// tried. If one holds all four, `near` becomes its number.
#[inline(never)]
fn four_code_bytes_anywhere(image: &Image, addr: u32, near: &mut usize) -> Option<[u8; 4]>
    requires { addr + 4 ≤ 2 ^ 32 }
    ensures { result ≡ image_bytes_at image.now addr 4 }
{
    for (number, segment) in image.segments.iter().enumerate() {
        if let Some(bytes) = four_code_bytes_in_segment(segment, addr) {
            *near = number;
            return Some(bytes);
        }
    }
    four_code_bytes_one_by_one(image, addr)
}

/// Returns four bytes of code from an address on, if segments of the image hold them. Each is
/// looked for by itself, since segments may meet within the four.
#[inline(never)]
fn four_code_bytes_one_by_one(image: &Image, addr: u32) -> Option<[u8; 4]>
    requires { addr + 4 ≤ 2 ^ 32 }
    ensures { result ≡ image_bytes_at image.now addr 4 }
{
    let first = image.byte(addr)?;
    let second = image.byte(addr + 1)?;
    let third = image.byte(addr + 2)?;
    let fourth = image.byte(addr + 3)?;
    Some([first, second, third, fourth])
}

/// Returns the byte of code at an address, if this segment of the image holds it.
#[inline(always)]
fn code_byte_in_segment(segment: &Segment, addr: u32) -> Option<u8>
    ensures { IfSome result (SegmentHoldsByte (segment_data segment.now) addr) }
{
    if addr < segment.at {
        return None;
    }
    let at = (addr - segment.at) as usize;
    let bytes = segment.bytes.as_slice();
    if bytes.len() <= at {
        return None;
    }
    Some(bytes[at])
}

/// Returns the byte of code at an address of the image, if one of its segments holds it: all are
/// tried, and `near` becomes the number of that one.
#[inline(never)]
fn code_byte_anywhere(image: &Image, addr: u32, near: &mut usize) -> Option<u8>
    ensures { result ≡ image_byte image.now addr }
{
    for (number, segment) in image.segments.iter().enumerate() {
        if let Some(byte) = code_byte_in_segment(segment, addr) {
            *near = number;
            return Some(byte);
        }
    }
    image.byte(addr)
}
