// Bytes of an image in rom.
ghost use Rattle.std.specs.Prelude.{◌≡◌, ◌≤◌, ◌<◌, ◌+◌, ◌*◌, ◌^◌, ◌↔◌, ℕ, IfSome, IsSome, IsTrue};
ghost use Rattle.std.specs.Bool.{OnTrue};
ghost use Rattle.std.specs.List.{list_any};
ghost use Rattle.elf_image.specs.Images.{image_byte};
ghost use Rattle.tcd_base.specs.Ranges.{is_within_range};
ghost use Rattle.store_ranges.specs.Loads.{IsLoadedRom, number_in_image, rom_number};

use elf_image::Image;
use tcd_base::is_in_one_range;
use tcd_plan::Plan;

/// Returns true if the `len` bytes from `addr` on are in one rom range and held by segments of the
/// image. Addresses don't wrap at 2^32.
pub fn loaded_rom(image: &Image, plan: &Plan, addr: u32, len: u8) -> bool
    ensures { IsTrue result ↔ IsLoadedRom image.now plan.now addr len }
{
    if !is_in_rom(plan, addr, len) {
        return false;
    }
    are_bytes_in_image(image, addr, len)
}

/// Returns the number that a load gets from the `n` bytes of rom at `x`, little-endian. `None` if
/// no rom range or segment has them.
pub(crate) fn rom_number(image: &Image, plan: &Plan, x: u32, n: u8) -> Option<u32>
    requires { n ≤ 4 }
    ensures value { result ≡ rom_number image.now plan.now x n }
    ensures small { IfSome result (λ w. w < 2 ^ (8 * n)) }
{
    if !is_in_rom(plan, x, n) {
        return None;
    }
    number_in_image(image, x, n)
}

/// Returns true if the `n` bytes from `x` on are in one of the plan's rom ranges.
fn is_in_rom(plan: &Plan, x: u32, n: u8) -> bool
    ensures value { result ≡ list_any (is_within_range x n) plan.now.rom }
    ensures fits { OnTrue result (x + n ≤ 2 ^ 32) }
{
    is_in_one_range(plan.rom.as_slice(), x, u32::from(n))
}

/// Returns true if segments of the image hold the `n` bytes from `x` on.
fn are_bytes_in_image(image: &Image, x: u32, n: u8) -> bool
    requires { x + n ≤ 2 ^ 32 }
    ensures { IsTrue result ↔ ((i : ℕ) → i < n → IsSome (image_byte image.now (x + i))) }
{
    for i in 0..n {
        if image.byte(x + u32::from(i)).is_none() {
            return false;
        }
    }
    true
}

/// Returns the number in the image's `n` bytes from `x` on, little-endian, or `None` if its
/// segments don't hold them all.
fn number_in_image(image: &Image, x: u32, n: u8) -> Option<u32>
    requires few { n ≤ 4 }
    requires fits { x + n ≤ 2 ^ 32 }
    ensures value { result ≡ number_in_image image.now x n }
    ensures small { IfSome result (λ w. w < 2 ^ (8 * n)) }
{
    let mut number = 0;
    for k in 0..n {
        let byte = image.byte(x + u32::from(n - 1 - k))?;
        number = u32::from(byte) + 256 * number;
    }
    Some(number)
}
