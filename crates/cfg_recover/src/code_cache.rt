// Instructions that were decoded lately, by their words.
ghost use Rattle.std.specs.Prelude.{◌≡◌, ◌<◌, ◌^◌, ◌↔◌, ℕ, Some, IsTrue, IfSome, slice_index};
ghost use Rattle.std.specs.Coded.{Coded-set};
ghost use Rattle.elf_image.specs.Images.{image_byte};
ghost use Rattle.tc_encode.specs.Decoding.{decoded_of};
ghost use Rattle.cfg_recover.specs.Code.{FindsShapeAndSize, HasShapeInBounds, shape_and_size_of};
ghost use Rattle.cfg_recover.specs.KnownCodes.{shape_and_size_of_word, IsDecodedWord};

use crate::decoded_inst::decode_at;
use crate::local_rules::Located;
use crate::rom_code::{code_byte_at, four_bytes_in_rom};
use elf_image::Image;
use tc_encode::decode;
use tc_isa::shape;
use tcd_plan::Plan;

/// Words of code that were decoded lately, whatever their addresses. The word gives the place, so a
/// later word replaces an earlier one at its place.
#[derive(Drop)]
pub struct KnownCodes {
    codes: [KnownCode; 256],
    /// The number of the segment that held the last word or byte.
    near: usize,
}

/// A word of code, and the instruction that its bytes begin with.
#[derive(Clone, Copy)]
pub(crate) struct KnownCode {
    word: u32,
    found: Option<Located>,
    ghost known: { IsDecodedWord word found } by { Coded-set found-code found (shape_and_size_of_word word) },
}

impl KnownCodes {
    /// Returns a cache of decoded instructions in which only the word 0 is known.
    #[inline(never)]
    pub fn new() -> KnownCodes {
        KnownCodes {
            codes: [decode_word(0); 256],
            near: 0,
        }
    }

    /// Returns the shape and size of the instruction at an address of rom, or `None` if there is
    /// none. An instruction whose word is in the cache isn't decoded again.
    #[inline(always)]
    pub fn decode_cached(&mut self, image: &Image, plan: &Plan, addr: u32) -> Option<Located>
        ensures code { FindsShapeAndSize image.now plan.now addr result }
        ensures shape { IfSome result HasShapeInBounds }
    {
        if addr % 2 == 1 {
            return None;
        }
        let Some(bytes) = four_bytes_in_rom(image, plan, addr, &mut self.near) else {
            return decode_at(image, plan, addr);
        };
        let word = code_cache_key(bytes);
        let place = code_cache_slot(word);
        let known = self.codes[place];
        if known.word == word {
            return known.found;
        }
        let code = decode_word(word);
        self.codes[place] = code;
        code.found
    }

    /// Returns the byte of the image at an address, or `None` if no segment holds one. The segment
    /// in which bytes were found last is tried first.
    #[inline(always)]
    pub fn byte(&mut self, image: &Image, addr: u32) -> Option<u8>
        ensures byte { result ≡ image_byte image.now addr }
    {
        code_byte_at(image, addr, &mut self.near)
    }

    /// Returns true if the image holds this byte at this address.
    #[inline(always)]
    pub fn has_byte(&mut self, image: &Image, addr: u32, byte: u8) -> bool
        ensures { IsTrue result ↔ (image_byte image.now addr ≡ Some byte) }
    {
        self.byte(image, addr) == Some(byte)
    }
}

/// Returns the cache's entry for a word: the shape and size of the instruction that its four bytes
/// begin with, if they decode.
#[inline(never)]
fn decode_word(word: u32) -> KnownCode
    ensures { result.word ≡ word }
{
    let found = match decode(&word.to_le_bytes()) {
        Ok(found) => Some(Located {
            shape: shape(&found.0),
            size: found.1 as u32,
        }),
        Err(_) => None,
    };
    KnownCode { word, found }
}

/// Returns the key by which the cache finds an instruction, from four bytes of code: all as a word,
/// or only the first two of a 16-bit instruction.
#[inline(always)]
fn code_cache_key(bytes: [u8; 4]) -> u32
    ensures { shape_and_size_of_word result ≡ shape_and_size_of (decoded_of bytes) }
{
    code_bytes_below_256(&bytes);
    let word = u32::from_le_bytes(bytes);
    if word % 2 == 1 { word } else { word % 0x1_0000 }
}

/// Establishes a fact for proofs: bytes of code are below 256, as their type says.
fn code_bytes_below_256(bytes: &[u8])
    ensures { (k : ℕ) → slice_index bytes.now k < 2 ^ 8 }
{}

/// Returns the slot of a word in the cache of decoded instructions, below 256: a hash of the word's
/// bytes.
#[inline(always)]
fn code_cache_slot(word: u32) -> usize
    ensures { result < 256 }
{
    (word.wrapping_mul(0x0101_0101) / 0x100_0000) as usize
}
