// An image: the segments of an executable, within limits that always hold.
use crate::ImageErr;
use crate::file_checks::{check_elf_header, check_no_segment_overlap, check_program_headers};
use crate::file_writer::elf_file;
use crate::headers::{E_ENTRY, elf_word_at, loading_headers};
use crate::segments::{Segment, loaded_segments, segment_byte, segment_contains};
use std::alloc::Global;
use std::marker::Model;

/// The segments of an executable, and the address at which the program begins. There are at most 64
/// segments with at most 16,777,216 bytes together. Each has at least one byte and ends at 2^32 or
/// below, and no two share an address.
#[derive(Drop)]
pub struct Image {
    pub entry: u32,
    pub segments: Vec<Segment>,
}

impl Model for Image {
    ghost use Rattle.elf_image.specs.Images.{ImageData, image_data, IsImage};

    ghost Value = { ImageData };

    ghost view = { image_data };

    ghost invariant = { λ i. IsImage (image_data i) };
}

impl Image {
    ghost use Rattle.std.specs.Prelude.{◌≡◌, ◌≤◌, ◌^◌, ◌↔◌, IsTrue, length, Some, Ok, IfOk, IfErr};
    ghost use Rattle.elf_image.specs.Images.{image_byte};
    ghost use Rattle.elf_image.specs.ReadElf.{GivesImage, image_of_file};
    ghost use Rattle.elf_image.specs.WrittenElf.{elf_file};

    /// Reads a 32-bit ELF executable for TriCore. The image has the PT_LOAD segments with bytes in
    /// the file, in the order of their headers, at their physical addresses.
    pub fn read(alloc: Global, bytes: &[u8]) -> Result<Image, ImageErr>
        requires { length bytes.now ≤ 2 ^ 30 }
        ensures { GivesImage result (image_of_file bytes.now) }
    {
        check_elf_header(bytes)?;
        check_program_headers(bytes)?;
        let loads = loading_headers(alloc, bytes)?;
        check_no_segment_overlap(&loads)?;
        let segments = loaded_segments(alloc, bytes, &loads)?;
        Ok(Image {
            entry: elf_word_at(bytes, E_ENTRY),
            segments,
        })
    }

    /// Returns this image as an executable file: the ELF header, a program header for each segment,
    /// and the segments' bytes without gaps. `Image::read` gives the image back.
    pub fn write(&self, alloc: Global) -> Result<Vec<u8>, ImageErr>
        ensures bytes { IfOk result (λ v. v.items ≡ elf_file self.now) }
        ensures small { IfOk result (λ v. length v.items ≤ 2 ^ 30) }
        ensures again { IfOk result (λ v. image_of_file v.items ≡ Ok self.now) }
        ensures err { IfErr result (λ e. e ≡ ImageErr.NoMemory) }
    {
        elf_file(alloc, self.entry, &self.segments)
    }

    /// Returns the byte at an address, or `None` if no segment holds the address.
    pub fn byte(&self, addr: u32) -> Option<u8>
        ensures byte { result ≡ image_byte self.now addr }
    {
        for segment in &self.segments {
            if segment_contains(segment, addr) {
                return segment_byte(segment, addr);
            }
        }
        None
    }

    /// Returns true if the image holds this byte at this address.
    pub fn has_byte(&self, addr: u32, byte: u8) -> bool
        ensures { IsTrue result ↔ (image_byte self.now addr ≡ Some byte) }
    {
        self.byte(addr) == Some(byte)
    }
}
