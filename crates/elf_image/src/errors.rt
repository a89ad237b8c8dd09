// Why a file isn't an image.
ghost use Rattle.std.specs.Prelude.{◌≡◌};
ghost use Rattle.elf_image.specs.declared.errors.ImageErr.TheVariants.{NoMemory};

use std::alloc::{AllocError, AllocFailed};

/// Why a file isn't an image, in the order in which the causes are checked. Program headers are
/// numbered from 0.
#[derive(Clone, Copy, Debug, PartialEq, Eq)]
pub enum ImageErr {
    /// The file is shorter than an ELF header (52 bytes).
    Short,
    /// The file isn't a little-endian ELF file of 32 bits.
    NotElf32Le,
    /// `e_machine` isn't 44 (TriCore).
    NotTriCore,
    /// `e_type` isn't 2 (an executable).
    NotExec,
    /// The number of the first bad program header: it isn't of 32 bytes, isn't wholly in the file,
    /// or its bytes pass the file's end, address 2^32 or its own memory size.
    BadSegment(u32),
    /// The file has more than 64 segments, or more than 16,777,216 bytes in them.
    TooLarge,
    /// The numbers of the first two program headers whose segments share an address.
    Overlap(u32, u32),
    /// An allocation failed.
    NoMemory,
}

impl From<AllocError> for ImageErr {
    ghost from_gives = { λ _ e. e ≡ NoMemory };

    fn from(_: AllocError) -> Self {
        ImageErr::NoMemory
    }
}

impl<T: Drop> From<AllocFailed<T>> for ImageErr {
    ghost from_gives = { λ _ e. e ≡ NoMemory };

    fn from(_: AllocFailed<T>) -> Self {
        ImageErr::NoMemory
    }
}
