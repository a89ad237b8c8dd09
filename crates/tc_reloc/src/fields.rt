// The fields of relocations: the number to write, and the bits that hold it.
ghost use Rattle.std.specs.Prelude.{◌≡◌, ◌<◌};
ghost use Rattle.tc_reloc.specs.Fields.{reloc_field_number, bits_outside_reloc_field, reloc_field_bits, reloc_field_bound, reloc_distance};

use tc_isa::{ABS24, HI16, LO16, OFFSET16, REL15, REL24};

/// The number that a relocation of this kind, with its field at address `place`, writes into the
/// field for `value`.
#[tactic(auto, unfolding(crate::specs::Fields::reloc_field_number))]
pub(crate) fn reloc_field_number(kind: u8, place: u32, value: u32) -> u32
    ensures { result ≡ reloc_field_number kind place value }
{
    match kind {
        REL24 => reloc_distance(place, value) / 2 % 0x100_0000,
        ABS24 => value / 0x1000_0000 * 0x10_0000 + value / 2 % 0x10_0000,
        REL15 => reloc_distance(place, value) / 2 % 0x8000,
        HI16 => ((u64::from(value) + 0x8000) / 0x1_0000 % 0x1_0000) as u32,
        LO16 | OFFSET16 => value % 0x1_0000,
        _ => value,
    }
}

/// The word with zeros in the field that a relocation of this kind fills.
#[tactic(auto, unfolding(crate::specs::Fields::bits_outside_reloc_field))]
pub(crate) fn bits_outside_reloc_field(kind: u8, word: u32) -> u32
    ensures { result ≡ bits_outside_reloc_field kind word }
{
    match kind {
        REL24 | ABS24 => word % 0x100,
        REL15 => word % 0x1_0000 + word / 0x8000_0000 * 0x8000_0000,
        HI16 | LO16 => word % 0x1000 + word / 0x1000_0000 * 0x1000_0000,
        OFFSET16 => word % 0x1_0000,
        _ => 0,
    }
}

/// The word with the number `content` in the field of a relocation of this kind, and zeros
/// elsewhere.
#[tactic(auto, unfolding(crate::specs::Fields::reloc_field_bits, crate::specs::Fields::reloc_field_bound))]
pub(crate) fn reloc_field_bits(kind: u8, content: u32) -> u32
    requires { content < reloc_field_bound kind }
    ensures { result ≡ reloc_field_bits kind content }
{
    match kind {
        REL24 | ABS24 => content / 0x1_0000 * 0x100 + content % 0x1_0000 * 0x1_0000,
        REL15 => content * 0x1_0000,
        HI16 | LO16 => content * 0x1000,
        OFFSET16 => {
            content % 0x40 * 0x1_0000
                + content / 0x400 * 0x40_0000
                + content / 0x40 % 0x10 * 0x1000_0000
        }
        _ => content,
    }
}

/// Returns the distance from a relocation's place to its value, modulo 2^32, which the fields of
/// jumps, calls and branches hold in halfwords.
pub(crate) fn reloc_distance(place: u32, value: u32) -> u32
    ensures { result ≡ reloc_distance place value }
{
    value.wrapping_sub(place)
}
