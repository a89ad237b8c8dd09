// Writes the value of a relocation into its field.
ghost use Rattle.std.specs.Prelude.{◌≡◌, ◌≤◌, ◌+◌, OnOk, IfOk};
ghost use Rattle.tcd_base.specs.Bytes.{word_in_bytes};
ghost use Rattle.tc_reloc.specs.Fields.{reloc_field_number, bits_outside_reloc_field, reloc_field_bits};
ghost use Rattle.tc_reloc.specs.ReachedAddresses.{number_in_reloc_field, address_reached_by_reloc};
ghost use Rattle.tc_reloc.specs.Applied.{filled_reloc_field};

use crate::fields::{bits_outside_reloc_field, reloc_field_bits, reloc_field_number};
use crate::refusals::{RelocErr, reloc_value_refusal};
use tc_isa::WORD32;

/// Applies a relocation: returns `field`, four bytes at address `place`, with `value` written in,
/// or why the value doesn't fit. Kinds: 1 near and 2 absolute call or jump, 3 branch, 4 upper half,
/// 5 lower half, 6 lower half as an offset, 7 word.
pub fn apply(kind: u8, field: [u8; 4], place: u32, value: u32) -> Result<[u8; 4], RelocErr>
    requires some { 1 ≤ kind }
    requires most { kind ≤ 7 }
    ensures applied { result ≡ filled_reloc_field kind field place value }

    // The field holds the number that reaches the value, and all bits outside it keep their values.
    ensures held { IfOk result (λ new. number_in_reloc_field kind (word_in_bytes new 0)
        ≡ reloc_field_number kind place value) }
    ensures reached { OnOk result
        (address_reached_by_reloc kind place value (reloc_field_number kind place value) ≡ value) }
    ensures rest { IfOk result
        (λ new. bits_outside_reloc_field kind (word_in_bytes new 0)
        ≡ bits_outside_reloc_field kind (word_in_bytes field 0)) }
{
    if let Some(err) = reloc_value_refusal(kind, place, value) {
        return Err(err);
    }
    let word = fill_reloc_field(kind, u32::from_le_bytes(field), place, value);
    Ok(word.to_le_bytes())
}

/// Returns `word`, at address `place`, with `value` written into the field of a relocation of this
/// kind. Kind 7 replaces the whole word.
fn fill_reloc_field(kind: u8, word: u32, place: u32, value: u32) -> u32
    requires some { 1 ≤ kind }
    requires most { kind ≤ 7 }
    ensures { result ≡ bits_outside_reloc_field kind word + reloc_field_bits kind
        (reloc_field_number kind place value) }
{
    if kind == WORD32 {
        return value;
    }
    bits_outside_reloc_field(kind, word)
        + reloc_field_bits(kind, reloc_field_number(kind, place, value))
}
