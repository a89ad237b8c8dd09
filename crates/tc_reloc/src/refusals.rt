// The reasons why a value can't be written into a field.
ghost use Rattle.std.specs.Prelude.{◌≡◌, ◌≤◌};
ghost use Rattle.tc_reloc.specs.Refusals.{is_reloc_in_reach, reloc_value_refusal};
ghost use Rattle.tc_reloc.specs.Fields.{reloc_distance};

use crate::fields::reloc_distance;
use tc_isa::{ABS24, REL15, REL24};

/// Why a value can't be written into its field, in the order of the tests.
#[derive(Clone, Copy, Debug, PartialEq, Eq)]
pub enum RelocErr {
    /// 1: a jump to an odd address, or over an odd distance.
    Odd,
    /// 2: a jump over a distance that its field can't hold.
    FarOff,
    /// 3: an absolute jump to an address that its field can't hold, since a bit of 27:21 is set.
    Segment,
}

/// The first reason why a relocation of this kind, with its field at address `place`, can't take
/// the value, or `None`.
#[tactic(auto, unfolding(crate::specs::Refusals::reloc_value_refusal))]
pub(crate) fn reloc_value_refusal(kind: u8, place: u32, value: u32) -> Option<RelocErr>
    ensures { result ≡ reloc_value_refusal kind place value }
{
    let distance = reloc_distance(place, value);
    match kind {
        REL24 | REL15 if distance % 2 == 1 => Some(RelocErr::Odd),
        REL24 if !is_reloc_in_reach(24, distance) => Some(RelocErr::FarOff),
        REL15 if !is_reloc_in_reach(15, distance) => Some(RelocErr::FarOff),
        ABS24 if value % 2 == 1 => Some(RelocErr::Odd),
        ABS24 if value / 0x20_0000 % 0x80 != 0 => Some(RelocErr::Segment),
        _ => None,
    }
}

// Whether a distance in bytes, modulo 2^32, fits a signed field of `bits` bits, in halfwords.
fn is_reloc_in_reach(bits: u8, distance: u32) -> bool
    requires { bits ≤ 31 }
    ensures { result ≡ is_reloc_in_reach bits distance }
{
    let reach = 1u64 << bits;
    u64::from(distance) < reach || 4_294_967_296 - reach <= u64::from(distance)
}
