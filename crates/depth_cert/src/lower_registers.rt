// The lower registers of a state.
ghost use Rattle.std.specs.Prelude.{◌≡◌, ◌<◌, slice_index_or};
ghost use Rattle.value_domain.specs.Values.{any_val};
ghost use Rattle.depth_cert.specs.Exits.{lower_values};

use value_domain::Val;

/// Returns lower register `i` of a state's values: D0 to D7 are 0 to 7, A2 to A7 are 8 to 13.
#[inline(always)]
pub fn lower_register_value(regs: &[Val; 27], i: usize) -> &Val
    requires { i < 14 }
    ensures { result.now ≡ slice_index_or (lower_values regs.now) i any_val }
{
    if i < 8 { &regs[i] } else { &regs[i + 8] }
}
