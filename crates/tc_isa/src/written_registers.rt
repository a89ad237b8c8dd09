// The registers that an instruction writes by itself.
ghost use Rattle.std.specs.Prelude.{◌≡◌, ◌<◌};
ghost use Rattle.tc_isa.specs.InBounds.{IsArgInBounds};
ghost use Rattle.tc_isa.specs.Writes.{written_registers, increased_base_bit, register_bit};

use crate::shape_of_instruction::shape;
use crate::{Arg, Inst, Shape};

/// Returns the mask of the registers that an instruction writes: bit n for Dn, bit 16 + n for An.
/// What saves and restores of contexts write, and A11 of calls, aren't in the mask.
pub fn writes(inst: &Inst) -> u32
    ensures { result ≡ written_registers inst.now }
{
    match shape(inst) {
        Shape::Compute { dst, .. } | Shape::Scaled { dst, .. } | Shape::Mfcr { dst, .. } =>
            register_bit(dst),
        Shape::Load {
            dst,
            base,
            after,
            ..
        } => register_bit(dst) | increased_base_bit(after, base),
        Shape::Store { base, after, .. } => increased_base_bit(after, base),
        Shape::Branch { x, lowers, .. } => { if lowers { register_bit(x) } else { 0 } }
        _ => 0,
    }
}

/// Returns the bit of a register in the mask of registers that an instruction writes.
fn register_bit(register: u8) -> u32
    requires { register < 32 }
    ensures { result ≡ register_bit register }
{
    1u32 << register
}

/// Returns the bit, in the mask of written registers, of the base register of an access with
/// post-increment (`after`), or 0 without post-increment.
fn increased_base_bit(after: bool, base: Arg) -> u32
    requires { IsArgInBounds base }
    ensures { result ≡ increased_base_bit after base }
{
    match base {
        Arg::Reg(register) => { if after { register_bit(register) } else { 0 } }
        Arg::Word(_) => 0,
    }
}
