// Addresses and operands of instructions.
ghost use Rattle.std.specs.Prelude.{◌≡◌, ◌<◌};
ghost use Rattle.tc_isa.specs.InBounds.{IsArgInBounds, IsTargetInBounds};
ghost use Rattle.tc_machine.specs.Machine.{reg};
ghost use Rattle.tc_machine.specs.Instructions.{wrapping_sum, operand_value, access_address, with_base_incremented, target_address, with_register_decremented};

use crate::Machine;
use tc_isa::{Arg, Target};

impl Machine {
    /// Returns the address of a load or a store: the base plus the offset, or the base alone with
    /// post-increment (`after`).
    pub fn access_address(&self, base: Arg, offset: u32, after: bool) -> u32
        requires { IsArgInBounds base }
        ensures { result ≡ access_address self.now base offset after }
    {
        if after {
            self.operand_value(base)
        } else {
            wrapping_sum(self.operand_value(base), offset)
        }
    }

    /// Adds the offset of an access to the register of its base operand, if `after` says that the
    /// access has post-increment.
    pub(crate) fn post_increment_base(&mut self, base: Arg, offset: u32, after: bool)
        requires { IsArgInBounds base }
        ensures { self.new ≡ with_base_incremented self.old base offset after }
    {
        match base {
            Arg::Reg(r) => {
                if after {
                    let sum = wrapping_sum(self.reg(r), offset);
                    self.set_reg(r, sum);
                }
            }
            Arg::Word(_) => {}
        }
    }

    /// Returns the address that a jump or a call goes to; bit 0 of a register's word is dropped.
    pub(crate) fn target_address(&self, to: Target) -> u32
        requires { IsTargetInBounds to }
        ensures { result ≡ target_address self.now to }
    {
        match to {
            Target::Rel(by) => wrapping_sum(self.pc, by),
            Target::Abs(x) => x,
            Target::Reg(r) => self.reg(r) / 2 * 2,
        }
    }

    /// Decrements by 1 the register `x` that a branch compares, if `lowers` says so, as for `loop`.
    pub(crate) fn decrement_compared_register(&mut self, x: u8, lowers: bool)
        requires { x < 32 }
        ensures { self.new ≡ with_register_decremented self.old x lowers }
    {
        if lowers {
            let less = wrapping_sum(self.reg(x), u32::MAX);
            self.set_reg(x, less);
        }
    }
}

/// Returns the sum of two words modulo 2^32, such as an address and a number of bytes.
pub(crate) fn wrapping_sum(at: u32, by: u32) -> u32
    ensures { result ≡ wrapping_sum at by }
{
    at.wrapping_add(by)
}
