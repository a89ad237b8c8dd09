// Reads and writes registers and operands.
ghost use Rattle.std.specs.Prelude.{◌≡◌, ◌<◌};
ghost use Rattle.tc_isa.specs.InBounds.{IsArgInBounds};
ghost use Rattle.tc_machine.specs.Machine.{reg, with_reg, dead_machine};
ghost use Rattle.tc_machine.specs.Instructions.{wrapping_sum, operand_value, with_pc_advanced};

use crate::operand_addresses::wrapping_sum;
use crate::{Cause, End, Machine};
use tc_isa::Arg;

impl Machine {
    /// Returns the word in a register: 0 to 15 for D0 to D15, 16 to 31 for A0 to A15.
    pub(crate) fn reg(&self, r: u8) -> u32
        requires { r < 32 }
        ensures { result ≡ reg self.now r }
    {
        if r < 16 {
            self.d[usize::from(r)]
        } else {
            self.a[usize::from(r - 16)]
        }
    }

    /// Writes a word to a register: 0 to 15 for D0 to D15, 16 to 31 for A0 to A15.
    pub(crate) fn set_reg(&mut self, r: u8, word: u32)
        requires { r < 32 }
        ensures { self.new ≡ with_reg self.old r word }
    {
        if r < 16 {
            self.d[usize::from(r)] = word;
        } else {
            self.a[usize::from(r - 16)] = word;
        }
    }

    /// Returns what an operand stands for: the word read from its register, or its own word.
    pub(crate) fn operand_value(&self, x: Arg) -> u32
        requires { IsArgInBounds x }
        ensures { result ≡ operand_value self.now x }
    {
        match x {
            Arg::Reg(r) => self.reg(r),
            Arg::Word(word) => word,
        }
    }

    /// Advances pc over an instruction of `n` bytes, modulo 2^32.
    pub(crate) fn advance_pc(&mut self, n: u32)
        ensures { self.new ≡ with_pc_advanced n self.old }
    {
        self.pc = wrapping_sum(self.pc, n);
    }

    /// Ends the machine with this cause of death; the rest of its state stays.
    pub(crate) fn die(&mut self, cause: Cause)
        ensures { self.new ≡ dead_machine cause self.old }
    {
        self.end = End::Dead(cause);
    }
}
