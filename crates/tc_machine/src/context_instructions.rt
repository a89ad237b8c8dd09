// Executes the instructions that save or restore a context: calls, returns, system calls and more.
ghost use Rattle.std.specs.Prelude.{◌≡◌};
ghost use Rattle.tc_isa.specs.InBounds.{IsShapeInBounds};
ghost use Rattle.tc_machine.specs.declared.events.Event.{Event};
ghost use Rattle.tc_machine.specs.Instructions.{after_instruction};
ghost use Rattle.tc_machine.specs.InstructionKinds.{IfContextInstruction};

use crate::operand_addresses::wrapping_sum;
use crate::{End, Event, Machine};
use csa_chain::pcxi_parts;
use tc_isa::{Shape, Target};

/// The class of traps that system calls take.
const SYSTEM_CALLS: u8 = 6;

impl Machine {
    /// Executes an instruction of `n` bytes that saves or restores a context: a call, a return, a
    /// system call, `svlcx`, `rslcx` or `bisr`.
    #[tactic(auto, unfolding(crate::specs::Instructions::after_instruction))]
    pub(crate) fn execute_context_op(&mut self, event: &Event, shape: Shape, n: u32)
        requires { IsShapeInBounds shape }
        ensures { IfContextInstruction shape
            (self.new ≡ after_instruction self.old event.now shape n) }
    {
        match shape {
            Shape::Call { to } => self.call(to, n),
            Shape::Ret => self.return_from_call(n),
            Shape::Rfe => self.return_from_exception(n),
            Shape::Svlcx => self.save_lower_context(n),
            Shape::Rslcx => self.restore_lower_context(n),
            Shape::Bisr { c } => self.begin_interrupt_routine(c, n),
            Shape::Syscall { tin } => self.take_trap(SYSTEM_CALLS, tin, wrapping_sum(self.pc, n)),
            _ => {}
        }
    }

    /// Executes a call of `n` bytes: saves the upper context, puts the return address in A11, and
    /// jumps to the function.
    #[tactic(auto, unfolding(crate::specs::Instructions::after_instruction))]
    fn call(&mut self, to: Target, n: u32)
        requires { IsShapeInBounds (Shape.Call to) }
        ensures { (event : Event) → self.new ≡ after_instruction self.old event (Shape.Call to) n }
    {
        let entry = self.target_address(to);
        let back = wrapping_sum(self.pc, n);
        self.save(true);
        match self.end {
            End::Running => {
                self.a[11] = back;
                self.pc = entry;
            }
            End::Dead(_) => {}
        }
    }

    /// Executes `ret`: restores the upper context, and jumps to the return address in A11. Its
    /// length `n` isn't used.
    #[tactic(auto, unfolding(crate::specs::Instructions::after_instruction))]
    fn return_from_call(&mut self, n: u32)
        ensures { (event : Event) → self.new ≡ after_instruction self.old event Shape.Ret n }
    {
        let back = self.a[11] / 2 * 2;
        self.restore(true);
        match self.end {
            End::Running => self.pc = back,
            End::Dead(_) => {}
        }
    }

    /// Executes `rfe`: restores the upper context, IE and CCPN, and jumps to the return address in
    /// A11. Its length `n` isn't used.
    #[tactic(auto, unfolding(crate::specs::Instructions::after_instruction))]
    fn return_from_exception(&mut self, n: u32)
        ensures { (event : Event) → self.new ≡ after_instruction self.old event Shape.Rfe n }
    {
        let back = self.a[11] / 2 * 2;
        let parts = pcxi_parts(self.core, self.pcxi);
        self.restore(true);
        match self.end {
            End::Running => {
                self.pc = back;
                self.ie = parts.pie;
                self.ccpn = parts.pcpn;
            }
            End::Dead(_) => {}
        }
    }

    /// Executes `svlcx`, of `n` bytes: saves the lower context, and advances pc.
    #[tactic(auto, unfolding(crate::specs::Instructions::after_instruction))]
    fn save_lower_context(&mut self, n: u32)
        ensures { (event : Event) → self.new ≡ after_instruction self.old event Shape.Svlcx n }
    {
        self.save(false);
        match self.end {
            End::Running => self.advance_pc(n),
            End::Dead(_) => {}
        }
    }

    /// Executes `rslcx`, of `n` bytes: restores the lower context, and advances pc.
    #[tactic(auto, unfolding(crate::specs::Instructions::after_instruction))]
    fn restore_lower_context(&mut self, n: u32)
        ensures { (event : Event) → self.new ≡ after_instruction self.old event Shape.Rslcx n }
    {
        self.restore(false);
        match self.end {
            End::Running => self.advance_pc(n),
            End::Dead(_) => {}
        }
    }

    /// Executes `bisr` of `n` bytes: saves the lower context, sets CCPN to `c`, enables interrupts.
    #[tactic(auto, unfolding(crate::specs::Instructions::after_instruction))]
    fn begin_interrupt_routine(&mut self, c: u8, n: u32)
        ensures { (event : Event) → self.new ≡ after_instruction self.old event (Shape.Bisr c) n }
    {
        self.save(false);
        match self.end {
            End::Running => {
                self.advance_pc(n);
                self.ccpn = c;
                self.ie = true;
            }
            End::Dead(_) => {}
        }
    }
}
