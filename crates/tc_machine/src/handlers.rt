// Enters handlers of interrupts and traps.
ghost use Rattle.std.specs.Prelude.{◌≡◌, ◌*◌, slice_set, false};
ghost use Rattle.tc_machine.specs.Handlers.{handler_psw, handler_stack_pointer, after_trap, after_interrupt};

use crate::{End, Machine};

/// Returns PSW in a handler, from PSW before: IO is 2, IS is 1, PRS and GW are 0, and the other
/// bits stay.
fn handler_psw(psw: u32) -> u32
    ensures { result ≡ handler_psw psw }
{
    psw / 0x4000 * 0x4000 + 0xa00 + psw % 0x100
}

impl Machine {
    /// Takes the interrupt of priority `irq` (manual, volume 1, interrupts): saves the upper
    /// context, and enters its handler with CCPN `irq` and interrupts off.
    pub(crate) fn take_interrupt(&mut self, irq: u8)
        ensures { self.new ≡ after_interrupt self.old irq }
    {
        let back = self.pc;
        let entry = self.biv | u32::from(irq) * 32;
        let stack = self.handler_stack_pointer();
        let psw = self.psw;
        self.save(true);
        match self.end {
            End::Running => {
                self.enter_handler(back, entry, stack, psw);
                self.ccpn = irq;
            }
            End::Dead(_) => {}
        }
    }

    /// Takes the trap of a class (manual, volume 1, traps): saves the upper context and enters the
    /// class's handler. D15 becomes its identification number `tin`, A11 the return address `back`.
    pub(crate) fn take_trap(&mut self, class: u8, tin: u8, back: u32)
        ensures { self.new ≡ after_trap self.old class tin back }
    {
        let entry = self.btv | u32::from(class) * 32;
        let stack = self.handler_stack_pointer();
        let psw = self.psw;
        self.save(true);
        match self.end {
            End::Running => {
                self.enter_handler(back, entry, stack, psw);
                self.d[15] = u32::from(tin);
            }
            End::Dead(_) => {}
        }
    }

    /// Returns the stack pointer that a handler begins with: the interrupt stack's pointer ISP, or
    /// A10 if the interrupt stack is in use already.
    fn handler_stack_pointer(&self) -> u32
        ensures { result ≡ handler_stack_pointer self.now }
    {
        if self.psw / 0x200 % 2 == 1 {
            self.a[10]
        } else {
            self.isp
        }
    }

    /// Enters a handler at `entry`, with the return address `back` in A11, `stack` in A10, a
    /// handler's PSW made from `psw`, and interrupts off.
    fn enter_handler(&mut self, back: u32, entry: u32, stack: u32, psw: u32)
        ensures { self.new ≡ record self.old {
          a = slice_set (slice_set self.old.a 11 back) 10 stack;
          psw = handler_psw psw;
          ie = false;
          pc = entry;
        } }
    {
        self.a[11] = back;
        self.a[10] = stack;
        self.psw = handler_psw(psw);
        self.ie = false;
        self.pc = entry;
    }
}
