// Executes instructions, but for those that save or restore a context.
ghost use Rattle.std.specs.Prelude.{◌≡◌, ◌<◌};
ghost use Rattle.tc_isa.specs.InBounds.{IsShapeInBounds};
ghost use Rattle.tc_machine.specs.declared.events.Event.{Event};
ghost use Rattle.tc_machine.specs.Instructions.{after_instruction};
ghost use Rattle.tc_machine.specs.InstructionKinds.{IfLoadOrStore, IfSystemInstruction};

use crate::accesses::{extended_loaded_word, is_trapping_access, store_low_bytes};
use crate::operand_addresses::wrapping_sum;
use crate::{Event, Machine};
use tc_isa::{Arg, Cond, Op, Shape, alu, taken};

/// The class of traps that instruction errors take, a misaligned access among them.
const INSTRUCTION_ERRORS: u8 = 2;

/// The identification number of the trap that a misaligned access takes.
const ALN: u8 = 4;

/// The operand, offset and size in bytes of a load or a store, and whether the base register is
/// increased afterwards.
#[derive(Clone, Copy)]
struct Access {
    base: Arg,
    offset: u32,
    size: u8,
    after: bool,
}

/// The condition of a branch, with the register and the operand that it compares.
#[derive(Clone, Copy)]
struct Comparison {
    cond: Cond,
    x: u8,
    y: Arg,
}

impl Machine {
    /// Executes an instruction of this shape and of `n` bytes (manual, volume 2, instruction set).
    #[tactic(auto, unfolding(crate::specs::Instructions::after_instruction))]
    pub(crate) fn execute(&mut self, event: &Event, shape: Shape, n: u32)
        requires { IsShapeInBounds shape }
        ensures { self.new ≡ after_instruction self.old event.now shape n }
    {
        match shape {
            Shape::Compute { op, dst, x, y } => self.execute_operation(op, dst, x, y, n),
            Shape::Scaled {
                dst,
                base,
                index,
                n: k,
            } => self.execute_scaled_add(dst, base, index, k, n),
            Shape::Load { .. } | Shape::Store { .. } => self.execute_load_or_store(event, shape, n),
            Shape::Branch {
                cond,
                x,
                y,
                by,
                lowers,
            } => self.execute_branch(Comparison { cond, x, y }, by, lowers, n),
            Shape::Jump { to } => self.pc = self.target_address(to),
            Shape::Call { .. } | Shape::Ret | Shape::Rfe | Shape::Svlcx | Shape::Rslcx => {
                self.execute_context_op(event, shape, n)
            }
            Shape::Bisr { .. } | Shape::Syscall { .. } => self.execute_context_op(event, shape, n),
            Shape::Enable | Shape::Disable | Shape::Mfcr { .. } | Shape::Mtcr { .. } => {
                self.execute_system_op(event, shape, n)
            }
            Shape::Nothing => self.advance_pc(n),
        }
    }

    /// Executes a load or a store, an instruction of `n` bytes. Other shapes are executed elsewhere
    /// and change nothing here.
    #[tactic(auto, unfolding(crate::specs::Instructions::after_instruction))]
    fn execute_load_or_store(&mut self, event: &Event, shape: Shape, n: u32)
        requires { IsShapeInBounds shape }
        ensures { IfLoadOrStore shape (self.new ≡ after_instruction self.old event.now shape n) }
    {
        match shape {
            Shape::Load {
                dst,
                base,
                offset,
                size,
                signed,
                after,
            } => {
                let at = Access {
                    base,
                    offset,
                    size,
                    after,
                };
                self.execute_load(event, dst, at, signed, n)
            }
            Shape::Store {
                src,
                base,
                offset,
                size,
                after,
            } => {
                let at = Access {
                    base,
                    offset,
                    size,
                    after,
                };
                self.execute_store(event, src, at, n)
            }
            _ => {}
        }
    }

    /// Executes an instruction of `n` bytes that enables or disables interrupts, or reads or writes
    /// a core register. Other shapes change nothing here.
    #[tactic(auto, unfolding(crate::specs::Instructions::after_instruction))]
    fn execute_system_op(&mut self, event: &Event, shape: Shape, n: u32)
        requires { IsShapeInBounds shape }
        ensures { IfSystemInstruction shape
            (self.new ≡ after_instruction self.old event.now shape n) }
    {
        match shape {
            Shape::Enable => {
                self.advance_pc(n);
                self.ie = true;
            }
            Shape::Disable => {
                self.advance_pc(n);
                self.ie = false;
            }
            Shape::Mfcr { dst, number } => {
                let word = self.core_register(event, number);
                self.set_reg(dst, word);
                self.advance_pc(n);
            }
            Shape::Mtcr { src, number } => {
                self.set_core_register(number, self.reg(src));
                self.advance_pc(n);
            }
            _ => {}
        }
    }

    /// Executes an arithmetic or logical instruction of `n` bytes: writes the result of `op` on two
    /// operands to the register `dst`.
    #[tactic(auto, unfolding(crate::specs::Instructions::after_instruction))]
    fn execute_operation(&mut self, op: Op, dst: u8, x: Arg, y: Arg, n: u32)
        requires { IsShapeInBounds (Shape.Compute op dst x y) }
        ensures { (event : Event)
            → self.new ≡ after_instruction self.old event (Shape.Compute op dst x y) n }
    {
        let word = alu(op, self.operand_value(x), self.operand_value(y));
        self.set_reg(dst, word);
        self.advance_pc(n);
    }

    /// Executes `addsc.a`, of `n` bytes: writes the sum of a base address and an index shifted to
    /// the left by `k` bits.
    #[tactic(auto, unfolding(crate::specs::Instructions::after_instruction))]
    fn execute_scaled_add(&mut self, dst: u8, base: u8, index: u8, k: u8, n: u32)
        requires { IsShapeInBounds (Shape.Scaled dst base index k) }
        ensures { (event : Event)
            → self.new ≡ after_instruction self.old event (Shape.Scaled dst base index k) n }
    {
        let word = wrapping_sum(self.reg(base), self.reg(index) << k);
        self.set_reg(dst, word);
        self.advance_pc(n);
    }

    /// Executes a load whose instruction has `n` bytes: writes the register `dst`, sign-extended if
    /// `signed`, and updates the base register with post-increment. If the access traps, the trap
    /// is taken instead.
    #[tactic(auto, unfolding(crate::specs::Instructions::after_instruction))]
    fn execute_load(&mut self, event: &Event, dst: u8, at: Access, signed: bool, n: u32)
        requires { IsShapeInBounds (Shape.Load dst at.base at.offset at.size signed at.after) }
        ensures { self.new ≡ after_instruction self.old event.now
            (Shape.Load dst at.base at.offset at.size signed at.after) n }
    {
        let addr = self.access_address(at.base, at.offset, at.after);
        if is_trapping_access(event, addr, at.size) {
            self.take_trap(INSTRUCTION_ERRORS, ALN, self.pc);
            return;
        }
        let word = extended_loaded_word(&self.mem, event.input, addr, at.size, signed);
        self.post_increment_base(at.base, at.offset, at.after);
        self.set_reg(dst, word);
        self.advance_pc(n);
    }

    /// Executes a store whose instruction has `n` bytes: writes the register `src` to memory, and
    /// updates the base with post-increment. If the access traps, the trap is taken instead.
    #[tactic(auto, unfolding(crate::specs::Instructions::after_instruction))]
    fn execute_store(&mut self, event: &Event, src: u8, at: Access, n: u32)
        requires { IsShapeInBounds (Shape.Store src at.base at.offset at.size at.after) }
        ensures { self.new ≡ after_instruction self.old event.now
            (Shape.Store src at.base at.offset at.size at.after) n }
    {
        let addr = self.access_address(at.base, at.offset, at.after);
        if is_trapping_access(event, addr, at.size) {
            self.take_trap(INSTRUCTION_ERRORS, ALN, self.pc);
            return;
        }
        let word = self.reg(src);
        self.post_increment_base(at.base, at.offset, at.after);
        store_low_bytes(&mut self.mem, addr, word, at.size);
        self.advance_pc(n);
    }

    /// Executes a branch of `n` bytes: if the comparison `test` holds, pc advances by `by`, else by
    /// `n`. With `lowers`, as in `loop`, the compared register is decremented.
    #[tactic(auto, unfolding(crate::specs::Instructions::after_instruction))]
    fn execute_branch(&mut self, test: Comparison, by: u32, lowers: bool, n: u32)
        requires { IsShapeInBounds (Shape.Branch test.cond test.x test.y by lowers) }
        ensures { (event : Event) → self.new ≡ after_instruction self.old event
            (Shape.Branch test.cond test.x test.y by lowers) n }
    {
        let goes = taken(test.cond, self.reg(test.x), self.operand_value(test.y));
        let distance = if goes { by } else { n };
        self.decrement_compared_register(test.x, lowers);
        self.advance_pc(distance);
    }
}
