// Steps and runs.
ghost use Rattle.std.specs.Prelude.{◌≡◌, IfOk};
ghost use Rattle.tc_isa.specs.InBounds.{IsShapeInBounds};
ghost use Rattle.tc_machine.specs.Fetching.{shape_at_pc};
ghost use Rattle.tc_machine.specs.Stepping.{machine_after_event, step, run};

use crate::{Cause, End, Event, Machine};
use tc_isa::Shape;

impl Machine {
    /// Performs one event as `step` does; `found` is what the bytes at pc do, decoded already.
    #[tactic(auto, unfolding(crate::specs::Stepping::step))]
    pub fn step_predecoded(&mut self, event: &Event, found: Result<(Shape, u32), Cause>)
        requires found { found ≡ shape_at_pc self.old }
        requires bounded { IfOk found (λ it. IsShapeInBounds it.0) }
        ensures { self.new ≡ step self.old event.now }
    {
        match self.end {
            End::Running => self.perform_event(event, found),
            End::Dead(_) => return,
        }
        match self.end {
            End::Running => {
                self.psw = u32::from(event.status) * 0x100_0000 + self.psw % 0x100_0000;
            }
            End::Dead(_) => {}
        }
    }

    /// Performs one event: takes its interrupt, or executes the instruction at pc. If the machine
    /// still runs afterwards, the event's status byte is written to PSW. A dead machine doesn't
    /// change (manual, volumes 1 and 2).
    pub fn step(&mut self, event: &Event)
        ensures { self.new ≡ step self.old event.now }
    {
        self.step_predecoded(event, self.shape_at_pc());
    }

    /// Performs the events, one after another, as `step` does each.
    pub fn run(&mut self, events: &[Event])
        ensures { self.new ≡ run self.old events.now }
    {
        for event in events {
            self.step(event);
        }
    }

    /// Performs an event of a machine that runs: takes its interrupt if enabled and above the
    /// current priority, else executes the instruction at pc. `found` is what the bytes at pc do,
    /// decoded already.
    fn perform_event(&mut self, event: &Event, found: Result<(Shape, u32), Cause>)
        requires found { found ≡ shape_at_pc self.old }
        requires bounded { IfOk found (λ it. IsShapeInBounds it.0) }
        ensures { self.new ≡ machine_after_event self.old event.now }
    {
        if self.ie && self.ccpn < event.irq {
            self.take_interrupt(event.irq);
            return;
        }
        match self.fetch(found) {
            Ok((shape, n)) => self.execute(event, shape, n),
            Err(cause) => self.die(cause),
        }
    }
}
