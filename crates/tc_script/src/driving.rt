// Drives the machine by the turns of a script.
ghost use Rattle.std.specs.Prelude.{◌≡◌, ◌<◌, ◌^◌, IfOk};
ghost use Rattle.std.specs.Bool.{MatchBool};
ghost use Rattle.tc_isa.specs.InBounds.{IsShapeInBounds};
ghost use Rattle.tc_machine.specs.Fetching.{shape_at_pc};
ghost use Rattle.tc_script.specs.ScriptsFitPlans.{AreTurnInterruptsOfPlan};
ghost use Rattle.tc_script.specs.Ports.{AcceptsDeviceAddresses, AnswersWithinDeviceBounds};
ghost use Rattle.tc_script.specs.DrivenRuns.{IsEventOfTurn, IsDrivenRun};
ghost use Rattle.tc_machine.specs.Machine.{IsDead};

use crate::area_counts::{area_effect_of_event, count_areas_in_use, update_areas_in_use};
use crate::known_words::KnownWords;
use crate::ports::{Ports, port_input};
use crate::{Script, Turn};
use tc_isa::Shape;
use tc_machine::{Cause, End, Event, Machine};
use tcd_plan::Plan;

/// The number of events performed, and the greatest number of save areas in use.
#[derive(Clone, Copy, Debug, PartialEq, Eq)]
pub struct Peak {
    pub events: u32,
    pub peak: u32,
}

/// Steps the machine once for each turn of the script until the machine dies; `ports` answers loads
/// from peripherals, and other inputs are 0. Returns the number of steps and the most save areas in
/// use.
pub fn drive<F: Fn(u32, u32) -> u32>(
    m: &mut Machine,
    plan: &Plan,
    script: &Script,
    ports: &Ports<F>,
) -> Peak
    requires devices { ports.now.devices ≡ plan.now.devices }
    requires sources { AreTurnInterruptsOfPlan plan.now script.now.turns }
    requires askable { AcceptsDeviceAddresses (F.pre ports.now.answer) plan.now.devices }
    requires bounded { AnswersWithinDeviceBounds (F.post ports.now.answer) plan.now.devices }
    ensures { IsDrivenRun plan.now (F.post ports.now.answer) script.now.turns m.old m.new result }
{
    let mut areas = count_areas_in_use(m);
    let mut words = KnownWords::new();
    let mut done = Peak {
        events: 0,
        peak: areas.count,
    };
    for t in 0..script.len() {
        if !is_machine_running(m) {
            return done;
        }
        let place = words.find_or_decode_at_pc(m);
        let found = &words.words[place].found;
        let event = event_of_turn(ports, m, found, script.turn(t), t);
        let effect = area_effect_of_event(m, &event, found, areas);
        m.step_predecoded(&event, *found);
        update_areas_in_use(m, &mut areas, effect);
        done = Peak {
            events: t + 1,
            peak: done.peak.max(areas.count),
        };
    }
    done
}

/// Returns true if the machine runs, so that the script can drive it on.
fn is_machine_running(m: &Machine) -> bool
    ensures { MatchBool result (m.now.end ≡ End.Running) (IsDead m.now.end) }
{
    match m.end {
        End::Running => true,
        End::Dead(_) => false,
    }
}

/// Returns the machine's event in turn `t` of a script. The event's input is the answer of `ports`
/// to a load at pc, else 0; `found` is the result of decoding at pc.
fn event_of_turn<F: Fn(u32, u32) -> u32>(
    ports: &Ports<F>,
    m: &Machine,
    found: &Result<(Shape, u32), Cause>,
    turn: Turn,
    t: u32,
) -> Event
    requires askable { AcceptsDeviceAddresses (F.pre ports.now.answer) ports.now.devices }
    requires found { found.now ≡ shape_at_pc m.now }
    requires bounded { IfOk found.now (λ it. IsShapeInBounds it.0) }
    ensures event { IsEventOfTurn ports.now.devices (F.post ports.now.answer) t turn m.now result }
    ensures word { result.input < 2 ^ 32 }
{
    let input = port_input(ports, m.next_load_predecoded(found), t);
    Event {
        irq: turn.irq,
        input,
        status: 0,
        aln: turn.aln,
    }
}
