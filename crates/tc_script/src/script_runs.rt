// Drives the machine by a script that answers for the peripherals too.
ghost use Rattle.std.specs.Prelude.{◌≡◌, length};
ghost use Rattle.tc_script.specs.ScriptsFitPlans.{FitsPlan};
ghost use Rattle.tc_script.specs.ScriptRuns.{IsScriptRun};
ghost use Rattle.tc_script.specs.Ports.{device_answer_at};

use crate::ports::device_answer_at;
use crate::{Peak, Ports, Script, drive};
use tc_machine::Machine;
use tcd_plan::Plan;

/// Runs the machine by a script that answers for the peripherals too, until the machine is dead or
/// the turns end. Returns how many events were performed, and the most save areas in use.
pub fn drive_by_script(m: &mut Machine, plan: &Plan, script: &Script) -> Peak
    requires { FitsPlan plan.now script.now }
    ensures { IsScriptRun plan.now script.now m.old m.new result }
{
    let devices = plan.devices.as_slice();
    let ports = Ports::new(
        plan,
        |addr: u32, t: u32| -> u32
            requires { length script.now.bounds ≡ length devices.now }
            ensures { result ≡ device_answer_at devices.entry.now script.entry.now.bounds addr t }
        { device_answer_at(devices, script, addr, t) },
    );
    drive(m, plan, script, &ports)
}
