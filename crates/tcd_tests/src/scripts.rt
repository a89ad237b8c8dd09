//! Worked turn scripts, and the machine driven by them.
ghost use Rattle.std.specs.Prelude.{◌≡◌};
ghost use Rattle.tc_script.specs.ScriptsFitPlans.{FitsPlan};

use crate::asserts::same;
use crate::boards::{CORE_16, EIGHT_AREAS, ENABLED, Edit, INTERRUPTS, TWO_INTERRUPTS, board};
use crate::programs::{NESTED, POLLED, Program, image};
use std::alloc::AllocGlobal;
use std::process::Abort;
use std::test::Fail;
use tc_machine::{End, Event, Machine};
use tc_script::{Peak, Ports, Script, Turn, drive, drive_by_script};
use tcd_plan::Plan;

const EIGHT_16: [Edit; 4] = [EIGHT_AREAS, ENABLED, TWO_INTERRUPTS, CORE_16];

const DEVICE: [Edit; 1] = [(
    r#""devices":[]"#,
    r#""devices":[{"at":"0xF0000000","len":4,"lo":3,"hi":5}]"#,
)];

fn machine<R: Abort + AllocGlobal>(
    rt: &R,
    program: &Program,
    plan: &Plan,
) -> Result<Machine, Fail> {
    let image = image(rt, program)?;
    Ok(Machine::start(rt.alloc(), &image, plan)?)
}

#[test]
fn interrupt_on_both_cores(rt: HostRuntime) -> Result<(), Fail> {
    let taken = Event {
        irq: 10,
        input: 0,
        status: 0,
        aln: false,
    };
    for (plan, pcxi) in [
        (board(&rt, &INTERRUPTS)?, 0x00cd_0000),
        (board(&rt, &EIGHT_16)?, 0x003d_0000),
    ] {
        let mut m = machine(&rt, &NESTED, &plan)?;
        m.step(&taken);
        same(&rt, &m.pcxi, &pcxi);
        same(&rt, &m.pc, &0x8000_0540);
    }
    Ok(())
}

#[test]
fn polled_device(rt: HostRuntime) -> Result<(), Fail> {
    let plan = board(&rt, &DEVICE)?;
    let mut m = machine(&rt, &POLLED, &plan)?;
    let script = Script::read(rt.alloc(), b"in 0 3 3\nin 0 4 5\nstep 3", &plan)?;
    same(
        &rt,
        &drive_by_script(&mut m, &plan, &script),
        &Peak { events: 3, peak: 0 },
    );
    same(&rt, &m.end, &End::Running);
    same(&rt, &m.d[15], &5);
    Ok(())
}

// A caller with a closure of its own, which always answers the upper bound of the one peripheral.
fn drive_with_highest(m: &mut Machine, plan: &Plan, script: &Script) -> Option<Peak>
    requires { FitsPlan plan.now script.now }
{
    let [device] = plan.devices.as_slice() else {
        return None;
    };
    let highest = device.hi;
    if highest < device.lo {
        return None;
    }
    let ports = Ports::new(
        plan,
        |_addr: u32, _t: u32| -> u32
            ensures { result ≡ highest }
        { highest },
    );
    Some(drive(m, plan, script, &ports))
}

#[test]
fn polled_device_that_answers_its_highest(rt: HostRuntime) -> Result<(), Fail> {
    let plan = board(&rt, &DEVICE)?;
    let mut m = machine(&rt, &POLLED, &plan)?;
    let script = Script::read(rt.alloc(), b"step 3", &plan)?;
    let done = drive_with_highest(&mut m, &plan, &script);
    same(&rt, &done, &Some(Peak { events: 3, peak: 0 }));
    same(&rt, &m.d[15], &5);
    Ok(())
}

#[test]
fn turns_with_and_without_traps(rt: HostRuntime) -> Result<(), Fail> {
    let plan = board(&rt, &DEVICE)?;
    let text = b"step 1\naln 1\nstep 1\n\naln 0\nstep 1";
    let script = Script::read(rt.alloc(), text, &plan)?;
    assert!(rt; script.len() == 3);
    same(&rt, &script.turn(0), &Turn { irq: 0, aln: false });
    same(&rt, &script.turn(1), &Turn { irq: 0, aln: true });
    same(&rt, &script.turn(2), &Turn { irq: 0, aln: false });
    Ok(())
}
