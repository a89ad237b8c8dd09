//! The machine on worked programs.
use crate::asserts::same;
use crate::boards::{BOTH_TRAPS, CORE_16, ENABLED, Edit, board};
use crate::programs::{CALLER, LIMIT_TO_ZERO, LOADS, image};
use std::alloc::AllocGlobal;
use std::process::Abort;
use std::test::Fail;
use tc_machine::{End, Event, Machine};

const QUIET: Event = Event {
    irq: 0,
    input: 0,
    status: 0,
    aln: false,
};

#[test]
fn a_call_goes_and_comes_back(rt: HostRuntime) -> Result<(), Fail> {
    let image = image(&rt, &CALLER)?;
    for (plan, pcxi) in [
        (board(&rt, &[])?, 0x004d_0000),
        (board(&rt, &[CORE_16])?, 0x001d_0000),
    ] {
        let mut machine = Machine::start(rt.alloc(), &image, &plan)?;
        same(&rt, &machine.used(), &Some(0));
        same(&rt, &machine.next_load(), &None);
        machine.step(&QUIET);
        same(&rt, &machine.pcxi, &pcxi);
        same(&rt, &machine.fcx, &0x000d_0001);
        same(&rt, &machine.pc, &0x8000_0008);
        same(&rt, &machine.a[11], &0x8000_0004);
        same(&rt, &machine.used(), &Some(1));
        machine.run(&[QUIET, QUIET]);
        same(&rt, &machine.pc, &0x8000_0004);
        same(&rt, &machine.used(), &Some(0));
        same(&rt, &machine.end, &End::Running);
    }
    Ok(())
}

const ANSWERED: Event = Event {
    irq: 0,
    input: 0xffff_8001,
    status: 0,
    aln: true,
};

const BUSY: [Edit; 4] = [
    BOTH_TRAPS,
    ENABLED,
    (r#""irqs":[]"#, r#""irqs":[5,10]"#),
    (r#""ccpn":0"#, r#""ccpn":5"#),
];

fn busy_machine<R: Abort + AllocGlobal>(rt: &R) -> Result<Machine, Fail> {
    let image = image(rt, &LOADS)?;
    let plan = board(rt, &BUSY)?;
    Ok(Machine::start(rt.alloc(), &image, &plan)?)
}

#[test]
fn halfwords_with_and_without_sign(rt: HostRuntime) -> Result<(), Fail> {
    let mut machine = busy_machine(&rt)?;
    same(&rt, &machine.next_load(), &None);
    machine.step(&ANSWERED);
    same(&rt, &machine.next_load(), &Some((0xf000_0000, 2)));
    machine.run(&[ANSWERED, ANSWERED]);
    same(&rt, &machine.d[1], &0x8001);
    same(&rt, &machine.d[2], &0xffff_8001);
    same(&rt, &machine.next_load(), &Some((0xf000_0001, 2)));
    Ok(())
}

#[test]
fn misaligned_access_traps(rt: HostRuntime) -> Result<(), Fail> {
    let mut machine = busy_machine(&rt)?;
    machine.run(&[ANSWERED, ANSWERED, ANSWERED, ANSWERED]);
    same(&rt, &machine.pc, &0x8000_0140);
    same(
        &rt,
        &(machine.d[15], machine.a[11], machine.a[10]),
        &(4, 0x8000_000c, 0xd000_8800),
    );
    same(
        &rt,
        &(machine.ccpn, machine.ie, machine.used()),
        &(5, false, Some(1)),
    );
    Ok(())
}

#[test]
fn system_call_traps(rt: HostRuntime) -> Result<(), Fail> {
    let mut machine = busy_machine(&rt)?;
    machine.run(&[QUIET, QUIET, QUIET, QUIET, QUIET]);
    same(&rt, &machine.pc, &0x8000_01c0);
    same(
        &rt,
        &(machine.d[15], machine.a[11], machine.a[10]),
        &(3, 0x8000_0014, 0xd000_8800),
    );
    Ok(())
}

#[test]
fn interrupt_and_back(rt: HostRuntime) -> Result<(), Fail> {
    let mut machine = busy_machine(&rt)?;
    machine.step(&Event { irq: 5, ..QUIET });
    same(&rt, &machine.pc, &0x8000_0004);
    machine.step(&Event { irq: 10, ..QUIET });
    same(&rt, &machine.pc, &0x8000_0540);
    same(
        &rt,
        &(machine.pcxi, machine.psw, machine.a[11]),
        &(0x05cd_0000, 0xa00, 0x8000_0004),
    );
    same(
        &rt,
        &(machine.a[10], machine.ccpn, machine.ie),
        &(0xd000_8800, 10, false),
    );
    machine.step(&QUIET);
    same(
        &rt,
        &(machine.pc, machine.a[10]),
        &(0x8000_0004, 0xd000_9000),
    );
    same(
        &rt,
        &(machine.ccpn, machine.ie, machine.used()),
        &(5, true, Some(0)),
    );
    Ok(())
}

// Two areas are another task's, and two the reserve: FCX is at the limit. MTCR by one task moves it
// for all of them, so tasks are safe together only if K13 holds for each.
#[test]
fn a_task_can_move_the_limit(rt: HostRuntime) -> Result<(), Fail> {
    let image = image(&rt, &LIMIT_TO_ZERO)?;
    let plan = board(&rt, &[])?;
    let mut machine = Machine::start(rt.alloc(), &image, &plan)?;
    machine.fcx = 0x000d_0002;
    same(&rt, &machine.fcx, &machine.lcx);
    machine.run(&[QUIET, QUIET]);
    same(&rt, &machine.end, &End::Running);
    same(&rt, &(machine.fcx, machine.lcx), &(0x000d_0002, 0));
    Ok(())
}
