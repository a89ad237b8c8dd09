//! What points of a small program owe, on the board with interrupts 10 and 20 and both traps.
ghost use Rattle.value_domain.specs.State.{AreInLattice};

use crate::asserts::{is_so, same};
use crate::boards::{BOTH_TRAPS, Edit, TWO_INTERRUPTS, board};
use crate::programs::{POINTS, image};
use crate::states::{open, with};
use cfg_recover::{Enter, Flow, Jump, Leave, after, flow, start_state};
use depth_cert::{Exit, Key};
use elf_image::Image;
use std::test::Fail;
use tcd_plan::Plan;
use value_domain::{Bounds, State, Val};

const BUSY: [Edit; 2] = [BOTH_TRAPS, TWO_INTERRUPTS];

// A10 is D0009000, A4 is D0008002 or D0008004, A15 is 80000000, 80000001 or 80000010; interrupts
// are on at CCPN 10.
fn state(b: &Bounds) -> State
    ensures { AreInLattice b.now result.regs }
{
    let s = with(b, open(b), 22, &[0xD000_9000]);
    let s = with(b, s, 18, &[0xD000_8002, 0xD000_8004]);
    let mut s = with(b, s, 26, &[0x8000_0000, 0x8000_0001, 0x8000_0010]);
    s.ie = true;
    s.ccpn = 10;
    s
}

fn key(kind: u8) -> Key {
    Key {
        kind,
        entry: 0x8000_0000,
        prio: 0,
        is: false,
    }
}

fn has_words(v: &Val, words: &[u32]) -> bool {
    match v.words() {
        Some(own) => own == words,
        None => false,
    }
}

fn goes_to(jump: &Option<Jump>, targets: &[u32]) -> bool {
    match jump {
        Some(jump) => jump.targets.as_slice() == targets,
        None => targets.is_empty(),
    }
}

fn enters(entry: &Option<Enter>, kind: u8, target: u32, resume: Option<u32>) -> bool {
    match entry {
        Some(e) => e.kind == kind
            && e.targets.as_slice() == [target].as_slice()
            && e.resume == resume,
        None => false,
    }
}

fn flow_at(plan: &Plan, image: &Image, kind: u8, at: u32) -> Result<Flow, u8> {
    let b = Bounds::of(plan, 1);
    flow(
        &b,
        image,
        plan,
        &key(kind),
        0x8000_0000 + at % 256,
        &state(&b),
    )
}

#[test]
fn jumps(rt: HostRuntime) -> Result<(), Fail> {
    let plan = board(&rt, &BUSY)?;
    let image = image(&rt, &POINTS)?;
    let moved = flow_at(&plan, &image, 0, 0).ok().ok_or("refused")?;
    is_so(&rt, goes_to(&moved.jumps[0], &[0x8000_0002]));
    is_so(&rt, goes_to(&moved.jumps[1], &[]));
    let branch = flow_at(&plan, &image, 0, 2).ok().ok_or("refused")?;
    is_so(&rt, goes_to(&branch.jumps[0], &[0x8000_0004]));
    is_so(&rt, goes_to(&branch.jumps[1], &[0x8000_000A]));
    let indirect = flow_at(&plan, &image, 0, 4).ok().ok_or("refused")?;
    is_so(
        &rt,
        goes_to(&indirect.jumps[0], &[0x8000_0000, 0x8000_0010]),
    );
    Ok(())
}

#[test]
fn entries(rt: HostRuntime) -> Result<(), Fail> {
    let plan = board(&rt, &BUSY)?;
    let image = image(&rt, &POINTS)?;
    let call = flow_at(&plan, &image, 0, 6).ok().ok_or("refused")?;
    is_so(&rt, enters(&call.enter, 1, 0x8000_000A, Some(0x8000_0008)));
    is_so(&rt, goes_to(&call.jumps[0], &[]));
    let system = flow_at(&plan, &image, 0, 18).ok().ok_or("refused")?;
    is_so(
        &rt,
        enters(&system.enter, 3, 0x8000_01C0, Some(0x8000_0016)),
    );
    for at in [12, 14] {
        let access = flow_at(&plan, &image, 0, at).ok().ok_or("refused")?;
        is_so(&rt, enters(&access.aln, 4, 0x8000_0140, None));
    }
    Ok(())
}

#[test]
fn interrupts(rt: HostRuntime) -> Result<(), Fail> {
    let plan = board(&rt, &BUSY)?;
    let image = image(&rt, &POINTS)?;
    let mask = flow_at(&plan, &image, 0, 16).ok().ok_or("refused")?;
    same(&rt, &mask.irqs.as_slice(), &[20].as_slice());
    same(&rt, &mask.irq_entry.ccpn, &0);
    let regs = &mask.irq_entry.regs[..];
    is_so(&rt, has_words(&regs[22], &[0xD000_8800]));
    Ok(())
}

// RET outside a called function, RFE outside a handler, and no code.
#[test]
fn leavings(rt: HostRuntime) -> Result<(), Fail> {
    let plan = board(&rt, &BUSY)?;
    let image = image(&rt, &POINTS)?;
    let ret = flow_at(&plan, &image, 1, 8).ok().ok_or("refused")?;
    same(&rt, &ret.leave, &Leave::Ret);
    let rfe = flow_at(&plan, &image, 2, 10).ok().ok_or("refused")?;
    same(&rt, &rfe.leave, &Leave::Rfe);
    same(&rt, &flow_at(&plan, &image, 0, 8).err(), &Some(6));
    same(&rt, &flow_at(&plan, &image, 1, 10).err(), &Some(7));
    same(&rt, &flow_at(&plan, &image, 0, 32).err(), &Some(3));
    Ok(())
}

// After a call the exit's IE and CCPN hold, after a system call the caller's; the lower registers
// are the exit's.
#[test]
fn coming_back(rt: HostRuntime) -> Result<(), Fail> {
    let plan = board(&rt, &[(r#""ccpn":0"#, r#""ccpn":7"#)])?;
    let s = start_state(&plan);
    let exit = Exit {
        ie: true,
        ccpn: 9,
        lower: std::array::from_fn(|i| Val::one(i as u32)),
    };
    let called = after(&s, &exit, 1);
    is_so(&rt, called.ie && called.ccpn == 9);
    is_so(&rt, has_words(&called.regs[7], &[7]));
    is_so(&rt, has_words(&called.regs[16], &[8]));
    is_so(&rt, has_words(&called.regs[22], &[0xD000_9000]));
    let system = after(&s, &exit, 3);
    is_so(&rt, !system.ie && system.ccpn == 7);
    Ok(())
}
