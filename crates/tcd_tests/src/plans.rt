//! A plan that is read, and the names of keys.
use crate::asserts::same;
use crate::boards::{Edit, board};
use std::test::Fail;
use tcd_base::{Core, Range};
use tcd_plan::{PlanKey, key_text};

const EDITS: [Edit; 2] = [
    (r#""traps":[]"#, r#""traps":["sys"],"core":"1.6""#),
    (r#""irqs":[]"#, r#""irqs":[10,"0xfF"]"#),
];

#[test]
fn reads_a_board(rt: HostRuntime) -> Result<(), Fail> {
    let plan = board(&rt, &EDITS)?;
    let rom = Range {
        at: 0x8000_0000,
        len: 0x1000,
    };
    let ram = Range {
        at: 0xD000_8000,
        len: 0x1000,
    };
    same(&rt, &plan.rom.as_slice(), &[rom].as_slice());
    same(&rt, &plan.ram.as_slice(), &[ram].as_slice());
    same(&rt, &plan.devices.len(), &0);
    same(
        &rt,
        &(plan.csa_at, plan.areas, plan.reserve),
        &(0xD000_0000, 4, 2),
    );
    same(&rt, &(plan.sp, plan.isp), &(0xD000_9000, 0xD000_8800));
    same(&rt, &(plan.biv, plan.btv), &(0x8000_0400, 0x8000_0100));
    same(&rt, &plan.irqs.as_slice(), &[10, 255].as_slice());
    same(&rt, &(plan.sys, plan.aln), &(true, false));
    same(
        &rt,
        &(plan.start_ie, plan.start_ccpn, plan.start_is),
        &(false, 0, false),
    );
    same(&rt, &plan.globals, &[0, 0, 0, 0]);
    same(&rt, &plan.core, &Core::V16);
    Ok(())
}

#[test]
fn names_keys(rt: HostRuntime) {
    same(&rt, &key_text(PlanKey(0)), &"root");
    same(&rt, &key_text(PlanKey(16)), &"sp");
    same(&rt, &key_text(PlanKey(31)), &"core");
}
