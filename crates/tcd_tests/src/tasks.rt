//! The view of a task.
use crate::asserts::same;
use crate::boards::{EIGHT_AREAS, board};
use crate::programs::{Program, image};
use std::test::Fail;
use task_chains::{Tasks, routine_fault, view_image, view_plan};

const TWO_TASKS: &str =
    "switch 80000020 D0008100\ntask 80000000 D0009000\ntask 80000010 D0008C00\n";

/// Two tasks that give way again and again, and the routine, with its block at D0008100.
static GIVING_WAY: Program<'static> = Program {
    source: ".section text\n\
        .global main\n\
        main: call16 switch\n\
        j16 main\n\
        .space 12\n\
        other: call16 switch\n\
        j16 other\n\
        .space 12\n\
        switch: disable\n\
        svlcx\n\
        movh.a a2, 0xD001\n\
        lea.l a2, [a2]-32512\n\
        ld.w.l d0, [a2]8\n\
        addsc.a a3, a2, d0, 2\n\
        mfcr d1, 0xFE00\n\
        st.w.l [a3]0, d1\n\
        addi d0, d0, 1\n\
        jne d0, 2, .+8\n\
        mov d0, 0\n\
        st.w.l [a2]8, d0\n\
        addsc.a a3, a2, d0, 2\n\
        ld.w.l d1, [a3]0\n\
        mtcr 0xFE00, d1\n\
        isync\n\
        rslcx\n\
        ret\n",
    layout: "entry main\nplace text 80000000 00000400\n",
};

#[test]
fn a_task_has_a_view(rt: HostRuntime) -> Result<(), Fail> {
    let alloc = rt.alloc();
    let image = image(&rt, &GIVING_WAY)?;
    let plan = board(&rt, &[EIGHT_AREAS])?;
    let bytes = TWO_TASKS.as_bytes();
    assert!(rt; bytes.len() <= 1000);
    let tasks = Tasks::read(bytes, &plan)?;
    same(
        &rt,
        &(tasks.switch, tasks.block),
        &(0x8000_0020, 0xd000_8100),
    );
    assert!(rt; tasks.list.len() == 2);
    same(&rt, &routine_fault(&image, &plan, &tasks), &None);
    let view = view_image(alloc, &image, &tasks, 1)?;
    same(&rt, &view.entry, &0x8000_0010);
    same(
        &rt,
        &(view.byte(0x8000_0030), view.byte(0x8000_0033)),
        &(Some(0x4d), Some(0)),
    );
    let other = view_plan(&plan, &tasks, 1);
    same(
        &rt,
        &(other.ram.len(), other.devices.len(), other.sp),
        &(0, 2, 0xd000_8c00),
    );
    Ok(())
}
