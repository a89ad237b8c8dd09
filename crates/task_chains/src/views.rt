// The view of a task: the image and the plan for which its certificate is judged.
ghost use Rattle.std.specs.Prelude.{◌≡◌, ◌<◌, ◌-◌, ◌==◌, ◌&&◌, false, nat_le, nat_lt, if◌then◌else◌, set, length, IfOk, ◌+◌, ◌*◌};
ghost use Rattle.elf_image.specs.Images.{segment_data};
ghost use Rattle.task_chains.specs.Tasks.{count};
ghost use Rattle.task_chains.specs.Views.{TasksFitPlan, with_view_routine_from, view_segment, view_image_of, view_plan_of};

use crate::Tasks;
use crate::devices::view_devices_outside_block;
use crate::routine::view_routine_bytes;
use arrayvec::ArrayVec;
use elf_image::{Image, Segment, establish_segment_bytes};
use std::alloc::Global;
use tcd_base::NoMemory;
use tcd_plan::Plan;

/// Returns the image of task `u`'s view, for analysing this task alone, with the task's entry
/// address. In the switch routine there, reads of its data and of PCXI give any word.
pub fn view_image(alloc: Global, image: &Image, tasks: &Tasks, u: usize) -> Result<Image, NoMemory>
    requires { u < count tasks.now }
    ensures { IfOk result (λ i. i ≡ view_image_of image.now tasks.now u) }
{
    let mut segments = Vec::new(alloc);
    for segment in &image.segments {
        segments.push(view_segment(alloc, segment, tasks)?)?;
    }
    establish_segment_bytes(&segments);
    Ok(Image {
        entry: tasks.list.as_slice()[u].entry,
        segments,
    })
}

/// Returns the plan of task `u`'s view, for analysing this task alone, with the task's stack
/// pointer. Ram outside the switch routine's data becomes peripherals that answer any word, and
/// tasks after the first start with interrupts disabled.
pub fn view_plan(plan: &Plan, tasks: &Tasks, u: usize) -> Plan
    requires task { u < count tasks.now }
    requires fit { TasksFitPlan plan.now tasks.now }
    ensures { result ≡ view_plan_of plan.now tasks.now u }
{
    Plan {
        rom: ArrayVec::try_from(plan.rom.as_slice()).unwrap(),
        ram: ArrayVec::new(),
        devices: view_devices_outside_block(plan, tasks.block, tasks.block_size()),
        csa_at: plan.csa_at,
        areas: plan.areas,
        reserve: plan.reserve,
        sp: tasks.list.as_slice()[u].sp,
        isp: plan.isp,
        biv: plan.biv,
        btv: plan.btv,
        irqs: ArrayVec::try_from(plan.irqs.as_slice()).unwrap(),
        sys: plan.sys,
        aln: plan.aln,
        start_ie: are_interrupts_enabled_at_start(plan, u),
        start_ccpn: plan.start_ccpn,
        start_is: plan.start_is,
        globals: plan.globals,
        core: plan.core,
    }
}

/// Returns a copy of a segment for a task's view: other code replaces the switch routine, for
/// analysing this task alone.
fn view_segment(alloc: Global, segment: &Segment, tasks: &Tasks) -> Result<Segment, NoMemory>
    ensures { IfOk result (λ s. segment_data s
        ≡ view_segment tasks.now (segment_data segment.now)) }
{
    let mut bytes = Vec::from_slice(alloc, &segment.bytes)?;
    write_view_routine(&mut bytes, segment.at, tasks);
    Ok(Segment {
        at: segment.at,
        bytes,
    })
}

/// Overwrites the switch routine in a segment's `bytes`, from address `at` on, with the code that
/// replaces the routine when one task is analysed alone.
fn write_view_routine(bytes: &mut [u8], at: u32, tasks: &Tasks)
    ensures { bytes.new ≡ with_view_routine_from tasks.now at bytes.old }
{
    let routine = view_routine_bytes(tasks);
    for (i, byte) in routine.iter().enumerate() {
        write_view_byte(bytes, at, u64::from(tasks.switch) + i as u64, *byte);
    }
}

/// Writes `byte` at address `x` into the bytes of a segment that begins at address `at`. Nothing
/// changes if the segment doesn't hold `x`.
fn write_view_byte(bytes: &mut [u8], at: u32, x: u64, byte: u8)
    ensures { bytes.new ≡ (if nat_le at x && nat_lt (x - at) (length bytes.old)
        then set bytes.old (x - at) byte else bytes.old) }
{
    let at = u64::from(at);
    if at <= x && ((x - at) as usize) < bytes.len() {
        bytes[(x - at) as usize] = byte;
    }
}

/// Returns whether the analysis of task `u` alone starts with interrupts enabled: for task 0 as the
/// plan says, for the others never.
fn are_interrupts_enabled_at_start(plan: &Plan, u: usize) -> bool
    ensures { result ≡ (if u == 0 then plan.now.start_ie else false) }
{
    if u == 0 { plan.start_ie } else { false }
}
