// The command `run`.
ghost use Rattle.tc_script.specs.ScriptsFitPlans.{FitsPlan};
ghost use Rattle.tcd_driver.specs.Run.{IsRunReport, run_reading};
ghost use Rattle.tcd_reading.specs.Outcomes.{IsCommandOutcome, IsReportOrNoMemory};

use elf_image::Image;
use std::alloc::Global;
use tc_machine::Machine;
use tc_script::{Script, drive_by_script};
use tcd_base::Files;
use tcd_forms::{ElfFile, PlanFile, ScriptFile, run_line};
use tcd_plan::Plan;
use tcd_reading::{Outcome, Report, Status, read_input};

/// The command `run`: reads three files, runs the machine by the turn script, and reports how the
/// run ended.
#[inline(never)]
pub(crate) fn run_script_file<F: Files>(
    alloc: Global,
    elf: &str,
    plan: &str,
    script: &str,
    files: &mut F,
) -> Outcome
    ensures { IsCommandOutcome
        (run_reading (record { elf = elf.now; plan = plan.now; script = script.now }))
        (F.seen files.old) (F.seen files.new) result }
{
    let image = read_input(&ElfFile, alloc, elf, files)?;
    let board = read_input(&PlanFile, alloc, plan, files)?;
    let form = ScriptFile { plan: &board };
    let turns = read_input(&form, alloc, script, files)?;
    run_script(alloc, &image, &board, &turns)
}

// Runs the reference machine by a turn script, which says when interrupts come and what peripherals
// answer. Reports the events, the most CSAs in use, and how the run ended.
fn run_script(alloc: Global, image: &Image, plan: &Plan, script: &Script) -> Outcome
    requires { FitsPlan plan.now script.now }
    ensures { IsReportOrNoMemory (IsRunReport image.now plan.now script.now) result }
{
    let mut machine = Machine::start(alloc, image, plan)?;
    let done = drive_by_script(&mut machine, plan, script);
    let line = run_line(alloc, done.events, done.peak, &machine)?;
    Ok(Report::of(alloc, Status::Done, line))
}
