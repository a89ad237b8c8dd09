// The command `bootgen`.
ghost use Rattle.tcd_driver.specs.Boot.{BootSequenceFits, WritesBootSource, bootgen_reading};
ghost use Rattle.tcd_reading.specs.Outcomes.{IsCommandOutcome, IsReportOrNoMemory};

use std::alloc::Global;
use tc_boot::boot_source;
use tcd_base::Files;
use tcd_forms::{PlanFile, bootgen_line, copy_printed_line};
use tcd_plan::Plan;
use tcd_reading::{Outcome, read_input, report_with_file};

/// The command `bootgen`: reads a plan, and returns the outcome with its boot sequence to write as
/// a source. The sequence is at `at` and jumps to `entry`.
#[inline(never)]
pub(crate) fn generate_boot_source<F: Files>(
    alloc: Global,
    plan: &str,
    entry: u32,
    at: u32,
    source: &str,
    files: &mut F,
) -> Outcome
    requires { BootSequenceFits at }
    ensures { IsCommandOutcome
        (bootgen_reading (record {
          plan = plan.now;
          entry = entry;
          at = at;
          source = source.now;
        }))
        (F.seen files.old) (F.seen files.new) result }
{
    let board = read_input(&PlanFile, alloc, plan, files)?;
    bootgen_report(alloc, &board, entry, at, source)
}

// Returns the report of `bootgen`: the plan's boot sequence, at `at` with a jump to `entry`, to
// write as the source of this name.
fn bootgen_report(alloc: Global, plan: &Plan, entry: u32, at: u32, source: &str) -> Outcome
    requires { BootSequenceFits at }
    ensures { IsReportOrNoMemory (WritesBootSource entry at source.now plan.now) result }
{
    let text = boot_source(alloc, plan, entry, at)?;
    let line = copy_printed_line(alloc, bootgen_line())?;
    Ok(report_with_file(alloc, source, text.into_bytes(), line)?)
}
