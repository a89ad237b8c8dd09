// The command `cells`.
ghost use Rattle.value_cells.specs.Cells.{AreCells};
ghost use Rattle.tcd_driver.specs.Cells.{IsCellsVerdict, cells_reading};
ghost use Rattle.tcd_reading.specs.Outcomes.{IsCommandOutcome, IsReportOrNoMemory};

use crate::cell_and_task_files::CellsFile;
use depth_check::{Verdict, check};
use elf_image::Image;
use packed_cert::Cert;
use std::alloc::Global;
use tcd_base::Files;
use tcd_forms::{CertFile, ElfFile, PlanFile, certified_cells_line, refused_line};
use tcd_plan::Plan;
use tcd_reading::{Outcome, Report, Status, read_input};
use value_cells::{CELLS_RULE, Cells, cells_fault, with_cells};

/// The command `cells`: reads four files. Reports whether the certificate is accepted and keeps the
/// cells, words of RAM that one file lists, in their bounds.
#[inline(never)]
pub(crate) fn check_cells<F: Files>(
    alloc: Global,
    elf: &str,
    plan: &str,
    cells: &str,
    cert: &str,
    files: &mut F,
) -> Outcome
    ensures { IsCommandOutcome
        (cells_reading (record {
          elf = elf.now;
          plan = plan.now;
          cells = cells.now;
          cert = cert.now;
        }))
        (F.seen files.old) (F.seen files.new) result }
{
    let image = read_input(&ElfFile, alloc, elf, files)?;
    let board = read_input(&PlanFile, alloc, plan, files)?;
    let words = read_input(&CellsFile { plan: &board }, alloc, cells, files)?;
    let proof = read_input(&CertFile, alloc, cert, files)?;
    cells_verdict(alloc, &image, &board, &words, &proof)
}

// Checks a certificate under the plan with cells, words of RAM with bounds. Then checks K16, that
// stores keep the bounds, and reports the verdict.
fn cells_verdict(alloc: Global, image: &Image, plan: &Plan, cells: &Cells, cert: &Cert) -> Outcome
    requires { AreCells plan.now cells.now }
    ensures { IsReportOrNoMemory (IsCellsVerdict image.now plan.now cells.now cert.now) result }
{
    // What holds of every certificate is known after its format is read.
    let _version = cert.version();
    match check(image, &with_cells(plan, cells), cert) {
        Verdict::Yes(need) => match cells_fault(image, plan, cells, cert) {
            Some((key, addr)) => {
                let line = refused_line(alloc, CELLS_RULE, key, addr)?;
                Ok(Report::of(alloc, Status::Refused, line))
            }
            None => {
                let areas = plan.areas - plan.reserve;
                let count = cells.list().len();
                let line = certified_cells_line(alloc, need, areas, count)?;
                Ok(Report::of(alloc, Status::Done, line))
            }
        },
        Verdict::No { rule, key, addr } => {
            let line = refused_line(alloc, rule, key, addr)?;
            Ok(Report::of(alloc, Status::Refused, line))
        }
    }
}
