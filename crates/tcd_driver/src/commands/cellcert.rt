// The command `cellcert`.
ghost use Rattle.value_cells.specs.Cells.{AreCells};
ghost use Rattle.tcd_driver.specs.Cellcert.{IsCellcertReport, cellcert_reading};
ghost use Rattle.tcd_reading.specs.Outcomes.{IsCommandOutcome, IsReportOrNoMemory};

use crate::cell_and_task_files::CellsFile;
use crate::cert_making::{make_least_cert, report_no_cert};
use elf_image::Image;
use std::alloc::Global;
use tcd_base::Files;
use tcd_forms::{ElfFile, PlanFile, certified_cells_line, refused_line};
use tcd_plan::Plan;
use tcd_reading::{Outcome, Report, Status, read_input, report_with_file};
use value_cells::{CELLS_RULE, Cells, cells_fault, with_cells};

/// The command `cellcert`: reads an executable, a plan and its cells, words of RAM with bounds.
/// Returns the outcome, with a certificate to write that keeps the bounds.
#[inline(never)]
pub(crate) fn certify_cells<F: Files>(
    alloc: Global,
    elf: &str,
    plan: &str,
    cells: &str,
    cert: &str,
    files: &mut F,
) -> Outcome
    ensures { IsCommandOutcome
        (cellcert_reading (record {
          elf = elf.now;
          plan = plan.now;
          cells = cells.now;
          cert = cert.now;
        }))
        (F.seen files.old) (F.seen files.new) result }
{
    let image = read_input(&ElfFile, alloc, elf, files)?;
    let board = read_input(&PlanFile, alloc, plan, files)?;
    let words = read_input(&CellsFile { plan: &board }, alloc, cells, files)?;
    make_cells_cert(alloc, cert, &image, &board, &words)
}

// Makes the least certificate of format 2 under the plan with cells, words of RAM with bounds.
// Reports the certificate, to write as the file `name`, or the rule that fails.
fn make_cells_cert(alloc: Global, name: &str, image: &Image, plan: &Plan, cells: &Cells) -> Outcome
    requires { AreCells plan.now cells.now }
    ensures { IsReportOrNoMemory (IsCellcertReport name.now image.now plan.now cells.now) result }
{
    let areas = plan.areas - plan.reserve;
    match make_least_cert(alloc, image, &with_cells(plan, cells), 2) {
        Ok((cert, need)) => match cells_fault(image, plan, cells, &cert) {
            Some((key, addr)) => {
                let line = refused_line(alloc, CELLS_RULE, key, addr)?;
                Ok(Report::of(alloc, Status::Refused, line))
            }
            None => {
                let count = cells.list().len();
                let line = certified_cells_line(alloc, need, areas, count)?;
                Ok(report_with_file(alloc, name, cert.into_bytes(), line)?)
            }
        },
        Err(e) => report_no_cert(alloc, e),
    }
}
