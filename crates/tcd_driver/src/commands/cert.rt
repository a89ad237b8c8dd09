// The command `cert`.
ghost use Rattle.tcd_driver.specs.Cert.{IsCertReport, cert_reading};
ghost use Rattle.tcd_reading.specs.Outcomes.{IsCommandOutcome, IsReportOrNoMemory};

use crate::cert_making::{make_best_cert, report_no_cert};
use elf_image::Image;
use std::alloc::Global;
use tcd_base::Files;
use tcd_forms::{ElfFile, PlanFile, certified_line};
use tcd_plan::Plan;
use tcd_reading::{Outcome, read_input, report_with_file};

/// The command `cert`: reads an executable and a plan, and returns the outcome with their best
/// certificate to write.
#[inline(never)]
pub(crate) fn certify_executable<F: Files>(
    alloc: Global,
    elf: &str,
    plan: &str,
    cert: &str,
    files: &mut F,
) -> Outcome
    ensures { IsCommandOutcome
        (cert_reading (record { elf = elf.now; plan = plan.now; cert = cert.now }))
        (F.seen files.old) (F.seen files.new) result }
{
    let image = read_input(&ElfFile, alloc, elf, files)?;
    let board = read_input(&PlanFile, alloc, plan, files)?;
    certify_image(alloc, cert, &image, &board)
}

/// Makes the best certificate of an image under a plan. Reports the certificate, to write as the
/// file `name`, or why none is accepted.
fn certify_image(alloc: Global, name: &str, image: &Image, plan: &Plan) -> Outcome
    ensures { IsReportOrNoMemory (IsCertReport name.now image.now plan.now) result }
{
    match make_best_cert(alloc, image, plan) {
        Ok((cert, need)) => {
            let line = certified_line(alloc, need, plan.areas - plan.reserve)?;
            Ok(report_with_file(alloc, name, cert.into_bytes(), line)?)
        }
        Err(e) => report_no_cert(alloc, e),
    }
}
