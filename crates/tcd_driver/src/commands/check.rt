// The command `check`.
ghost use Rattle.tcd_driver.specs.Check.{IsCheckVerdict, check_reading};
ghost use Rattle.tcd_reading.specs.Outcomes.{IsCommandOutcome, IsReportOrNoMemory};

use depth_check::{Verdict, check};
use elf_image::Image;
use packed_cert::Cert;
use std::alloc::Global;
use tcd_base::Files;
use tcd_forms::{CertFile, ElfFile, PlanFile, certified_line, refused_line};
use tcd_plan::Plan;
use tcd_reading::{Outcome, Report, Status, read_input};

/// The command `check`: reads an executable, a plan and a certificate, and reports whether the
/// certificate is accepted.
#[inline(never)]
pub(crate) fn check_files<F: Files>(
    alloc: Global,
    elf: &str,
    plan: &str,
    cert: &str,
    files: &mut F,
) -> Outcome
    ensures { IsCommandOutcome
        (check_reading (record { elf = elf.now; plan = plan.now; cert = cert.now }))
        (F.seen files.old) (F.seen files.new) result }
{
    let image = read_input(&ElfFile, alloc, elf, files)?;
    let board = read_input(&PlanFile, alloc, plan, files)?;
    let proof = read_input(&CertFile, alloc, cert, files)?;
    check_verdict(alloc, &image, &board, &proof)
}

// Checks a certificate for an image and a plan. Reports how many CSAs are proved enough, or the
// first rule that fails.
fn check_verdict(alloc: Global, image: &Image, plan: &Plan, cert: &Cert) -> Outcome
    ensures { IsReportOrNoMemory (IsCheckVerdict image.now plan.now cert.now) result }
{
    match check(image, plan, cert) {
        Verdict::Yes(need) => {
            let line = certified_line(alloc, need, plan.areas - plan.reserve)?;
            Ok(Report::of(alloc, Status::Done, line))
        }
        Verdict::No { rule, key, addr } => {
            let line = refused_line(alloc, rule, key, addr)?;
            Ok(Report::of(alloc, Status::Refused, line))
        }
    }
}
