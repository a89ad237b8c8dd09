// The command `report`.
ghost use Rattle.std.specs.Prelude.{IfOk};
ghost use Rattle.cfg_recover.specs.RulesHoldOrFail.{Accepts};
ghost use Rattle.tcd_report.specs.Reports.{IsReport};
ghost use Rattle.tcd_driver.specs.Reporting.{IsReportOrRefusal, report_reading};
ghost use Rattle.tcd_reading.specs.Outcomes.{IsCommandOutcome, IsReportOrNoMemory};

use depth_check::{Verdict, check};
use elf_image::Image;
use packed_cert::Cert;
use std::alloc::Global;
use tcd_base::{Files, NoMemory};
use tcd_forms::{CertFile, ElfFile, PlanFile, refused_line};
use tcd_plan::Plan;
use tcd_reading::{Outcome, Report, Status, read_input};
use tcd_report::report as chain_report;

/// The command `report`: reads an executable, a plan and a certificate, and reports on the
/// certificate if accepted.
#[inline(never)]
pub(crate) fn report_on_cert<F: Files>(
    alloc: Global,
    elf: &str,
    plan: &str,
    cert: &str,
    files: &mut F,
) -> Outcome
    ensures { IsCommandOutcome
        (report_reading (record { elf = elf.now; plan = plan.now; cert = cert.now }))
        (F.seen files.old) (F.seen files.new) result }
{
    let image = read_input(&ElfFile, alloc, elf, files)?;
    let board = read_input(&PlanFile, alloc, plan, files)?;
    let proof = read_input(&CertFile, alloc, cert, files)?;
    check_and_report(alloc, &image, &board, &proof)
}

// Checks a certificate. Reports its needs and longest call chains as JSON, or the first rule that
// fails.
fn check_and_report(alloc: Global, image: &Image, plan: &Plan, cert: &Cert) -> Outcome
    ensures { IsReportOrNoMemory (IsReportOrRefusal image.now plan.now cert.now) result }
{
    match check(image, plan, cert) {
        Verdict::Yes(_) => {
            let text = report_command_text(alloc, image, plan, cert)?;
            Ok(Report::of(alloc, Status::Done, text))
        }
        Verdict::No { rule, key, addr } => {
            let line = refused_line(alloc, rule, key, addr)?;
            Ok(Report::of(alloc, Status::Refused, line))
        }
    }
}

// Returns the text that `report` prints, as bytes: the JSON report of an accepted certificate.
#[inline(never)]
fn report_command_text(
    alloc: Global,
    image: &Image,
    plan: &Plan,
    cert: &Cert,
) -> Result<Vec<u8>, NoMemory>
    requires { Accepts image.now plan.now cert.now }
    ensures { IfOk result (λ text. IsReport image.now plan.now cert.now text.items) }
{
    Ok(chain_report(alloc, image, plan, cert)?.into_bytes())
}
