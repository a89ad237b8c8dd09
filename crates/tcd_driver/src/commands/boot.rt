// The command `boot`.
ghost use Rattle.tcd_driver.specs.Boot.{IsBootVerdict, boot_reading};
ghost use Rattle.tcd_reading.specs.Outcomes.{IsCommandOutcome, IsReportOrNoMemory};

use crate::lines::refused_boot_line;
use depth_check::{Verdict, check};
use elf_image::Image;
use packed_cert::Cert;
use std::alloc::Global;
use tc_boot::boot_ok;
use tcd_base::Files;
use tcd_forms::{CertFile, ElfFile, PlanFile, boot_line, refused_line};
use tcd_plan::Plan;
use tcd_reading::{Outcome, Report, Status, read_input};

/// The command `boot`: reads three files, and reports whether the certificate is accepted and the
/// boot sequence is at address `at`.
#[inline(never)]
pub(crate) fn check_boot_files<F: Files>(
    alloc: Global,
    elf: &str,
    plan: &str,
    cert: &str,
    at: u32,
    files: &mut F,
) -> Outcome
    ensures { IsCommandOutcome
        (boot_reading (record { elf = elf.now; plan = plan.now; cert = cert.now; at = at }))
        (F.seen files.old) (F.seen files.new) result }
{
    let image = read_input(&ElfFile, alloc, elf, files)?;
    let board = read_input(&PlanFile, alloc, plan, files)?;
    let proof = read_input(&CertFile, alloc, cert, files)?;
    boot_verdict(alloc, &image, &board, &proof, at)
}

// Checks the certificate and the boot sequence at address `at`, and reports the verdict.
fn boot_verdict(alloc: Global, image: &Image, plan: &Plan, cert: &Cert, at: u32) -> Outcome
    ensures { IsReportOrNoMemory (IsBootVerdict image.now plan.now cert.now at) result }
{
    // Reading a field gives the facts that hold for every image.
    let _entry = image.entry;
    match check(image, plan, cert) {
        Verdict::Yes(need) => match boot_ok(image, plan, at) {
            Ok(events) => {
                let line = boot_line(alloc, events, need, plan.areas - plan.reserve)?;
                Ok(Report::of(alloc, Status::Done, line))
            }
            Err(e) => Ok(Report::of(alloc, Status::Refused, refused_boot_line(alloc, e)?)),
        },
        Verdict::No { rule, key, addr } => {
            let line = refused_line(alloc, rule, key, addr)?;
            Ok(Report::of(alloc, Status::Refused, line))
        }
    }
}
