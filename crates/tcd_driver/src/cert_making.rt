// Makes certificates, and checks them.
ghost use Rattle.std.specs.Prelude.{◌≡◌, ◌⊎◌};
ghost use Rattle.tcd_driver.specs.BestCert.{IsNoCertReport, IsBestCertOrErr, IsLeastCertOrErr};
ghost use Rattle.tcd_reading.specs.Outcomes.{IsReportOrNoMemory};

use depth_check::{Verdict, check};
use depth_maker::{MakeErr, make};
use elf_image::Image;
use packed_cert::Cert;
use std::alloc::Global;
use tcd_forms::refused_line;
use tcd_plan::Plan;
use tcd_reading::{Outcome, Report, Status, Stop};

/// Makes and checks the least certificate of format `version`, 1 or 2. Returns the certificate and
/// how many CSAs it proves enough, or why none of this format is accepted.
pub(crate) fn make_least_cert(
    alloc: Global,
    image: &Image,
    plan: &Plan,
    version: u8,
) -> Result<(Cert, u32), MakeErr>
    requires { (version ≡ 1) ⊎ (version ≡ 2) }
    ensures { IsLeastCertOrErr image.now plan.now version result }
{
    let cert = make(alloc, image, plan, version)?;
    // What holds of every certificate is known after its format is read.
    let _version = cert.version();
    match check(image, plan, &cert) {
        Verdict::Yes(need) => Ok((cert, need)),
        Verdict::No { .. } => unreachable!(),
    }
}

/// Makes and checks the least certificate of format 1, or of format 2 if none of format 1 is
/// accepted. Returns the certificate and how many CSAs are enough, or why there is none.
pub(crate) fn make_best_cert(
    alloc: Global,
    image: &Image,
    plan: &Plan,
) -> Result<(Cert, u32), MakeErr>
    ensures { IsBestCertOrErr image.now plan.now result }
{
    match make_least_cert(alloc, image, plan, 1) {
        Ok((cert, need)) => Ok((cert, need)),
        Err(MakeErr::Refused { .. }) => make_least_cert(alloc, image, plan, 2),
        Err(MakeErr::NoMemory) => Err(MakeErr::NoMemory),
    }
}

/// Returns the outcome if no certificate can be made: a refusal with the first rule that fails, its
/// address and frame, or out of memory.
pub(crate) fn report_no_cert(alloc: Global, e: MakeErr) -> Outcome
    ensures { IsReportOrNoMemory (IsNoCertReport e) result }
{
    match e {
        MakeErr::Refused { rule, key, addr } => {
            let line = refused_line(alloc, rule, key, addr)?;
            Ok(Report::of(alloc, Status::Refused, line))
        }
        MakeErr::NoMemory => Err(Stop::NoMemory),
    }
}
