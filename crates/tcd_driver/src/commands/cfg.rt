// The command `cfg`.
ghost use Rattle.std.specs.Prelude.{IfOk};
ghost use Rattle.tcd_driver.specs.Cfg.{IsCfgReport, IsCfgText, cfg_reading};
ghost use Rattle.tcd_driver.specs.BestCert.{IsAcceptedBestCert};
ghost use Rattle.tcd_reading.specs.Outcomes.{IsCommandOutcome, IsReportOrNoMemory};

use crate::cert_making::{make_best_cert, report_no_cert};
use elf_image::Image;
use packed_cert::Cert;
use std::alloc::Global;
use tcd_base::{Files, NoMemory};
use tcd_forms::{ElfFile, PlanFile};
use tcd_plan::Plan;
use tcd_reading::{Outcome, Report, Status, read_input};
use tcd_report::graph;

/// The command `cfg`: reads an executable and a plan, and reports the control flow graph of their
/// best certificate.
#[inline(never)]
pub(crate) fn draw_cfg<F: Files>(alloc: Global, elf: &str, plan: &str, files: &mut F) -> Outcome
    ensures { IsCommandOutcome (cfg_reading (record { elf = elf.now; plan = plan.now }))
        (F.seen files.old) (F.seen files.new) result }
{
    let image = read_input(&ElfFile, alloc, elf, files)?;
    let board = read_input(&PlanFile, alloc, plan, files)?;
    draw_graph(alloc, &image, &board)
}

// Makes the best certificate of an image, and reports its control flow graph, or why none is
// accepted.
fn draw_graph(alloc: Global, image: &Image, plan: &Plan) -> Outcome
    ensures { IsReportOrNoMemory (IsCfgReport image.now plan.now) result }
{
    match make_best_cert(alloc, image, plan) {
        Ok((cert, _)) => {
            let text = cfg_command_text(alloc, image, plan, &cert)?;
            Ok(Report::of(alloc, Status::Done, text))
        }
        Err(e) => report_no_cert(alloc, e),
    }
}

// Returns the text that `cfg` prints, as bytes: the control flow graph of the best certificate.
#[inline(never)]
fn cfg_command_text(
    alloc: Global,
    image: &Image,
    plan: &Plan,
    cert: &Cert,
) -> Result<Vec<u8>, NoMemory>
    requires { IsAcceptedBestCert image.now plan.now cert.now }
    ensures { IfOk result (λ text. IsCfgText image.now plan.now text.items) }
{
    // Reading a field gives the facts that hold for every image and for every plan.
    let _entry = image.entry;
    let _areas = plan.areas;
    Ok(graph(alloc, image, plan, cert)?.into_bytes())
}
