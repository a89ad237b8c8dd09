// The command `dis`.
ghost use Rattle.tcd_driver.specs.Dis.{IsDisReport, dis_reading};
ghost use Rattle.tcd_reading.specs.Outcomes.{IsCommandOutcome, IsReportOrNoMemory};

use elf_image::Image;
use std::alloc::Global;
use tc_disasm::listing;
use tcd_base::Files;
use tcd_forms::ElfFile;
use tcd_reading::{Outcome, Report, Status, read_input};

/// The command `dis`: reads an executable, and reports its listing.
#[inline(never)]
pub(crate) fn disassemble_file<F: Files>(alloc: Global, elf: &str, files: &mut F) -> Outcome
    ensures { IsCommandOutcome (dis_reading elf.now) (F.seen files.old) (F.seen files.new) result }
{
    let image = read_input(&ElfFile, alloc, elf, files)?;
    listing_report(alloc, &image)
}

// Returns the report of `dis`: the listing of an image, to print.
fn listing_report(alloc: Global, image: &Image) -> Outcome
    ensures { IsReportOrNoMemory (IsDisReport image.now) result }
{
    let text = listing(alloc, image)?;
    Ok(Report::of(alloc, Status::Done, text.into_bytes()))
}
