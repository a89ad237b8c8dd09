// The command `ship`.
ghost use Rattle.std.specs.Prelude.{◌≤◌, IfOk, List, length};
ghost use Rattle.tcd_forms.specs.Forms.{SourceData};
ghost use Rattle.tcd_reading.specs.Outcomes.{IsCommandOutcome, IsReportOrNoMemory};
ghost use Rattle.tcd_driver.specs.Ship.{AreShippedFiles, AreSourcesOfObjects, IsShipReportOnImage, IsShipmentReport, ship_args, ship_reading, ship_sources_reading};

use crate::cert_making::{make_best_cert, report_no_cert};
use elf_image::Image;
use std::alloc::Global;
use tc_link::{Layout, link};
use tc_object::Object;
use tcd_base::{Files, NoMemory};
use tcd_forms::{LayoutFile, PlacedSourceFile, PlanFile, bad_link_line, certified_line};
use tcd_plan::Plan;
use tcd_reading::{Outcome, Report, Status, Stop, Write, read_input, report_with_two_files};

/// The names of the files that `ship` reads, and of the two files that it writes.
#[derive(Clone, Copy)]
pub(crate) struct Shipment<'a> {
    pub(crate) plan: &'a str,
    pub(crate) layout: &'a str,
    pub(crate) elf: &'a str,
    pub(crate) cert: &'a str,
    pub(crate) sources: &'a [String],
}

/// The command `ship`: reads a plan, a layout and sources, and returns the outcome with their image
/// and its certificate to write.
#[inline(never)]
pub(crate) fn ship_files<F: Files>(alloc: Global, names: &Shipment<'_>, files: &mut F) -> Outcome
    requires { length names.now.sources.now ≤ 65535 }
    ensures { IsCommandOutcome (ship_reading (ship_args names.now)) (F.seen files.old)
        (F.seen files.new)
        result }
{
    let plan = read_input(&PlanFile, alloc, names.plan, files)?;
    let layout = read_input(&LayoutFile, alloc, names.layout, files)?;
    ship_sources(alloc, names, &plan, &layout, files)
}

// Assembles the source files that `ship` names, keeps only their objects, and then links and
// certifies them.
fn ship_sources<F: Files>(
    alloc: Global,
    names: &Shipment<'_>,
    plan: &Plan,
    layout: &Layout,
    files: &mut F,
) -> Outcome
    requires { length names.now.sources.now ≤ 65535 }
    ensures { IsCommandOutcome (ship_sources_reading names.now plan.now layout.now)
        (F.seen files.old) (F.seen files.new) result }
{
    let sources = names.sources;
    let mut objects = Vec::new(alloc);
    for i in 0..sources.len() {
        let form = PlacedSourceFile { place: i as u32 };
        let source = read_input(&form, alloc, sources[i].as_str(), files)?;
        match objects.push(source.object) {
            Ok(()) => {}
            Err(_) => return Err(Stop::NoMemory),
        }
    }
    ship_objects(alloc, names, plan, layout, &objects)
}

// Links the objects of the sources that `ship` names. Certifies the image, or reports why they
// can't be linked.
fn ship_objects(
    alloc: Global,
    names: &Shipment<'_>,
    plan: &Plan,
    layout: &Layout,
    objects: &[Object],
) -> Outcome
    requires { length objects.now ≤ 65535 }
    ensures { (ss : List SourceData) → AreSourcesOfObjects ss objects.now →
        IsReportOrNoMemory (IsShipmentReport names.now plan.now layout.now ss) result }
{
    let _entry = &layout.entry;
    match link(alloc, objects, layout) {
        Ok(image) => ship_image(alloc, names, plan, &image),
        Err(e) => Ok(Report::of(alloc, Status::BadInput, bad_link_line(alloc, e)?)),
    }
}

// Makes the best certificate of the image that `ship` linked. Reports both files to write, or why
// none is accepted.
fn ship_image(alloc: Global, names: &Shipment<'_>, plan: &Plan, image: &Image) -> Outcome
    ensures { IsReportOrNoMemory
        (IsShipReportOnImage names.now.elf.now names.now.cert.now plan.now image.now)
        result }
{
    let bytes = match image.write(alloc) {
        Ok(bytes) => bytes,
        Err(_) => return Err(Stop::NoMemory),
    };
    match make_best_cert(alloc, image, plan) {
        Ok((cert, need)) => {
            let line = certified_line(alloc, need, plan.areas - plan.reserve)?;
            let (first, second) = shipped_files(alloc, names, bytes, cert.into_bytes())?;
            Ok(report_with_two_files(alloc, first, second, line)?)
        }
        Err(e) => report_no_cert(alloc, e),
    }
}

/// Returns the two files that `ship` writes, in this order: the executable and its certificate,
/// with these bytes. An error means that memory ran out.
fn shipped_files(
    alloc: Global,
    names: &Shipment<'_>,
    image: Vec<u8>,
    cert: Vec<u8>,
) -> Result<(Write, Write), NoMemory>
    ensures { IfOk result (AreShippedFiles names.now image.items cert.items) }
{
    let first = Write::of(alloc, names.elf, image)?;
    let second = Write::of(alloc, names.cert, cert)?;
    Ok((first, second))
}
