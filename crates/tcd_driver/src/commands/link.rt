// The command `link`.
ghost use Rattle.std.specs.Prelude.{◌≤◌, length, map, string_bytes};
ghost use Rattle.tcd_driver.specs.Link.{IsLinkReport, WritesImage, link_objects_reading, link_reading};
ghost use Rattle.tcd_reading.specs.Outcomes.{IsCommandOutcome, IsReportOrNoMemory};

use bumpalo::Bump;
use elf_image::Image;
use std::alloc::Global;
use tc_link::{Layout, link_borrowed};
use tc_object::ObjectRef;
use tcd_base::Files;
use tcd_forms::{LayoutFile, ObjectFile, bad_link_line, linked_image_line};
use tcd_reading::{Outcome, Report, Status, Stop, read_input, report_with_file};

/// The command `link`: reads a layout and objects, and returns the outcome, with the linked
/// executable to write under the name `image`.
#[inline(never)]
pub(crate) fn link_files<F: Files>(
    alloc: Global,
    layout: &str,
    image: &str,
    objects: &[String],
    files: &mut F,
) -> Outcome
    requires { length objects.now ≤ 65535 }
    ensures { IsCommandOutcome
        (link_reading (record {
          layout = layout.now;
          image = image.now;
          objects = map string_bytes objects.now;
        }))
        (F.seen files.old) (F.seen files.new) result }
{
    let places = read_input(&LayoutFile, alloc, layout, files)?;
    link_object_files(alloc, image, &places, objects, files)
}

// Reads the object files that `link` names, links the objects by this layout, and reports the image
// to write under this name.
fn link_object_files<F: Files>(
    alloc: Global,
    name: &str,
    layout: &Layout,
    objects: &[String],
    files: &mut F,
) -> Outcome
    requires { length objects.now ≤ 65535 }
    ensures { IsCommandOutcome
        (link_objects_reading name.now layout.now (map string_bytes objects.now))
        (F.seen files.old) (F.seen files.new) result }
{
    let arena = Bump::new(alloc);
    let mut parts = Vec::new(alloc);
    for i in 0..objects.len() {
        let form = ObjectFile {
            place: i as u32,
            arena: &arena,
        };
        let part = read_input(&form, alloc, objects[i].as_str(), files)?;
        match parts.push(part) {
            Ok(()) => {}
            Err(_) => return Err(Stop::NoMemory),
        }
    }
    link_and_report(alloc, name, layout, &parts)
}

// Links objects by a layout. Reports the image to write, or why the objects can't be linked.
fn link_and_report(alloc: Global, name: &str, layout: &Layout, objects: &[ObjectRef<'_>]) -> Outcome
    requires { length objects.now ≤ 65535 }
    ensures { IsReportOrNoMemory (IsLinkReport name.now layout.now objects.now) result }
{
    match link_borrowed(alloc, objects, layout) {
        Ok(image) => linked_image_report(alloc, name, &image),
        Err(e) => Ok(Report::of(alloc, Status::BadInput, bad_link_line(alloc, e)?)),
    }
}

// Returns the report of `link`: the image to write under this name, and the line with its size.
fn linked_image_report(alloc: Global, name: &str, image: &Image) -> Outcome
    ensures { IsReportOrNoMemory (WritesImage name.now image.now) result }
{
    match image.write(alloc) {
        Ok(bytes) => {
            let line = linked_image_line(alloc, &bytes)?;
            Ok(report_with_file(alloc, name, bytes, line)?)
        }
        Err(_) => Err(Stop::NoMemory),
    }
}
