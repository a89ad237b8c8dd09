// The command `asm`.
ghost use Rattle.tcd_driver.specs.Asm.{WritesObject, asm_reading};
ghost use Rattle.tcd_reading.specs.Outcomes.{IsCommandOutcome, IsReportOrNoMemory};

use std::alloc::Global;
use tc_object::Object;
use tcd_base::Files;
use tcd_forms::{SourceFile, assembled_object_line};
use tcd_reading::{Outcome, Stop, read_input, report_with_file};

/// The command `asm`: assembles the file named `source`, and returns the outcome, with the object
/// to write under the name `object`.
#[inline(never)]
pub(crate) fn assemble_file<F: Files>(
    alloc: Global,
    source: &str,
    object: &str,
    files: &mut F,
) -> Outcome
    ensures { IsCommandOutcome (asm_reading (record { source = source.now; object = object.now }))
        (F.seen files.old) (F.seen files.new) result }
{
    let made = read_input(&SourceFile, alloc, source, files)?;
    object_report(alloc, object, &made)
}

// Returns the report of `asm`: the object to write under this name, and the line with its size.
fn object_report(alloc: Global, name: &str, object: &Object) -> Outcome
    ensures { IsReportOrNoMemory (WritesObject name.now object.now) result }
{
    match object.write(alloc) {
        Ok(bytes) => {
            let line = assembled_object_line(alloc, &bytes)?;
            Ok(report_with_file(alloc, name, bytes, line)?)
        }
        Err(_) => Err(Stop::NoMemory),
    }
}
