// The outcome of a command, and the end of a command with this outcome.
ghost use Rattle.std.specs.Prelude.{◌≡◌, ◌≢◌, ◌≤◌, IsTrue, IfOk, OnOk, IfErr, IsOk, IsOkAnd};
ghost use Rattle.tcd_base.specs.Files.{KeepsFaultsIfSteady};
ghost use Rattle.tcd_base.specs.FailingCalls.{IsFaultCounted};
ghost use Rattle.tcd_reading.specs.Reports.{text_report, report_with_file, report_with_two_files, with_report_files};
ghost use Rattle.tcd_reading.specs.Endings.{ReportWritingStopped, EndsWithOutcome};
ghost use Rattle.tcd_reading.specs.Outcomes.{IsBadInputOrNoMemory};

use crate::status::{Status, print_with_status, status_of_failed_write};
use std::alloc::Global;
use std::marker::Model;
use tcd_base::{FileErr, Files, NoMemory, Sink};

/// A file to write: its name and its bytes.
#[derive(Drop)]
pub struct Write {
    /// The name of the file.
    pub name: String,
    /// Its new contents.
    pub bytes: Vec<u8>,
}

impl Model for Write {
    ghost use Rattle.std.specs.Prelude.{string_bytes};
    ghost use Rattle.tcd_reading.specs.Reports.{ReportFile};

    ghost Value = { ReportFile };

    ghost view = { λ w. record { name = string_bytes w.name; bytes = w.bytes.items } };
}

impl Write {
    /// Makes a file to write, with this name and these bytes. An error means that memory ran out.
    pub fn of(alloc: Global, name: &str, bytes: Vec<u8>) -> Result<Write, NoMemory>
        ensures { IfOk result (λ w. w ≡ record { name = name.now; bytes = bytes.items }) }
    {
        let name = String::from_str(alloc, name)?;
        Ok(Write { name, bytes })
    }
}

/// The report of a command: a status, the text to print, and the files to write before it.
#[derive(Drop)]
pub struct Report {
    pub status: Status,
    pub text: Vec<u8>,
    pub writes: Vec<Write>,
}

impl Model for Report {
    ghost use Rattle.tcd_reading.specs.Reports as reports;

    ghost Value = { reports.Report };

    ghost view = { λ r. record {
      status = r.status;
      text = r.text.items;
      writes = r.writes.items;
    } };
}

impl Report {
    /// Makes a report with this status, a text to print, and no file to write.
    pub fn of(alloc: Global, status: Status, text: Vec<u8>) -> Report
        ensures { result ≡ text_report status text.items }
    {
        Report {
            status,
            text,
            writes: Vec::new(alloc),
        }
    }
}

/// Why a command has no report on all its inputs.
#[derive(Drop)]
pub enum Stop {
    /// An input isn't in its form, with the line that is printed.
    BadInput(Vec<u8>),
    /// An input file couldn't be read.
    Unread,
    /// Out of memory.
    NoMemory,
}

impl From<NoMemory> for Stop {
    ghost use Rattle.std.specs.Prelude.{◌≡◌};
    ghost use Rattle.tcd_reading.specs.declared.outcome.Stop.TheVariants as stop;

    ghost from_gives = { λ _ e. e ≡ stop.NoMemory };

    /// Converts an allocation failure to the reason why a command stops.
    fn from(_error: NoMemory) -> Stop {
        Stop::NoMemory
    }
}

/// The outcome of a command, before a file is written or a text printed.
pub type Outcome = Result<Report, Stop>;

/// Returns a command's report with the status Done, one file to write and a text to print.
pub fn report_with_file(
    alloc: Global,
    name: &str,
    bytes: Vec<u8>,
    text: Vec<u8>,
) -> Result<Report, NoMemory>
    ensures { IfOk result (λ r. r ≡ report_with_file name.now bytes.items text.items) }
{
    let mut writes = Vec::new(alloc);
    writes.push(Write::of(alloc, name, bytes)?)?;
    Ok(Report {
        status: Status::Done,
        text,
        writes,
    })
}

/// Returns a command's report with the status Done, two files to write in this order and a text to
/// print.
pub fn report_with_two_files(
    alloc: Global,
    first: Write,
    second: Write,
    text: Vec<u8>,
) -> Result<Report, NoMemory>
    ensures { IfOk result (λ r. r ≡ report_with_two_files first second text.items) }
{
    let mut writes = Vec::new(alloc);
    writes.push(first)?;
    writes.push(second)?;
    Ok(Report {
        status: Status::Done,
        text,
        writes,
    })
}

/// Ends a command: writes the files of its outcome, then prints its text, and returns the status.
/// Only writing files allocates memory.
pub fn finish_outcome<F: Files, S: Sink>(
    alloc: Global,
    outcome: Outcome,
    files: &mut F,
    out: &mut S,
) -> Status
    ensures { EndsWithOutcome outcome (F.seen files.old) (F.seen files.new)
        (S.seen out.old) (S.seen out.new) result }
{
    match outcome {
        Ok(report) => match write_report_files(alloc, &report.writes, files) {
            Ok(()) => print_with_status(out, &report.text, report.status),
            Err(e) => status_of_failed_write(e),
        },
        Err(Stop::BadInput(text)) => print_with_status(out, &text, Status::BadInput),
        Err(Stop::Unread) => Status::Fault,
        Err(Stop::NoMemory) => Status::NoMemory,
    }
}

/// Returns why a command stops at a malformed input, with the line to print. If `line` is an error,
/// the reason is that memory ran out.
pub fn bad_input_stop(line: Result<Vec<u8>, NoMemory>) -> Stop
    ensures stops { IsBadInputOrNoMemory (λ t. IsOkAnd line (λ l. t ≡ l.items)) result }
    ensures sure { IsOk line → result ≢ Stop.NoMemory }
{
    match line {
        Ok(text) => Stop::BadInput(text),
        Err(_) => Stop::NoMemory,
    }
}

/// Writes the files of a command's report in order, up to the first failure, whose error is
/// returned.
fn write_report_files<F: Files>(
    alloc: Global,
    writes: &[Write],
    files: &mut F,
) -> Result<(), FileErr>
    ensures done { OnOk result
        ((F.seen files.new).held ≡ with_report_files (F.seen files.old).held writes.now) }
    ensures stopped { IfErr result
        (λ e. ReportWritingStopped (F.seen files.old).held (F.seen files.new).held writes.now) }
    ensures counted { IfErr result (λ e. e ≢ FileErr.NoMemory →
        IsFaultCounted (F.seen files.old).faults (F.seen files.new).faults) }
    ensures leaves { KeepsFaultsIfSteady (F.seen files.old) (F.seen files.new) }
    ensures later { (F.seen files.old).faults ≤ (F.seen files.new).faults }
    ensures never { IsTrue (F.seen files.old).steady → IfErr result (λ e. e ≡ FileErr.NoMemory) }
{
    for write in writes {
        match files.write(alloc, &write.name, &write.bytes) {
            Ok(()) => {}
            Err(e) => return Err(e),
        }
    }
    Ok(())
}
