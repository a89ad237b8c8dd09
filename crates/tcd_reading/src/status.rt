// The statuses with which commands end.
ghost use Rattle.std.specs.Prelude.{◌≡◌, ◌≢◌, ◌≤◌};
ghost use Rattle.tcd_reading.specs.Endings.{PrintsWithStatus};

use std::marker::Model;
use tcd_base::{FileErr, NoMemory, Sink};

/// How a command ended. The exit status of the program is the number of the variant, from 0.
#[derive(Clone, Copy, Debug, PartialEq, Eq)]
pub enum Status {
    /// The command did what it was asked.
    Done,
    /// The inputs are in their forms, but the command refuses them.
    Refused,
    /// An input isn't in its form.
    BadInput,
    /// A file or the output failed.
    Fault,
    /// Out of memory.
    NoMemory,
    /// The arguments are no command.
    BadWords,
}

impl From<Status> for u8 {
    ghost use Rattle.std.specs.Prelude.{◌≡◌};
    ghost use Rattle.tcd_reading.specs.Statuses.{exit_status_of};

    ghost from_gives = { λ status code. code ≡ exit_status_of status };

    /// Returns the program's exit status, 0 to 5, for a command's status.
    fn from(status: Status) -> u8 {
        match status {
            Status::Done => 0,
            Status::Refused => 1,
            Status::BadInput => 2,
            Status::Fault => 3,
            Status::NoMemory => 4,
            Status::BadWords => 5,
        }
    }
}

/// Prints a text and returns the command's status: `status`, or `Fault` if printing failed.
/// Allocates no memory.
pub fn print_with_status<S: Sink>(out: &mut S, text: &[u8], status: Status) -> Status
    ensures prints { PrintsWithStatus status text.now (S.seen out.old) (S.seen out.new) result }
    ensures later { (S.seen out.old).faults ≤ (S.seen out.new).faults }
{
    match out.write(text) {
        Ok(()) => status,
        Err(_) => Status::Fault,
    }
}

// Returns the status of a command after a write of its output files failed: no memory, or a fault.
pub(crate) fn status_of_failed_write(e: FileErr) -> Status
    ensures memory { e ≡ FileErr.NoMemory → result ≡ Status.NoMemory }
    ensures fault { e ≢ FileErr.NoMemory → result ≡ Status.Fault }
{
    match e {
        FileErr::NoMemory => Status::NoMemory,
        FileErr::Failed => Status::Fault,
        FileErr::TooLong => Status::Fault,
    }
}
