// Reads the input files of commands, and turns each into a value.
ghost use Rattle.std.specs.Prelude.{◌≡◌, ◌≤◌, length, IfOk, IfErr};
ghost use Rattle.tcd_base.specs.Files.{ReadKeepsFiles};
ghost use Rattle.tcd_reading.specs.Inputs.{FormSeen, HoldsInput, IsInputRejection};
ghost use Rattle.tcd_reading.specs.Outcomes.{HasFailedToReadFile, IsBadInputOrNoMemory, IsBadInputStop};

use crate::outcome::{Stop, bad_input_stop};
use std::alloc::Global;
use tcd_base::{FileErr, Files, NoMemory};

/// The form of a kind of input files.
pub trait Form {
    /// The type of the value in a file of this form.
    type Out;

    /// The limit of this form, the line for a larger file, the value of bytes, and the lines for
    /// bytes without a value.
    ghost form: { Self → FormSeen Self.Out };

    /// A fact of each value that was read.
    ghost Fits: { Self → Self.Out → Type 0 };

    /// The most bytes of a file of this form.
    fn limit(&self) -> u32
        ensures { result ≡ (form self.now).limit };

    /// Returns the line that is printed for a file above the limit, or no memory.
    fn too_long_line(&self, alloc: Global) -> Result<Vec<u8>, NoMemory>
        ensures { IfOk result (λ line. line.items ≡ (form self.now).too_long_line) };

    /// Parses a file. `Err` has the line to print on malformed bytes, or means out of memory.
    fn parse(&self, alloc: Global, bytes: Vec<u8>) -> Result<Self::Out, Stop>
        requires { length bytes.items ≤ (form self.now).limit }
        ensures found { IfOk result ((form self.now).Is bytes.items) }
        ensures fits { IfOk result (Fits self.now) }
        ensures stops { IfErr result (IsBadInputOrNoMemory ((form self.now).IsBad bytes.items)) };
}

/// Reads a command's input file of this form and returns its value. A file that is too long, faulty
/// or unreadable stops the command.
pub fn read_input<I: Form, F: Files>(
    form: &I,
    alloc: Global,
    name: &str,
    files: &mut F,
) -> Result<I::Out, Stop>
    ensures leaves { ReadKeepsFiles name.now (F.seen files.old) (F.seen files.new) }
    ensures later { (F.seen files.old).faults ≤ (F.seen files.new).faults }
    ensures found { IfOk result (HoldsInput (I.form form.now) (F.seen files.old).held name.now) }
    ensures fits { IfOk result (I.Fits form.now) }
    ensures stops { IfErr result
        (IsBadInputStop (IsInputRejection (I.form form.now) (F.seen files.old).held name.now)
        (HasFailedToReadFile name.now (F.seen files.old) (F.seen files.new))) }
{
    match files.read(alloc, name, form.limit()) {
        Ok(bytes) => form.parse(alloc, bytes),
        Err(e) => Err(stop_for_file_error(form, alloc, e)),
    }
}

// Returns why a command stops at an input file that wasn't read: too long, failed, or out of
// memory.
fn stop_for_file_error<I: Form>(form: &I, alloc: Global, e: FileErr) -> Stop
    ensures { IsBadInputStop (λ t. (e ≡ FileErr.TooLong) × (t ≡ (I.form form.now).too_long_line))
        (e ≡ FileErr.Failed) result }
{
    match e {
        FileErr::Failed => Stop::Unread,
        FileErr::TooLong => bad_input_stop(form.too_long_line(alloc)),
        FileErr::NoMemory => Stop::NoMemory,
    }
}
