// The tool: arguments to status.
ghost use Rattle.std.specs.Prelude.{map, string_bytes, IsNone, IfSome, IfNone, ◌≡◌};
ghost use Rattle.tcd_driver.specs.Commands.{command, reading_of};
ghost use Rattle.tcd_driver.specs.Tool.{EndsWithBadWords, ToolSays};
ghost use Rattle.tcd_reading.specs.Endings.{Ends};

use crate::command::parse_command;
use crate::lines::bad_words_line;
use std::alloc::Global;
use tcd_base::{Files, Sink};
use tcd_reading::{Status, finish_outcome, print_with_status};

/// Runs the program on its arguments: reads input files, writes output files, prints one text, and
/// returns the status. Arguments that are no command are refused even without memory.
///
/// - `check ELF PLAN CERT` prints whether the certificate shows that every run is safe.
/// - `cert ELF PLAN CERT` makes the best certificate and writes it.
/// - `cfg ELF PLAN` prints the control flow graph of the best certificate.
/// - `report ELF PLAN CERT` prints the needs and the longest call chains of a certificate.
/// - `run ELF PLAN SCRIPT` runs the machine by a turn script, and prints how it ended.
/// - `dis ELF` prints the listing of an executable.
/// - `asm SRC OBJ` assembles a source and writes its object.
/// - `link LAYOUT ELF OBJ..` links objects by a layout and writes the executable.
/// - `ship PLAN LAYOUT ELF CERT SRC..` assembles, links and certifies. It writes the executable and
///   its certificate.
/// - `boot ELF PLAN CERT AT` checks the certificate, and then the boot sequence at an address.
/// - `bootgen PLAN ENTRY AT SRC` writes the boot sequence as a source.
/// - `cells ELF PLAN CELLS CERT` checks a certificate that also keeps words of RAM, the cells, in
///   bounds.
/// - `cellcert ELF PLAN CELLS CERT` makes such a certificate and writes it.
/// - `tasks ELF PLAN TASKS CERT..` checks one certificate for each task, and whether the CSAs are
///   enough for all tasks together.
/// - `taskcert ELF PLAN TASKS CERT..` makes these certificates and writes them.
/// - `gen N` generates an image of N functions and certifies it. It prints the numbers of nodes and
///   points.
pub fn tool<F: Files, S: Sink>(
    alloc: Global,
    words: &[String],
    files: &mut F,
    out: &mut S,
) -> Status
    ensures bad_words { result ≡ Status.BadWords → IsNone (command (map string_bytes words.now)) }
    ensures no_form { IfNone (command (map string_bytes words.now))
        (EndsWithBadWords (F.seen files.old) (F.seen files.new) (S.seen out.old)
        (S.seen out.new) result) }
    ensures command { IfSome (command (map string_bytes words.now))
        (λ c. Ends (reading_of c) (F.seen files.old) (F.seen files.new) (S.seen out.old)
        (S.seen out.new) result) }
    ensures says { ToolSays (record {
      words = map string_bytes words.now;
      files = F.seen files.old;
      files_after = F.seen files.new;
      sink = S.seen out.old;
      sink_after = S.seen out.new;
      status = result;
    }) }
{
    match parse_command(alloc, words) {
        Some(command) => {
            let outcome = command.outcome(alloc, files);
            finish_outcome(alloc, outcome, files, out)
        }
        None => print_with_status(out, bad_words_line(), Status::BadWords),
    }
}
