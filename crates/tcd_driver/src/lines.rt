// The printed lines for arguments that are no command, and on faults of boot sequences, of files of
// cells, and of files of tasks.
ghost use Rattle.std.specs.Prelude.{◌≡◌, IfOk, ◌<◌};
ghost use Rattle.tcd_driver.specs.BadInputLines.{bad_words_line, bad_cells_line, bad_tasks_line};
ghost use Rattle.tcd_driver.specs.Boot.{refused_boot_line};

use std::alloc::Global;
use task_chains::TasksErr;
use tc_boot::BootErr;
use tcd_base::NoMemory;
use tcd_forms::{append_to_printed_line, copy_printed_line};
use tcd_text::hex_word;
use value_cells::CellsErr;

// Returns the line `bad words`, which is printed for arguments that are no command.
#[tactic(auto, unfolding(crate::specs::BadInputLines::bad_words_line))]
pub(crate) fn bad_words_line() -> &'static [u8]
    ensures { result.now ≡ bad_words_line }
{
    b"bad words\n"
}

// Returns the line `refused boot N` on a boot sequence that `boot` refuses: N is the number of the
// reason, 1 to 4.
#[tactic(auto, unfolding(crate::specs::Boot::refused_boot_line))]
pub(crate) fn refused_boot_line(alloc: Global, e: BootErr) -> Result<Vec<u8>, NoMemory>
    ensures { IfOk result (λ line. line.items ≡ refused_boot_line e) }
{
    match e {
        BootErr::Enabled => copy_printed_line(alloc, b"refused boot 1\n"),
        BootErr::Odd => copy_printed_line(alloc, b"refused boot 2\n"),
        BootErr::Outside => copy_printed_line(alloc, b"refused boot 3\n"),
        BootErr::Differs(addr) => boot_difference_line(alloc, addr),
    }
}

/// Returns the line `bad cells N at L`, printed on a malformed file of cells, words of RAM with
/// bounds. Line L of the file has fault N, 1 to 4.
#[tactic(auto, unfolding(crate::specs::BadInputLines::bad_cells_line, tcd_forms::specs::Lines::line_end_with_number))]
pub(crate) fn bad_cells_line(alloc: Global, e: CellsErr) -> Result<Vec<u8>, NoMemory>
    ensures { IfOk result (λ line. line.items ≡ bad_cells_line e) }
{
    match e {
        CellsErr::BadLine(n) => Ok(format!(in alloc; "bad cells 1 at {n}\n")?.into_bytes()),
        CellsErr::NotRam(n) => Ok(format!(in alloc; "bad cells 2 at {n}\n")?.into_bytes()),
        CellsErr::Twice(n) => Ok(format!(in alloc; "bad cells 3 at {n}\n")?.into_bytes()),
        CellsErr::TooMany(n) => Ok(format!(in alloc; "bad cells 4 at {n}\n")?.into_bytes()),
    }
}

/// Returns the line `bad tasks N`, printed on a malformed file of tasks or a wrong number of
/// certificates. Faults 1 and 2 add `at` and the file's line.
#[tactic(auto, unfolding(crate::specs::BadInputLines::bad_tasks_line, tcd_forms::specs::Lines::line_end_with_number))]
pub(crate) fn bad_tasks_line(alloc: Global, e: TasksErr) -> Result<Vec<u8>, NoMemory>
    ensures { IfOk result (λ line. line.items ≡ bad_tasks_line e) }
{
    match e {
        TasksErr::BadLine(n) => Ok(format!(in alloc; "bad tasks 1 at {n}\n")?.into_bytes()),
        TasksErr::TooMany(n) => Ok(format!(in alloc; "bad tasks 2 at {n}\n")?.into_bytes()),
        TasksErr::TooFew => copy_printed_line(alloc, b"bad tasks 3\n"),
        TasksErr::NotRam => copy_printed_line(alloc, b"bad tasks 4\n"),
        TasksErr::NoRoom => copy_printed_line(alloc, b"bad tasks 5\n"),
        TasksErr::OnIsp => copy_printed_line(alloc, b"bad tasks 6\n"),
        TasksErr::Count => copy_printed_line(alloc, b"bad tasks 7\n"),
    }
}

// Returns the line `refused boot 4 at ADDR`: at `addr` the image first differs from the sequence.
#[tactic(auto, unfolding(crate::specs::Boot::refused_boot_line))]
pub(crate) fn boot_difference_line(alloc: Global, addr: u32) -> Result<Vec<u8>, NoMemory>
    ensures { IfOk result (λ line. line.items ≡ refused_boot_line (BootErr.Differs addr)) }
{
    let mut line = copy_printed_line(alloc, b"refused boot 4 at ")?;
    append_to_printed_line(&mut line, &hex_word(addr))?;
    append_to_printed_line(&mut line, b"\n")?;
    Ok(line)
}
