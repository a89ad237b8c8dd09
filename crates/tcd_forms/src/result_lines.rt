// The printed lines on results: runs, files that were written, certified needs, and refusals.
ghost use Rattle.std.specs.Prelude.{◌≡◌, length, IfOk, ◌<◌};
ghost use Rattle.depth_cert.specs.Nodes.{count_points};
ghost use Rattle.tcd_forms.specs.Lines.{boot_line, bootgen_line, certified_cells_line, certified_tasks_line, gen_line, assembled_object_line, linked_image_line, death_cause_text, run_line, certified_line, refused_line, refused_switch_line, line_with_task, refused_task_line, refused_sum_line};
ghost use Rattle.tcd_text.specs.HexNumbers.{hex_word};

use crate::error_lines::{append_to_printed_line, copy_printed_line};
use depth_cert::{Key, key_kind_text};
use packed_cert::Cert;
use std::alloc::Global;
use tc_machine::{Cause, End, Machine};
use tcd_base::NoMemory;
use tcd_text::hex_word;

/// Returns the printed line of `boot` on a certified boot sequence: its events, the needed CSAs,
/// and those of the plan without its reserve.
#[tactic(auto, unfolding(crate::specs::Lines::boot_line))]
pub fn boot_line(alloc: Global, events: u32, need: u32, areas: u32) -> Result<Vec<u8>, NoMemory>
    ensures { IfOk result (λ line. line.items ≡ boot_line events need areas) }
{
    let text = format!(in alloc; "boot {events} events certified {need} of {areas} areas\n")?;
    Ok(text.into_bytes())
}

/// Returns the printed line of `bootgen` on a boot sequence that was written as a source.
#[tactic(auto, unfolding(crate::specs::Lines::bootgen_line))]
pub fn bootgen_line() -> &'static [u8]
    ensures { result.now ≡ bootgen_line }
{
    b"boot 56 instructions\n"
}

/// Returns the line printed if cells, words of RAM, stay in their bounds: the needed CSAs, the
/// plan's without its reserve, and how many cells.
#[tactic(auto, unfolding(crate::specs::Lines::certified_cells_line))]
pub fn certified_cells_line(
    alloc: Global,
    need: u32,
    areas: u32,
    count: usize,
) -> Result<Vec<u8>, NoMemory>
    ensures { IfOk result
        (λ line. line.items ≡ certified_cells_line need areas count) }
{
    let text = format!(in alloc; "certified {need} of {areas} areas with {count} cells\n")?;
    Ok(text.into_bytes())
}

/// Returns the printed line on certified tasks: the CSAs that they need together, those of the plan
/// without its reserve, and the number of tasks.
#[tactic(auto, unfolding(crate::specs::Lines::certified_tasks_line))]
pub fn certified_tasks_line(
    alloc: Global,
    sum: u64,
    areas: u32,
    n: usize,
) -> Result<Vec<u8>, NoMemory>
    ensures { IfOk result (λ line. line.items ≡ certified_tasks_line sum areas n) }
{
    let text = format!(in alloc; "certified {sum} of {areas} areas in {n} tasks\n")?;
    Ok(text.into_bytes())
}

/// Returns the printed line of `gen`: the image's functions, its certificate's nodes and points,
/// the needed CSAs, and those of the plan without its reserve.
#[tactic(auto, unfolding(crate::specs::Lines::gen_line))]
pub fn gen_line(
    alloc: Global,
    functions: u32,
    cert: &Cert,
    need: u32,
    areas: u32,
) -> Result<Vec<u8>, NoMemory>
    ensures { IfOk result (λ line. line.items ≡
        gen_line functions (length cert.now.nodes) (count_points cert.now.nodes) need areas) }
{
    let nodes = cert.len();
    let points = cert.count_points();
    let text = format!(in alloc;
        "functions {functions} nodes {nodes} points {points} certified {need} of {areas} areas\n"
    )?;
    Ok(text.into_bytes())
}

/// Returns the line on an accepted certificate: the needed CSAs, and the plan's without its
/// reserve.
#[tactic(auto, unfolding(crate::specs::Lines::certified_line))]
pub fn certified_line(alloc: Global, need: u32, areas: u32) -> Result<Vec<u8>, NoMemory>
    ensures { IfOk result (λ line. line.items ≡ certified_line need areas) }
{
    Ok(format!(in alloc; "certified {need} of {areas} areas\n")?.into_bytes())
}

/// Returns the printed line of `run`: the events, the peak of CSAs in use, and whether the machine
/// runs or how it died.
#[tactic(auto, unfolding(crate::specs::Lines::run_line, crate::specs::Lines::run_end_text))]
pub fn run_line(alloc: Global, events: u32, peak: u32, m: &Machine) -> Result<Vec<u8>, NoMemory>
    ensures { IfOk result (λ line. line.items ≡ run_line events peak m.now) }
{
    let mut line = format!(in alloc; "events {events} peak {peak} ")?.into_bytes();
    match m.end {
        End::Running => append_to_printed_line(&mut line, b"running\n")?,
        End::Dead(cause) => {
            append_to_printed_line(&mut line, b"dead ")?;
            append_to_printed_line(&mut line, death_cause_text(cause))?;
            append_to_printed_line(&mut line, b" at ")?;
            append_to_printed_line(&mut line, &hex_word(m.pc))?;
            append_to_printed_line(&mut line, b"\n")?;
        }
    }
    Ok(line)
}

/// Returns the printed line of `asm` on an object that was written, with its size in bytes.
#[tactic(auto, unfolding(crate::specs::Lines::assembled_object_line))]
pub fn assembled_object_line(alloc: Global, bytes: &[u8]) -> Result<Vec<u8>, NoMemory>
    ensures { IfOk result (λ text. text.items ≡ assembled_object_line (length bytes.now)) }
{
    let size = bytes.len();
    Ok(format!(in alloc; "object {size} bytes\n")?.into_bytes())
}

/// Returns the printed line of `link` on an image that was written, with its size in bytes.
#[tactic(auto, unfolding(crate::specs::Lines::linked_image_line))]
pub fn linked_image_line(alloc: Global, bytes: &[u8]) -> Result<Vec<u8>, NoMemory>
    ensures { IfOk result (λ text. text.items ≡ linked_image_line (length bytes.now)) }
{
    let size = bytes.len();
    Ok(format!(in alloc; "image {size} bytes\n")?.into_bytes())
}

/// Returns the printed line on a rule of certificates that fails, with the address and `key`, which
/// names the frame.
#[tactic(auto, unfolding(crate::specs::Lines::refused_line, crate::specs::Lines::line_end_with_frame))]
pub fn refused_line(alloc: Global, rule: u8, key: Key, addr: u32) -> Result<Vec<u8>, NoMemory>
    ensures { IfOk result (λ line. line.items ≡ refused_line rule key addr) }
{
    let mut line = format!(in alloc; "refused K{rule} at ")?.into_bytes();
    append_to_printed_line(&mut line, &hex_word(addr))?;
    append_to_printed_line(&mut line, b" in ")?;
    append_to_printed_line(&mut line, key_kind_text(key.kind).as_bytes())?;
    append_to_printed_line(&mut line, &hex_word(key.entry))?;
    let prio = key.prio;
    let text = format!(in alloc; " prio {prio} is ")?.into_bytes();
    append_to_printed_line(&mut line, &text)?;
    append_to_printed_line(&mut line, if key.is { b"1\n" } else { b"0\n" })?;
    Ok(line)
}

/// Returns the printed line for an image without the tasks' switch routine, with the first address
/// that differs.
#[tactic(auto, unfolding(crate::specs::Lines::refused_switch_line))]
pub fn refused_switch_line(alloc: Global, addr: u32) -> Result<Vec<u8>, NoMemory>
    ensures { IfOk result (λ line. line.items ≡ refused_switch_line addr) }
{
    let mut line = copy_printed_line(alloc, b"refused switch at ")?;
    append_to_printed_line(&mut line, &hex_word(addr))?;
    append_to_printed_line(&mut line, b"\n")?;
    Ok(line)
}

/// Returns the printed line on a rule that fails in the certificate of task `u`, with the address
/// and `key`, which names the frame.
#[tactic(auto, unfolding(crate::specs::Lines::line_with_task))]
pub fn refused_task_line(
    alloc: Global,
    rule: u8,
    key: Key,
    addr: u32,
    u: usize,
) -> Result<Vec<u8>, NoMemory>
    ensures { IfOk result (λ line. line.items ≡ refused_task_line rule key addr u) }
{
    let mut line = refused_line(alloc, rule, key, addr)?;
    let _end = line.pop();
    let text = format!(in alloc; " of task {u}\n")?.into_bytes();
    append_to_printed_line(&mut line, &text)?;
    Ok(line)
}

/// Returns the printed line on tasks whose needs together exceed the CSAs without the reserve.
#[tactic(auto, unfolding(crate::specs::Lines::refused_sum_line))]
pub fn refused_sum_line(alloc: Global, sum: u64, areas: u32) -> Result<Vec<u8>, NoMemory>
    ensures { IfOk result (λ line. line.items ≡ refused_sum_line sum areas) }
{
    Ok(format!(in alloc; "refused sum {sum} of {areas} areas\n")?.into_bytes())
}

/// Returns the word for a cause of death in the printed line on the result of a run.
#[tactic(auto, unfolding(crate::specs::Lines::death_cause_text))]
fn death_cause_text(cause: Cause) -> &'static [u8]
    ensures { result.now ≡ death_cause_text cause }
{
    match cause {
        Cause::Fcd => b"fcd",
        Cause::Fcu => b"fcu",
        Cause::Csu => b"csu",
        Cause::Ctyp => b"ctyp",
        Cause::NotListed => b"notlisted",
        Cause::NoCode => b"nocode",
        Cause::NoArea => b"noarea",
    }
}
