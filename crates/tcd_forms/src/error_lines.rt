// The printed lines on malformed files, and on objects that can't be linked.
ghost use Rattle.std.specs.Prelude.{◌≡◌, ◌<◌, ◌++◌, length, IsErr, IfOk, IfSome, OnOk};
ghost use Rattle.tcd_forms.specs.Lines.{elf_too_long_line, plan_too_long_line, cert_too_long_line, script_too_long_line, source_too_long_line, line_end_with_key, bad_elf_line, bad_plan_line, bad_cert_line, bad_script_line, bad_source_line, layout_too_long_line, cells_too_long_line, tasks_too_long_line, bad_layout_line, object_too_long_line, bad_object_line, reloc_fault_number, bad_link_line, line_end_with_name};
ghost use Rattle.tcd_plan.specs.PlanReader.{HasPrintedKey};
ghost use Rattle.tc_link.specs.Errors.{refusal_of};
ghost use Rattle.tcd_plan.specs.Keys.{key_texts};

use elf_image::ImageErr;
use std::alloc::Global;
use tc_link::{LayoutErr, LinkErr};
use tc_reloc::RelocErr;
use tc_script::ScriptErr;
use tcd_base::{FormErr, NoMemory};
use tcd_plan::{PlanErr, PlanKey, key_text};

/// Appends bytes to a printed line on an error in a file, or on a result.
pub fn append_to_printed_line(line: &mut Vec<u8>, bytes: &[u8]) -> Result<(), NoMemory>
    ensures { OnOk result (line.new.items ≡ line.old.items ++ bytes.now) }
{
    line.extend_from_slice(bytes)?;
    Ok(())
}

/// Returns a copy of a fixed printed line, such as the one on a malformed file, or of the fixed
/// start of one.
pub fn copy_printed_line(alloc: Global, text: &[u8]) -> Result<Vec<u8>, NoMemory>
    ensures { IfOk result (λ line. line.items ≡ text.now) }
{
    Ok(Vec::from_slice(alloc, text)?)
}

/// Returns the printed line for an executable with more bytes than its form allows.
#[tactic(auto, unfolding(crate::specs::Lines::elf_too_long_line))]
pub fn elf_too_long_line() -> &'static [u8]
    ensures { result.now ≡ elf_too_long_line }
{
    b"bad elf 0\n"
}

/// Returns the printed line for a plan with more bytes than its form allows.
#[tactic(auto, unfolding(crate::specs::Lines::plan_too_long_line))]
pub fn plan_too_long_line() -> &'static [u8]
    ensures { result.now ≡ plan_too_long_line }
{
    b"bad plan 0\n"
}

/// Returns the printed line for a certificate with more bytes than its form allows.
#[tactic(auto, unfolding(crate::specs::Lines::cert_too_long_line))]
pub fn cert_too_long_line() -> &'static [u8]
    ensures { result.now ≡ cert_too_long_line }
{
    b"bad cert 0\n"
}

/// Returns the printed line for a turn script with more bytes than its form allows.
#[tactic(auto, unfolding(crate::specs::Lines::script_too_long_line))]
pub fn script_too_long_line() -> &'static [u8]
    ensures { result.now ≡ script_too_long_line }
{
    b"bad script 0\n"
}

/// Returns the printed line for a layout with more bytes than its form allows.
#[tactic(auto, unfolding(crate::specs::Lines::layout_too_long_line))]
pub fn layout_too_long_line() -> &'static [u8]
    ensures { result.now ≡ layout_too_long_line }
{
    b"bad layout 0\n"
}

/// Returns the printed line for a file of cells with more bytes than its form allows.
#[tactic(auto, unfolding(crate::specs::Lines::cells_too_long_line))]
pub fn cells_too_long_line() -> &'static [u8]
    ensures { result.now ≡ cells_too_long_line }
{
    b"bad cells 0\n"
}

/// Returns the printed line for a file of tasks with more bytes than its form allows.
#[tactic(auto, unfolding(crate::specs::Lines::tasks_too_long_line))]
pub fn tasks_too_long_line() -> &'static [u8]
    ensures { result.now ≡ tasks_too_long_line }
{
    b"bad tasks 0\n"
}

/// Returns the printed line on why a file is no executable: the number of the fault, 1 to 7. An
/// error means that memory ran out.
#[tactic(auto, unfolding(crate::specs::Lines::bad_elf_line, crate::specs::Lines::line_end_with_number, crate::specs::Lines::line_end_with_two_numbers))]
pub fn bad_elf_line(alloc: Global, e: ImageErr) -> Result<Vec<u8>, NoMemory>
    ensures line { IfOk result (λ line. line.items ≡ bad_elf_line e) }
    ensures memory { e ≡ ImageErr.NoMemory → IsErr result }
{
    match e {
        ImageErr::Short => copy_printed_line(alloc, b"bad elf 1\n"),
        ImageErr::NotElf32Le => copy_printed_line(alloc, b"bad elf 2\n"),
        ImageErr::NotTriCore => copy_printed_line(alloc, b"bad elf 3\n"),
        ImageErr::NotExec => copy_printed_line(alloc, b"bad elf 4\n"),
        ImageErr::BadSegment(i) => Ok(format!(in alloc; "bad elf 5 at {i}\n")?.into_bytes()),
        ImageErr::TooLarge => copy_printed_line(alloc, b"bad elf 6\n"),
        ImageErr::Overlap(i, j) => Ok(format!(in alloc; "bad elf 7 at {i} {j}\n")?.into_bytes()),
        ImageErr::NoMemory => Err(NoMemory),
    }
}

/// Returns the printed line on why a file is no plan: the number of the fault, 1 to 8, and the
/// fault's key, if any. An error means that memory ran out.
#[tactic(auto, unfolding(crate::specs::Lines::bad_plan_line, crate::specs::Lines::line_end_with_two_numbers))]
pub fn bad_plan_line(alloc: Global, e: PlanErr) -> Result<Vec<u8>, NoMemory>
    requires { HasPrintedKey e }
    ensures line { IfOk result (λ line. line.items ≡ bad_plan_line e) }
    ensures memory { e ≡ PlanErr.NoMemory → IsErr result }
{
    match e {
        PlanErr::NotJson => copy_printed_line(alloc, b"bad plan 1\n"),
        PlanErr::Missing(key) => bad_plan_key_line(alloc, "bad plan 2", key),
        PlanErr::Unknown(key) => bad_plan_key_line(alloc, "bad plan 3", key),
        PlanErr::BadValue(key) => bad_plan_key_line(alloc, "bad plan 4", key),
        PlanErr::TooMany(key) => bad_plan_key_line(alloc, "bad plan 5", key),
        PlanErr::BadCsa => copy_printed_line(alloc, b"bad plan 6\n"),
        PlanErr::BadVector => copy_printed_line(alloc, b"bad plan 7\n"),
        PlanErr::Overlap(i, j) => Ok(format!(in alloc; "bad plan 8 at {i} {j}\n")?.into_bytes()),
        PlanErr::NoMemory => Err(NoMemory),
    }
}

/// Returns the printed line on why a file is no certificate: the number of the fault, and its
/// offset.
#[tactic(auto, unfolding(crate::specs::Lines::bad_cert_line, crate::specs::Lines::line_end_with_number))]
pub fn bad_cert_line(alloc: Global, e: FormErr) -> Result<Vec<u8>, NoMemory>
    ensures { IfOk result (λ line. line.items ≡ bad_cert_line e) }
{
    let kind = e.kind;
    let at = e.at;
    Ok(format!(in alloc; "bad cert {kind} at {at}\n")?.into_bytes())
}

/// Returns the printed line on why a file is no turn script: the number of the fault, and its line.
#[tactic(auto, unfolding(crate::specs::Lines::bad_script_line, crate::specs::Lines::line_end_with_number))]
pub fn bad_script_line(alloc: Global, e: ScriptErr) -> Result<Vec<u8>, NoMemory>
    ensures line { IfOk result (λ line. line.items ≡ bad_script_line e) }
    ensures memory { e ≡ ScriptErr.NoMemory → IsErr result }
{
    match e {
        ScriptErr::BadLine(n) => Ok(format!(in alloc; "bad script 1 at {n}\n")?.into_bytes()),
        ScriptErr::NoSource(n) => Ok(format!(in alloc; "bad script 2 at {n}\n")?.into_bytes()),
        ScriptErr::OutOfRange(n) => Ok(format!(in alloc; "bad script 3 at {n}\n")?.into_bytes()),
        ScriptErr::TooMany(n) => Ok(format!(in alloc; "bad script 4 at {n}\n")?.into_bytes()),
        ScriptErr::NoMemory => Err(NoMemory),
    }
}

/// Returns the line printed on a source that can't be assembled. `place` is its number among the
/// sources, from 0; `rule` is the assembler's rule that `line`, the first bad line, breaks.
#[tactic(auto, unfolding(crate::specs::Lines::bad_source_line, crate::specs::Lines::line_end_with_two_numbers))]
pub fn bad_source_line(alloc: Global, place: u32, rule: u8, line: u32) -> Result<Vec<u8>, NoMemory>
    ensures { IfOk result (λ text. text.items ≡ bad_source_line place rule line) }
{
    Ok(format!(in alloc; "bad source {rule} at {place} {line}\n")?.into_bytes())
}

/// Returns the printed line on why a file is no layout: the number of the fault, and its line.
#[tactic(auto, unfolding(crate::specs::Lines::bad_layout_line, crate::specs::Lines::line_end_with_number))]
pub fn bad_layout_line(alloc: Global, e: LayoutErr) -> Result<Vec<u8>, NoMemory>
    ensures line { IfOk result (λ line. line.items ≡ bad_layout_line e) }
    ensures memory { e ≡ LayoutErr.NoMemory → IsErr result }
{
    match e {
        LayoutErr::BadLine(n) => Ok(format!(in alloc; "bad layout 1 at {n}\n")?.into_bytes()),
        LayoutErr::Twice(n) => Ok(format!(in alloc; "bad layout 2 at {n}\n")?.into_bytes()),
        LayoutErr::TooMany(n) => Ok(format!(in alloc; "bad layout 3 at {n}\n")?.into_bytes()),
        LayoutErr::Overlap(n) => Ok(format!(in alloc; "bad layout 4 at {n}\n")?.into_bytes()),
        LayoutErr::NoMemory => Err(NoMemory),
    }
}

/// Returns the printed line for a source with too many bytes; `place` is its number among the
/// command's sources, from 0.
#[tactic(auto, unfolding(crate::specs::Lines::source_too_long_line, crate::specs::Lines::line_end_with_number))]
pub fn source_too_long_line(alloc: Global, place: u32) -> Result<Vec<u8>, NoMemory>
    ensures { IfOk result (λ line. line.items ≡ source_too_long_line place) }
{
    Ok(format!(in alloc; "bad source 0 at {place}\n")?.into_bytes())
}

/// Returns the printed line for an object with too many bytes; `place` is its number among the
/// command's objects, from 0.
#[tactic(auto, unfolding(crate::specs::Lines::object_too_long_line, crate::specs::Lines::line_end_with_number))]
pub fn object_too_long_line(alloc: Global, place: u32) -> Result<Vec<u8>, NoMemory>
    ensures { IfOk result (λ line. line.items ≡ object_too_long_line place) }
{
    Ok(format!(in alloc; "bad object 0 at {place}\n")?.into_bytes())
}

/// Returns the printed line on why a file is no object: its number among the objects, from 0, and
/// the fault with its offset.
#[tactic(auto, unfolding(crate::specs::Lines::bad_object_line, crate::specs::Lines::line_end_with_two_numbers))]
pub fn bad_object_line(alloc: Global, place: u32, e: FormErr) -> Result<Vec<u8>, NoMemory>
    ensures { IfOk result (λ line. line.items ≡ bad_object_line place e) }
{
    let kind = e.kind;
    let offset = e.at;
    Ok(format!(in alloc; "bad object {kind} at {place} {offset}\n")?.into_bytes())
}

/// Returns the printed line on why objects can't be linked. An error means that memory ran out.
#[tactic(auto, unfolding(crate::specs::Lines::bad_link_line))]
pub fn bad_link_line(alloc: Global, e: LinkErr) -> Result<Vec<u8>, NoMemory>
    ensures line { IfOk result (λ line. IfSome (refusal_of e) (λ r. line.items ≡ bad_link_line r)) }
    ensures memory { e ≡ LinkErr.NoMemory → IsErr result }
{
    match e {
        LinkErr::Twice(name) => bad_link_name_line(alloc, "bad link 1", name.as_str()),
        LinkErr::Missing(name) => bad_link_name_line(alloc, "bad link 2", name.as_str()),
        LinkErr::NoPlace(name) => bad_link_name_line(alloc, "bad link 3", name.as_str()),
        LinkErr::NoRoom(name) => bad_link_name_line(alloc, "bad link 4", name.as_str()),
        LinkErr::Reloc {
            object,
            section,
            offset,
            err,
        } => {
            let fault = reloc_fault_number(err);
            Ok(format!(in alloc;
                "bad link 5 at {object} {section} {offset} {fault}\n"
            )?.into_bytes())
        }
        LinkErr::NoEntry => copy_printed_line(alloc, b"bad link 6\n"),
        LinkErr::NoMemory => Err(NoMemory),
    }
}

// Returns the line printed on a malformed plan, for a fault at a JSON key: `front`, the start of
// the line, then the key.
#[tactic(auto, unfolding(crate::specs::Lines::line_end_with_key))]
fn bad_plan_key_line(alloc: Global, front: &str, key: PlanKey) -> Result<Vec<u8>, NoMemory>
    requires { key.0 < length key_texts }
    ensures { IfOk result (λ line. line.items ≡ front.now ++ line_end_with_key key) }
{
    let text = key_text(key);
    Ok(format!(in alloc; "{front} key {text}\n")?.into_bytes())
}

// Returns the printed line on why objects can't be linked: `front`, the start of the line, then the
// name of a symbol or a section.
#[tactic(auto, unfolding(crate::specs::Lines::line_end_with_name))]
fn bad_link_name_line(alloc: Global, front: &str, name: &str) -> Result<Vec<u8>, NoMemory>
    ensures { IfOk result (λ line. line.items ≡ front.now ++ line_end_with_name name.now) }
{
    Ok(format!(in alloc; "{front} name {name}\n")?.into_bytes())
}

/// Returns the number, 1 to 3, that a `bad link` line prints for why a relocation doesn't fit its
/// field.
#[tactic(auto, unfolding(crate::specs::Lines::reloc_fault_number))]
fn reloc_fault_number(err: RelocErr) -> u8
    ensures { result ≡ reloc_fault_number err }
{
    match err {
        RelocErr::Odd => 1,
        RelocErr::FarOff => 2,
        RelocErr::Segment => 3,
    }
}
