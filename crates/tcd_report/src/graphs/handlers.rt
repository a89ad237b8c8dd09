// The handlers of the interrupts that may come at a point, and their lines.
ghost use Rattle.std.specs.Prelude.{◌≡◌, ◌+◌, ◌≤◌, OnOk, codes, length, ◌<◌, ◌++◌, string_bytes, ◌^◌, ℕ, slice_index};
ghost use Rattle.cfg_recover.specs.Entries.{possible_irqs_of};
ghost use Rattle.tcd_report.specs.Graphs.KnownHandlers.{irq_handler_entries, AreHandlerLines, AreValidHandlers, with_line_prefix};
ghost use Rattle.tcd_report.specs.Graphs.{unique_addresses, line_end_to, irq_lines};
ghost use Rattle.tcd_plan.specs.PlanData.{PlanData};
ghost use Rattle.std.specs.Str.{IsAscii};
ghost use Rattle.tcd_text.specs.HexNumbers.{hex_word};

use crate::graphs::addresses::set_unique_addresses;
use cfg_recover::{irq_key, possible_irqs};
use std::alloc::Global;
use tcd_base::NoMemory;
use tcd_plan::Plan;
use tcd_text::{append_ascii, hex_word};
use value_domain::State;

// The length of the end of a handler's line.
const IRQ_END: usize = 13;

/// The handlers of the interrupts that may come while IE and CCPN have these values, and their
/// lines. The next point mostly has the same, but for the front of its lines.
#[derive(Drop)]
pub(crate) struct Handlers {
    pub(crate) ie: bool,
    pub(crate) ccpn: u8,
    pub(crate) entries: Vec<u32>,
    pub(crate) lines: Vec<u8>,
    /// The length of the front of each line.
    pub(crate) front: usize,
}

/// Returns the handlers that may come while interrupts are off: none, and no lines of them for the
/// graph.
pub(crate) fn no_handlers(alloc: Global) -> Handlers
    ensures { (plan : PlanData) → AreValidHandlers plan result }
{
    Handlers {
        ie: false,
        ccpn: 0,
        entries: Vec::new(alloc),
        lines: Vec::new(alloc),
        front: 0,
    }
}

/// Sets `known` to the handlers of the interrupts that may come in a state, for the graph's `irq`
/// lines, each entry address once. `room` is scratch space.
pub(crate) fn find_handlers(
    known: &mut Handlers,
    room: &mut Vec<u32>,
    plan: &Plan,
    s: &State,
) -> Result<(), NoMemory>
    requires { AreValidHandlers plan.now known.old }
    ensures entries { OnOk result
        (known.new.entries.items
        ≡ unique_addresses (irq_handler_entries plan.now (possible_irqs_of plan.now s.now))) }
    ensures known { OnOk result (AreValidHandlers plan.now known.new) }
{
    if known.ie == s.ie && known.ccpn == s.ccpn {
        return Ok(());
    }
    let irqs = possible_irqs(plan, s);
    set_handler_entries(room, plan, irqs.as_slice())?;
    set_unique_addresses(&mut known.entries, room)?;
    make_handler_lines(&mut known.lines, "", &known.entries)?;
    known.front = 0;
    known.ie = s.ie;
    known.ccpn = s.ccpn;
    Ok(())
}

// Sets `all` to the entry addresses of the handlers of these interrupts.
fn set_handler_entries(all: &mut Vec<u32>, plan: &Plan, irqs: &[u8]) -> Result<(), NoMemory>
    ensures { OnOk result (all.new.items ≡ irq_handler_entries plan.now irqs.now) }
{
    all.clear();
    for irq in irqs {
        all.push(irq_key(plan, *irq).entry)?;
    }
    Ok(())
}

/// Sets the prefix of the graph's `irq` lines of known handlers to `front`. A prefix of the same
/// length is written over the old one.
pub(crate) fn set_handler_line_prefix(known: &mut Handlers, front: &str) -> Result<(), NoMemory>
    requires { AreHandlerLines known.old.front known.old.entries.items known.old.lines.items }
    ensures lines { OnOk result
        (known.new.lines.items ≡ irq_lines front.now known.new.entries.items) }
    ensures known { OnOk result
        ((plan : PlanData) → AreValidHandlers plan known.old → AreValidHandlers plan known.new) }
    ensures entries { OnOk result (known.new.entries.items ≡ known.old.entries.items) }
{
    if known.front == front.len() {
        write_handler_prefixes(&mut known.lines, front.as_bytes(), &known.entries);
        return Ok(());
    }
    known.front = front.len();
    make_handler_lines(&mut known.lines, front, &known.entries)
}

// Sets `lines` to the graph's `irq` lines for handlers with these entries, each with the prefix
// `front`.
fn make_handler_lines(lines: &mut Vec<u8>, front: &str, entries: &[u32]) -> Result<(), NoMemory>
    ensures { OnOk result (lines.new.items ≡ irq_lines front.now entries.now) }
{
    lines.clear();
    for entry in entries {
        lines.extend_from_slice(front.as_bytes())?;
        lines.extend_from_slice(&irq_line_end(*entry))?;
    }
    Ok(())
}

// Writes the prefix `front` over the old one, of the same length, in each of the graph's `irq`
// lines.
fn write_handler_prefixes(lines: &mut [u8], front: &[u8], entries: &[u32])
    requires { AreHandlerLines (length front.now) entries.now lines.old }
    ensures { lines.new ≡ irq_lines front.now entries.now }
{
    let mut at = 0;
    for _ in 0..entries.len() {
        write_handler_prefix(lines, at, front);
        at += front.len() + IRQ_END;
    }
}

/// Writes the prefix `front` into the graph's `irq` lines at index `at`, where a line begins.
fn write_handler_prefix(lines: &mut [u8], at: usize, front: &[u8])
    requires { at + length front.now ≤ length lines.old }
    ensures { lines.new ≡ with_line_prefix lines.old at front.now }
{
    lines[at..at + front.len()].copy_from_slice(front);
}

// Returns the end of the graph's `irq` line for a handler with this entry.
fn irq_line_end(entry: u32) -> [u8; IRQ_END]
    ensures { result ≡ line_end_to (codes "irq ") entry }
{
    let w = hex_word(entry);
    [
        b'i', b'r', b'q', b' ', w[0], w[1], w[2], w[3], w[4], w[5], w[6], w[7], b'\n',
    ]
}

/// Appends the `irq` lines of known handlers, which were made with the prefix `front`, to the
/// graph's text.
pub(crate) fn append_handler_lines(
    text: &mut String,
    front: &str,
    known: &Handlers,
) -> Result<(), NoMemory>
    requires ascii { IsAscii front.now }
    requires lines { known.now.lines.items ≡ irq_lines front.now known.now.entries.items }
    ensures { OnOk result (string_bytes text.new
        ≡ string_bytes text.old ++ irq_lines front.now known.now.entries.items) }
{
    handler_entries_fit_words(&known.entries);
    append_ascii(text, &known.lines)
}

/// Establishes that entries of handlers on the graph's `irq` lines are below 2^32, as their type
/// says. Changes nothing.
pub(crate) fn handler_entries_fit_words(addresses: &[u32])
    ensures { (k : ℕ) → slice_index addresses.now k < 2 ^ 32 }
{}
