// The lines of a point in the graph.
ghost use Rattle.std.specs.Prelude.{◌≡◌, ◌<◌, ◌++◌, ◌∷◌, [], OnOk, string_bytes};
ghost use Rattle.tcd_text.specs.HexNumbers.{hex_word};
ghost use Rattle.tcd_report.specs.Graphs.{node_line_prefix, lines_to, irq_lines, edge_lines_text, return_line_text};
ghost use Rattle.std.specs.Str.{IsAscii};

use crate::graphs::edges::Edges;
use crate::graphs::handlers::append_handler_lines;
use crate::texts::append_frame_name;
use depth_cert::Key;
use tc_isa::Shape;
use tcd_base::NoMemory;
use tcd_text::{append_ascii, append_hex_word, append_str, hex_word};

/// Sets `front` to the prefix of all lines of a node in the graph: its key, a colon and a blank.
pub(crate) fn set_node_line_prefix(front: &mut String, key: &Key) -> Result<(), NoMemory>
    ensures front { OnOk result (string_bytes front.new ≡ node_line_prefix key.now) }
    ensures ascii { OnOk result (IsAscii (node_line_prefix key.now)) }
{
    // Reading a field gives its limits, by which its digits are ASCII.
    let _entry = key.entry;
    let _prio = key.prio;
    front.clear();
    append_frame_name(front, key)?;
    append_str(front, ": ")
}

/// Sets `front` to the prefix of all lines of a point: `key_front`, the prefix of its node's lines,
/// then the address and a blank.
pub(crate) fn set_point_line_prefix(
    front: &mut String,
    key_front: &str,
    addr: u32,
) -> Result<(), NoMemory>
    ensures { OnOk result
        (string_bytes front.new ≡ key_front.now ++ (hex_word addr ++ 32 ∷ [])) }
{
    front.clear();
    append_str(front, key_front)?;
    append_hex_word(front, addr)?;
    append_str(front, " ")
}

/// Appends a line with the prefix `front` to the graph's text for each edge of a point. The line of
/// `ret` or `rfe` isn't among them.
pub(crate) fn append_edges(text: &mut String, front: &str, ways: &Edges) -> Result<(), NoMemory>
    requires ascii { IsAscii front.now }
    requires handlers { let irq = ways.now.irq in
        irq.lines.items ≡ irq_lines front.now irq.entries.items }
    ensures { OnOk result (string_bytes text.new
        ≡ string_bytes text.old ++ edge_lines_text front.now ways.now) }
{
    append_lines(text, front, "to ", &ways.to)?;
    append_lines(text, front, "call ", &ways.call)?;
    append_lines(text, front, "back ", &ways.back)?;
    append_lines(text, front, "sys ", &ways.sys)?;
    append_lines(text, front, "aln ", &ways.aln)?;
    append_handler_lines(text, front, &ways.irq)
}

/// Appends the graph's line of a return, `front` and `ret` or `rfe`, if the point's instruction is
/// one. Else appends nothing.
pub(crate) fn append_ret_line(text: &mut String, front: &str, shape: Shape) -> Result<(), NoMemory>
    ensures { OnOk result (string_bytes text.new
        ≡ string_bytes text.old ++ return_line_text front.now shape) }
{
    match shape {
        Shape::Ret => {
            append_str(text, front)?;
            append_str(text, "ret\n")
        }
        Shape::Rfe => {
            append_str(text, front)?;
            append_str(text, "rfe\n")
        }
        _ => Ok(()),
    }
}

// Appends a line to the graph for each of these addresses: the prefix `front`, a word, as `to `,
// and the address.
fn append_lines(text: &mut String, front: &str, word: &str, targets: &[u32]) -> Result<(), NoMemory>
    ensures { OnOk result (string_bytes text.new
        ≡ string_bytes text.old ++ lines_to front.now word.now targets.now) }
{
    for to in targets {
        append_str(text, front)?;
        append_str(text, word)?;
        append_target_address(text, *to)?;
    }
    Ok(())
}

// Appends the end of a graph's line: the target address as eight hex digits, and a line feed.
fn append_target_address(text: &mut String, to: u32) -> Result<(), NoMemory>
    ensures { OnOk result
        (string_bytes text.new ≡ string_bytes text.old ++ (hex_word to ++ 10 ∷ [])) }
{
    let w = hex_word(to);
    append_ascii(
        text,
        &[w[0], w[1], w[2], w[3], w[4], w[5], w[6], w[7], b'\n'],
    )
}
