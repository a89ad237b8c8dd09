// Keys as text.
ghost use Rattle.std.specs.Prelude.{◌≡◌, ◌++◌, OnOk, string_bytes};
ghost use Rattle.tcd_report.specs.Texts.{frame_name};

use depth_cert::{Key, key_kind_text};
use tcd_base::NoMemory;
use tcd_text::{append_hex_word, append_str};

/// Appends the name of a frame, as `call 80000008 prio 10 is 1`, to a text for the graph or the
/// report.
#[tactic(auto, unfolding(crate::specs::Texts::frame_name))]
pub(crate) fn append_frame_name(text: &mut String, key: &Key) -> Result<(), NoMemory>
    ensures { OnOk result (string_bytes text.new ≡ string_bytes text.old ++ frame_name key.now) }
{
    append_str(text, key_kind_text(key.kind))?;
    append_hex_word(text, key.entry)?;
    append_str(text, " prio ")?;
    let prio = key.prio;
    write!(text, "{prio}")?;
    append_str(text, " is ")?;
    append_str(text, if key.is { "1" } else { "0" })
}
