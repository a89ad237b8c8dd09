// A text at the end of another, and the parts of a text before and after a byte.
ghost use Rattle.std.specs.Prelude.{◌≡◌, ◌≤◌, ◌+◌, ◌++◌, OnOk, length, take, drop, string_bytes};

use tcd_base::NoMemory;

/// Appends a text to a growing `String`. An error means that memory ran out.
pub fn append_str(text: &mut String, more: &str) -> Result<(), NoMemory>
    ensures { OnOk result (string_bytes text.new ≡ string_bytes text.old ++ more.now) }
{
    text.push_str(more)?;
    Ok(())
}

/// Returns the bytes of a text before the separator at index `place`, such as a line feed.
pub(crate) fn text_before(text: &[u8], place: usize) -> &[u8]
    requires { place ≤ length text.now }
    ensures { result.now ≡ take place text.now }
{
    &text[..place]
}

/// Returns the bytes of a text after the separator at index `place`, such as a line feed. If
/// `place` is the text's length, there are none.
pub(crate) fn text_after(text: &[u8], place: usize) -> &[u8]
    requires { place ≤ length text.now }
    ensures { result.now ≡ drop (place + 1) text.now }
{
    if place == text.len() {
        return &text[place..];
    }
    &text[place + 1..]
}
