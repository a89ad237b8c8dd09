// Cuts a text into its lines.
ghost use Rattle.std.specs.Prelude.{◌≡◌, ◌≤◌, ◌<◌, length, IfSome, position, ◌+◌, drop, ◌∷◌};
ghost use Rattle.std.specs.List.{position_or_len};
ghost use Rattle.tcd_text.specs.Lines.{is_line_feed, text_lines};

use crate::text_parts::{text_after, text_before};

/// Returns the index at which the first line of a text ends: that of its first line feed, or the
/// length of the text.
pub(crate) fn line_end(text: &[u8]) -> usize
    ensures end { result ≡ position_or_len is_line_feed text.now }
    ensures within { result ≤ length text.now }
{
    match find_line_feed(text) {
        Some(end) => end,
        None => text.len(),
    }
}

/// Splits a text that isn't empty into its first line, without the line feed, and the text after.
pub fn cut_line(text: &[u8]) -> (&[u8], &[u8])
    requires { 0 < length text.now }
    ensures lines { text_lines text.now ≡ result.0.now ∷ text_lines result.1.now }
    ensures rest { result.1.now ≡ drop (length result.0.now + 1) text.now }
    ensures shorter { length result.1.now < length text.now }
{
    let end = line_end(text);
    (text_before(text, end), text_after(text, end))
}

/// Returns the index of the first line feed of a text, or `None` if there is none.
fn find_line_feed(text: &[u8]) -> Option<usize>
    ensures value { result ≡ position is_line_feed text.now }
    ensures within { IfSome result (λ i. i < length text.now) }
{
    text.iter().position(|c| *c == b'\n')
}
