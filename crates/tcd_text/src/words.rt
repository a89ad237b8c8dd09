// Cuts a line into its words.
ghost use Rattle.std.specs.Prelude.{◌≡◌, ◌<◌, length, position, IfSome, ◌∷◌, MatchOption, []};
ghost use Rattle.tcd_text.specs.Lines.{is_word_separator, line_words, AreLineWords};

use crate::text_parts::{text_after, text_before};

/// The words of a line, up to four.
#[derive(Clone, Copy)]
pub enum Words<'a> {
    One(&'a [u8]),
    Two(&'a [u8], &'a [u8]),
    Three(&'a [u8], &'a [u8], &'a [u8]),
    Four(&'a [u8], &'a [u8], &'a [u8], &'a [u8]),
    More,
}

/// Returns the index of the first blank of a line, where its first word ends, or `None`.
pub(crate) fn find_blank(text: &[u8]) -> Option<usize>
    ensures value { result ≡ position is_word_separator text.now }
    ensures within { IfSome result (λ i. i < length text.now) }
{
    text.iter().position(|c| *c == b' ')
}

/// Returns the words of a line, separated by one blank each: up to four of them, or `More`.
pub fn words_in(line: &[u8]) -> Words<'_>
    ensures { AreLineWords (line_words line.now) result }
{
    let Some((first, rest)) = cut_word(line) else {
        return Words::One(line);
    };
    let Some((second, rest)) = cut_word(rest) else {
        return Words::Two(first, rest);
    };
    let Some((third, rest)) = cut_word(rest) else {
        return Words::Three(first, second, rest);
    };
    match cut_word(rest) {
        Some((_fourth, _rest)) => Words::More,
        None => Words::Four(first, second, third, rest),
    }
}

/// Returns the first word of a line, and the line after the blank that ends the word. If the line
/// is one word, the answer is `None`.
pub fn cut_word(text: &[u8]) -> Option<(&[u8], &[u8])>
    ensures { MatchOption result (line_words text.now ≡ text.now ∷ [])
        (λ p. line_words text.now ≡ p.0.now ∷ line_words p.1.now) }
{
    match find_blank(text) {
        None => None,
        Some(place) => Some((text_before(text, place), text_after(text, place))),
    }
}
