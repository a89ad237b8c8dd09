// Reads the lines of a layout.
ghost use Rattle.std.specs.Prelude.{◌≡◌, codes, if◌then◌else◌, IfSome, Some, None};
ghost use Rattle.std.specs.Option.{option_map};
ghost use Rattle.std.specs.Str.{bytes_eq};
ghost use Rattle.tc_object.specs.Names.{object_name_of};
ghost use Rattle.tcd_text.specs.HexNumbers.{hex_number_of};
ghost use Rattle.tc_link.specs.LayoutLines.{entry, layout_line_contents, place_of_words, IsValidLayoutLine, layout_line_data};

use tc_object::object_name_of;
use tcd_text::{Words, hex_number, words_in};

// The end of the address space.
const ADDRESS_END: u64 = 0x1_0000_0000;

/// The contents of a line.
#[derive(Clone, Copy)]
pub(crate) enum Line<'a> {
    Blank,
    Entry(&'a str),
    Region {
        section: &'a str,
        at: u32,
        most: u32,
    },
}

/// Returns the contents of a layout's line: blank, the entry symbol, or a memory region (place) for
/// a section. None if the line has another form.
#[tactic(auto, using(crate::proofs::LineLaws::more), unfolding(crate::specs::LayoutLines::layout_line_contents))]
pub(crate) fn layout_line_contents(line: &[u8]) -> Option<Line<'_>>
    ensures line { option_map layout_line_data result ≡ layout_line_contents line.now }
    ensures good { IfSome result (λ line. IsValidLayoutLine (layout_line_data line)) }
{
    match words_in(line) {
        Words::One(word) => {
            if word.is_empty() {
                Some(Line::Blank)
            } else {
                None
            }
        }
        Words::Two(word, name) => {
            if word != "entry".as_bytes() {
                return None;
            }
            match object_name_of(name) {
                Some(name) => Some(Line::Entry(name)),
                None => None,
            }
        }
        Words::Three(_, _, _) => None,
        Words::Four(word, section, at, most) => place_line(word, section, at, most),
        Words::More => None,
    }
}

/// Parses the four words `place SECTION AT MOST` of a layout's line: a memory region of MOST bytes
/// at address AT. None for other words, an unaligned AT, or an end past 2^32.
fn place_line<'a>(word: &[u8], section: &'a [u8], at: &[u8], most: &[u8]) -> Option<Line<'a>>
    ensures line { option_map layout_line_data result
        ≡ (if bytes_eq word.now (codes "place")
        then place_of_words (object_name_of section.now) (hex_number_of at.now)
        (hex_number_of most.now)
        else None) }
    ensures good { IfSome result (λ line. IsValidLayoutLine (layout_line_data line)) }
{
    if word != "place".as_bytes() {
        return None;
    }
    let Some(section) = object_name_of(section) else {
        return None;
    };
    let Some(at) = hex_number(at) else {
        return None;
    };
    let Some(most) = hex_number(most) else {
        return None;
    };
    if at % 4 == 0 && u64::from(at) + u64::from(most) <= ADDRESS_END {
        Some(Line::Region { section, at, most })
    } else {
        None
    }
}
