// Layouts, with the invariant of each layout.
ghost use Rattle.std.specs.Prelude.{◌≡◌, ◌<◌, length, position, IfSome, ◌==◌};
ghost use Rattle.std.specs.Str.{bytes_eq};
ghost use Rattle.tc_link.specs.Layouts.{has_place_for};

use crate::LayoutErr;
use crate::drafts::Draft;
use std::alloc::Global;
use std::marker::Model;
use tcd_text::cut_line;

/// A place for the sections of one name: at most `most` bytes from `at` on. `at` is a multiple of
/// 4, and no byte is past 2^32.
#[derive(Drop)]
pub struct Place {
    /// The name of the sections that go here.
    pub section: String,
    /// The address of the first byte, a multiple of 4.
    pub at: u32,
    /// The most bytes of these sections together.
    pub most: u32,
}

impl Model for Place {
    ghost use Rattle.std.specs.Prelude.{string_bytes};
    ghost use Rattle.tc_link.specs.Layouts.{PlaceData, IsPlace};

    ghost Value = { PlaceData };

    ghost view = { λ p. record { section = string_bytes p.section; at = p.at; most = p.most } };

    ghost invariant = { λ p. IsPlace (record { section = string_bytes p.section; at = p.at; most = p.most }) };
}

/// The name of the symbol at which the program begins, and at most 64 places. Each place is for
/// other sections, and no two places share a byte.
#[derive(Drop)]
pub struct Layout {
    /// The name of the symbol at which the program begins.
    pub entry: String,
    /// The places, at most 64, in the order of the text.
    pub places: Vec<Place>,
}

impl Model for Layout {
    ghost use Rattle.std.specs.Prelude.{string_bytes};
    ghost use Rattle.tc_link.specs.Layouts.{LayoutData, IsLayout};

    ghost Value = { LayoutData };

    ghost view = { λ l. record { entry = string_bytes l.entry; places = l.places.items } };

    ghost invariant = { λ l. IsLayout (record { entry = string_bytes l.entry; places = l.places.items }) };
}

impl Layout {
    ghost use Rattle.std.specs.Prelude.{◌≡◌, ◌≤◌, ◌^◌, length, Ok, IfOk, IfErr};
    ghost use Rattle.tc_link.specs.LayoutFaults.{layout_of, IsLayoutFaultOf};

    /// Reads a layout (linker script) from a text, or returns the first fault. Lines are `entry
    /// NAME`, the entry symbol, and `place SECTION AT MOST`, the address and greatest size of a
    /// section's memory region. Numbers have eight upper-case hex digits.
    pub fn read(alloc: Global, bytes: &[u8]) -> Result<Layout, LayoutErr>
        requires { length bytes.now ≤ 2 ^ 30 }
        ensures ok { IfOk result (λ l. layout_of bytes.now ≡ Ok l) }
        ensures err { IfErr result (IsLayoutFaultOf (layout_of bytes.now)) }
    {
        let mut draft = Draft::new(alloc);
        let mut number = 0u32;
        let mut rest = bytes;
        'lines: while !rest.is_empty() {
            number += 1;
            let (line, more) = cut_line(rest);
            draft.add_line(alloc, number, line)?;
            rest = more;
        }
        draft.finish(number)
    }
}

/// Returns the number of the place for sections of this name, or `None` if the layout has none. The
/// place of number `near` is tried first.
pub(crate) fn find_place(layout: &Layout, name: &str, near: usize) -> Option<usize>
    ensures value { result ≡ position (λ p. bytes_eq name.now p.section) layout.now.places }
    ensures within { IfSome result (λ i. i < length layout.now.places) }
    ensures few { IfSome result (λ i. i < 64) }
{
    let places = &layout.places;
    if near < places.len() && name == places[near].section.as_str() {
        return Some(near);
    }
    places
        .iter()
        .position(|place| name == place.section.as_str())
}

/// Returns true if a layout with these places has one for sections of this name.
pub(crate) fn has_place_for(places: &[Place], name: &str) -> bool
    ensures { result ≡ has_place_for places.now name.now }
{
    places.iter().any(|place| name == place.section.as_str())
}
