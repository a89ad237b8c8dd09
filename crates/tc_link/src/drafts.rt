// Builds a layout line by line, with the first fault.
ghost use Rattle.std.specs.Prelude.{◌≡◌};
ghost use Rattle.tc_link.specs.Layouts.{is_overlapping_place};

use crate::layouts::has_place_for;
use crate::lines::{Line, layout_line_contents};
use crate::{Layout, LayoutErr, Place};
use std::alloc::Global;
use std::marker::Model;

// The most places of a layout.
const MOST_PLACES: usize = 64;

/// The entry and the places of the lines so far.
#[derive(Drop)]
pub(crate) struct Draft {
    entry: Option<String>,
    places: Vec<Place>,
}

impl Model for Draft {
    ghost use Rattle.std.specs.Prelude.{string_bytes};
    ghost use Rattle.std.specs.Option.{option_map, option_to_list};
    ghost use Rattle.tc_link.specs.LayoutDrafts.{LayoutDraftData, IsLayoutDraft};

    ghost Value = { LayoutDraftData };

    ghost view = { λ d. record { entries = option_to_list (option_map string_bytes d.entry); places = d.places.items } };

    ghost invariant = { λ d. IsLayoutDraft (record { entries = option_to_list (option_map string_bytes d.entry); places = d.places.items }) };
}

impl Draft {
    ghost use Rattle.std.specs.Prelude.{◌≡◌, ◌<◌, ◌+◌, ◌^◌, [], length, Some, None, Ok, OnOk, IfOk, IfErr, IfNone};
    ghost use Rattle.std.specs.List.{list_any};
    ghost use Rattle.tc_link.specs.Layouts.{IsPlace, IsPlaceAfter, has_place_for, is_overlapping_place, place_data};
    ghost use Rattle.tc_link.specs.LayoutLines.{layout_line_contents, place};
    ghost use Rattle.tc_link.specs.LayoutFaults.{layout_line_fault, IsLayoutFaultOf, IsLayoutFault};
    ghost use Rattle.tc_link.specs.LayoutDrafts.{finished_layout, draft_with_line};
    ghost use Rattle.tc_link.specs.declared.layout_errors.LayoutErr.TheVariants.{Twice, TooMany, Overlap};

    /// An empty draft of a layout, before its first line.
    pub(crate) fn new(alloc: Global) -> Draft
        ensures { result ≡ record { entries = []; places = [] } }
    {
        Draft {
            entry: None,
            places: Vec::new(alloc),
        }
    }

    /// Adds a line of a layout to the draft, or returns the line's fault. `number` is the line's,
    /// counted from 1.
    pub(crate) fn add_line(
        &mut self,
        alloc: Global,
        number: u32,
        line: &[u8],
    ) -> Result<(), LayoutErr>
        ensures good { OnOk result (layout_line_fault number self.old.entries self.old.places
            (layout_line_contents line.now) ≡ None) }
        ensures ok { OnOk result (self.new
            ≡ draft_with_line self.old (layout_line_contents line.now)) }
        ensures err { IfErr result
            (IsLayoutFault (layout_line_fault number self.old.entries self.old.places
            (layout_line_contents line.now))) }
    {
        let Some(line) = layout_line_contents(line) else {
            return Err(LayoutErr::BadLine(number));
        };
        match line {
            Line::Blank => Ok(()),
            Line::Entry(name) => {
                if self.entry.is_some() {
                    return Err(LayoutErr::Twice(number));
                }
                self.entry = Some(String::from_str(alloc, name)?);
                Ok(())
            }
            Line::Region { section, at, most } => {
                if let Some(fault) = self.place_fault(number, section, at, most) {
                    return Err(fault);
                }
                let section = String::from_str(alloc, section)?;
                self.places.push(Place { section, at, most })?;
                Ok(())
            }
        }
    }

    /// Returns the layout of a draft after `count` lines. If no line named the entry symbol, the
    /// fault is a `BadLine` at the next line.
    pub(crate) fn finish(self, count: u32) -> Result<Layout, LayoutErr>
        requires { count < 2 ^ 31 }
        ensures ok { IfOk result (λ l. finished_layout count self.entries self.places ≡ Ok l) }
        ensures err { IfErr result
            (IsLayoutFaultOf (finished_layout count self.entries self.places)) }
    {
        let Draft { entry, places } = self;
        match entry {
            Some(entry) => Ok(Layout { entry, places }),
            None => Err(LayoutErr::BadLine(count + 1)),
        }
    }

    // Returns the error of a layout's line that adds a memory region of `most` bytes at `at`, or
    // None. Errors are a second region for the section, a 65th region, and an overlap.
    fn place_fault(&self, number: u32, section: &str, at: u32, most: u32) -> Option<LayoutErr>
        requires { IsPlace (place_data section.now at most) }
        ensures fault { result ≡ layout_line_fault number self.now.entries self.now.places
            (Some (place (place_data section.now at most))) }
        ensures after { IfNone result
            (IsPlaceAfter self.now.places (place_data section.now at most)) }
        ensures few { IfNone result (length self.now.places < 64) }
    {
        if has_place_for(&self.places, section) {
            return Some(LayoutErr::Twice(number));
        }
        if self.places.len() >= MOST_PLACES {
            return Some(LayoutErr::TooMany(number));
        }
        if self.has_overlapping_place(at, most) {
            return Some(LayoutErr::Overlap(number));
        }
        None
    }

    // Returns true if a memory region (place) of the draft overlaps the range of `most` bytes from
    // address `at` on.
    fn has_overlapping_place(&self, at: u32, most: u32) -> bool
        ensures { result ≡ list_any (is_overlapping_place at most) self.now.places }
    {
        self.places
            .iter()
            .any(|other| is_overlapping_place(at, most, other))
    }
}

// Returns true if a layout's memory region `other` overlaps the range of `most` bytes from address
// `at` on.
fn is_overlapping_place(at: u32, most: u32, other: &Place) -> bool
    ensures { result ≡ is_overlapping_place at most other.now }
{
    let end = u64::from(at) + u64::from(most);
    let other_end = u64::from(other.at) + u64::from(other.most);
    u64::from(at.max(other.at)) < end.min(other_end)
}
