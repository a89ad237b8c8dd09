// Pages by their numbers: the search for one, and the pages of ranges.
ghost use Rattle.std.specs.Prelude.{◌<◌, IfSome, IfNone, length, ◌≤◌, ◌+◌, ◌/◌, ℕ, Contains, IfOk, IsTrue, OnOk, Some, None};
ghost use Rattle.std.specs.List.Sorted.{IsStrictlyIncreasing};
ghost use Rattle.tc_mem.specs.Pages.{AscendByNumber, PageHasNumber, NoPageHasNumber};
ghost use Rattle.tcd_base.specs.Ranges.{is_address_in_ranges};

use crate::page::Page;
use std::alloc::Global;
use tcd_base::{NoMemory, Range};

// Returns the index in `pages` of the page with this number (its first address / 4,096), or `None`
// if there is none. The index `near` is tried first, then a binary search.
pub(crate) fn find_page_near(pages: &[Page], number: u32, near: usize) -> Option<usize>
    requires { AscendByNumber pages.now }
    ensures within { IfSome result (λ i. i < length pages.now) }
    ensures found { IfSome result (λ i. PageHasNumber pages.now i number) }
    ensures none { IfNone result (NoPageHasNumber pages.now number) }
{
    if near < pages.len() && pages[near].number == number {
        return Some(near);
    }
    binary_search_page(pages, number)
}

/// Returns the index in `pages` of the page with this number (its first address / 4,096), or `None`
/// if there is none. An index guessed from the number, else `near`, is tried before a search.
pub(crate) fn find_page(pages: &[Page], number: u32, near: usize) -> Option<usize>
    requires { AscendByNumber pages.now }
    ensures within { IfSome result (λ i. i < length pages.now) }
    ensures found { IfSome result (λ i. PageHasNumber pages.now i number) }
    ensures none { IfNone result (NoPageHasNumber pages.now number) }
{
    find_page_near(pages, number, likely_page_index(pages, number, near))
}

// Returns the ascending numbers (first address / 4,096) of the pages in which ranges have bytes.
pub(crate) fn page_numbers(alloc: Global, ranges: &[Range]) -> Result<Vec<u32>, NoMemory>
    ensures rising { IfOk result (λ v. IsStrictlyIncreasing v.items) }
    ensures all { IfOk result
        (λ v. (q : ℕ) → IsTrue (is_address_in_ranges ranges.now q) → Contains v.items (q / 4096)) }
{
    let mut numbers = Vec::new(alloc);
    for range in ranges {
        add_page_numbers(&mut numbers, range)?;
    }
    numbers.sort_unstable();
    numbers.dedup();
    Ok(numbers)
}

// Returns the index of the page with this number (first address / 4,096), or `None` if none has.
fn binary_search_page(pages: &[Page], number: u32) -> Option<usize>
    requires { AscendByNumber pages.now }
    ensures within { IfSome result (λ i. i < length pages.now) }
    ensures found { IfSome result (λ i. PageHasNumber pages.now i number) }
    ensures none { IfNone result (NoPageHasNumber pages.now number) }
{
    let mut from = 0;
    let mut to = pages.len();
    while from < to {
        let middle = from + (to - from) / 2;
        let at = pages[middle].number;
        if at == number {
            return Some(middle);
        }
        if at < number {
            from = middle + 1;
        } else {
            to = middle;
        }
    }
    None
}

// Returns an index at which the page with this number may be, by its distance from the first or
// last page, or else `near`. The answer may be wrong, and only saves a search.
fn likely_page_index(pages: &[Page], number: u32, near: usize) -> usize {
    let count = pages.len();
    if count == 0 {
        return 0;
    }
    let after_first = number.wrapping_sub(pages[0].number) as usize;
    if after_first < count {
        return after_first;
    }
    let before_last = pages[count - 1].number.wrapping_sub(number) as usize;
    if before_last < count && pages[count - 1 - before_last].number == number {
        return count - 1 - before_last;
    }
    near
}

// Appends the numbers (first address / 4,096) of the pages in which a range has bytes.
fn add_page_numbers(numbers: &mut Vec<u32>, range: &Range) -> Result<(), NoMemory>
    ensures kept { OnOk result
        ((n : ℕ) → Contains numbers.old.items n → Contains numbers.new.items n) }
    ensures added { OnOk result
        ((q : ℕ) → range.now.at ≤ q → q < range.now.at + range.now.len
        → Contains numbers.new.items (q / 4096)) }
{
    let end = u64::from(range.at) + u64::from(range.len);
    for number in u64::from(range.at) / 4096..(end + 4095) / 4096 {
        numbers.push(number as u32)?;
    }
    Ok(())
}
