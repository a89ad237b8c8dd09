// Checks of stores (is each in range?) and of accesses (is each aligned?).
ghost use Rattle.std.specs.Prelude.{◌<◌, ◌-◌, ◌*◌, ◌↔◌, IsTrue};
ghost use Rattle.value_domain.specs.Values.{IsWellFormed};
ghost use Rattle.value_domain.specs.declared.values.Val.TheVariants.{Set, Span};
ghost use Rattle.store_ranges.specs.Accesses.{IsAccessSize, AreStoresInRange, AreAligned};

use crate::ranges::{are_stores_in_range, is_span_store_in_range};
use tcd_plan::Plan;
use value_domain::{Val, alignment_log2, extent_of};

/// Returns true if each store of 1, 2 or 4 bytes (`size`) at a member of the value is wholly in one
/// ram range or one peripheral range. Addresses don't wrap at 2^32.
pub fn store_ok(plan: &Plan, at: &Val, size: u8) -> bool
    requires well { IsWellFormed at.now }
    requires size { IsAccessSize size }
    ensures { IsTrue result ↔ AreStoresInRange plan.now at.now size }
{
    match at {
        Val::Set(words) => are_stores_in_range(plan, words.as_slice(), size),
        Val::Span { last, step, .. } => is_span_store_in_range(
            plan,
            extent_of(at).least,
            *last,
            *step,
            size,
        ),
    }
}

/// Returns true if each store or other access of 1, 2 or 4 bytes (`size`) at a member of the value
/// is aligned: its address is a multiple of `size`.
pub fn aligned(at: &Val, size: u8) -> bool
    requires well { IsWellFormed at.now }
    requires size { IsAccessSize size }
    ensures { IsTrue result ↔ AreAligned at.now size }
{
    alignment_log2(u32::from(size)) <= extent_of(at).step
}
