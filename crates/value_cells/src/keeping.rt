// The test of K16: stores keep the cells' bounds.
ghost use Rattle.std.specs.Prelude.{◌≤◌, ◌+◌, ◌^◌, ◌↔◌, ℕ, IsTrue};
ghost use Rattle.value_domain.specs.Values.{IsWellFormed, IsMember};
ghost use Rattle.store_ranges.specs.Accesses.{IsAccessSize};
ghost use Rattle.value_cells.specs.Cells.{CellsDoNotWrap};
ghost use Rattle.value_cells.specs.Keeping.{AccessKeepsAllCellBounds, StoreKeepsCellBounds, FitsCell, AreWithinCellBounds, IsStoreAllowedAt};

use crate::cells::Cell;
use value_domain::{Val, extent_of, member};

/// Returns whether a store keeps the bounds of each cell that it touches: it stores the cell's
/// whole word, and a number within bounds. The store has `size` bytes; its address can be any word
/// of `at`, and what it stores any word of `stored`.
pub(crate) fn keeps_all_cell_bounds(at: &Val, size: u8, stored: &Val, cells: &[Cell]) -> bool
    requires at { IsWellFormed at.now }
    requires stored { IsWellFormed stored.now }
    requires size { IsAccessSize size }
    requires cells { CellsDoNotWrap cells.now }
    ensures { IsTrue result ↔
        ((x : ℕ) → IsMember x at.now → AccessKeepsAllCellBounds stored.now size x cells.now) }
{
    for cell in cells {
        if !keeps_cell_bounds(at, size, stored, cell) {
            return false;
        }
    }
    true
}

/// Returns whether a store, at each address in `at`, misses the cell, or writes exactly its word
/// with a number within bounds.
fn keeps_cell_bounds(at: &Val, size: u8, stored: &Val, cell: &Cell) -> bool
    requires at { IsWellFormed at.now }
    requires stored { IsWellFormed stored.now }
    requires size { IsAccessSize size }
    requires cell { cell.now.at + 4 ≤ 2 ^ 32 }
    ensures { IsTrue result ↔ StoreKeepsCellBounds at.now size stored.now cell.now }
{
    let fits = fits_cell(size, stored, cell);
    let mut x = cell.at.saturating_sub(u32::from(size) - 1);
    while x < cell.at + 3 {
        if !is_store_allowed_at(x, at, fits, cell.at) {
            return false;
        }
        x += 1;
    }
    is_store_allowed_at(x, at, fits, cell.at)
}

/// Returns whether a store at exactly the cell's address keeps the bounds: its `size` is 4, and all
/// words of `stored` are within them.
fn fits_cell(size: u8, stored: &Val, cell: &Cell) -> bool
    requires { IsWellFormed stored.now }
    ensures { IsTrue result ↔ FitsCell stored.now size cell.now }
{
    size == 4 && is_within_cell_bounds(stored, cell.lo, cell.hi)
}

/// Returns whether a store at the address `x` is impossible or keeps the bounds of the cell at
/// `cell`. `at` has the store's possible addresses; `fits` says whether a store exactly at the cell
/// keeps the bounds.
fn is_store_allowed_at(x: u32, at: &Val, fits: bool, cell: u32) -> bool
    requires { IsWellFormed at.now }
    ensures { IsTrue result ↔ IsStoreAllowedAt at.now fits cell x }
{
    !member(x, at) || fits && x == cell
}

/// Returns whether all words of an abstract value are within a cell's bounds `lo..=hi`.
fn is_within_cell_bounds(v: &Val, lo: u32, hi: u32) -> bool
    requires { IsWellFormed v.now }
    ensures { IsTrue result ↔ AreWithinCellBounds v.now lo hi }
{
    let words = extent_of(v);
    lo <= words.least && words.greatest <= hi
}
