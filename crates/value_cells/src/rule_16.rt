// K16 at a point.
ghost use Rattle.std.specs.Prelude.{◌↔◌, IsTrue};
ghost use Rattle.value_domain.specs.State.{AreInLattice};
ghost use Rattle.value_cells.specs.Cells.{CellsDoNotWrap};
ghost use Rattle.value_cells.specs.Keeping.{PointKeepsCellBounds};

use crate::cells::Cell;
use crate::keeping::keeps_all_cell_bounds;
use cfg_recover::KnownCodes;
use elf_image::Image;
use tc_isa::Shape;
use tcd_plan::Plan;
use value_domain::{Bounds, State};
use vd_transfer::{address_by_shape, reg};

/// The number of the rule on cells: every store keeps their bounds.
pub const CELLS_RULE: u8 = 16;

/// What K16 is judged by.
#[derive(Drop)]
pub(crate) struct CellsRule<'a> {
    pub(crate) bounds: &'a Bounds,
    pub(crate) image: &'a Image,
    /// The plan with cells.
    pub(crate) plan: &'a Plan,
    pub(crate) cells: &'a [Cell],
}

/// Returns whether K16, the rule on cells, holds at an address in the state `s`. Each possible
/// store there that touches a cell has to store its whole word, within bounds. `codes` caches
/// decoded instructions.
pub(crate) fn keeps_rule_16(rule: &CellsRule, codes: &mut KnownCodes, addr: u32, s: &State) -> bool
    requires values { AreInLattice rule.now.bounds.now s.now.regs }
    requires cells { CellsDoNotWrap rule.now.cells.now }
    ensures { let r = rule.now in
        IsTrue result
        ↔ PointKeepsCellBounds r.bounds.now r.image.now r.plan.now r.cells.now
        (record { addr = addr; state = s.now }) }
{
    let Some(found) = codes.decode_cached(rule.image, rule.plan, addr) else {
        return true;
    };
    let shape = found.shape;
    match shape {
        Shape::Store { src, size, .. } => {
            let at = address_by_shape(rule.bounds, rule.plan, shape, s);
            keeps_all_cell_bounds(&at, size, &reg(rule.plan, s, src), rule.cells)
        }
        _ => true,
    }
}
