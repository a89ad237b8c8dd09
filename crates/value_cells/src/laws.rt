// Laws of plans with cells.
ghost use Rattle.value_cells.specs.BesideCells.{StepsMatchWithoutCells};
ghost use Rattle.value_cells.specs.Laws.{PlanWithCellsIsPlan, RamIsWithoutCells, EachCellStaysInBounds, AcceptedIsSafeWithCells, CellFaultBreaksRule16};
ghost use Rattle.value_cells.specs.Rule16Growth.{CellFaultsAreMonotone, LesserCertKeepsCellBounds};
ghost use Rattle.value_cells.specs.CellListText.{CellTextHasOneResult};

/// Laws of the plan in which cells, words of ram with bounds, are peripherals: it is a plan, and
/// machines take the same steps. If a certificate accepted under that plan keeps the bounds, the
/// image is safe under the original plan, with all cells in bounds.
pub fn cells_keep_their_bounds()
    ensures plan { PlanWithCellsIsPlan }
    ensures steps { StepsMatchWithoutCells }
    ensures bounds { AcceptedIsSafeWithCells }
{}

/// Laws that guard the definitions of cells against saying too little. The plan's ram is without
/// the cells, cells stay within bounds in all safe runs, and a text has one list of cells or one
/// error.
pub fn cell_definition_laws()
    ensures ram { RamIsWithoutCells }
    ensures stays { EachCellStaysInBounds }
    ensures one { CellTextHasOneResult }
{}

/// Laws of rule K16, that stores keep the bounds of cells. If a certificate keeps the rule, so does
/// each accepted one that it covers; one fault breaks the rule.
pub fn cell_fault_laws()
    ensures grow { CellFaultsAreMonotone }
    ensures lesser { LesserCertKeepsCellBounds }
    ensures refute { CellFaultBreaksRule16 }
{}
