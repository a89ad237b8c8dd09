// Cells, and their reading from a text.
use crate::CellsErr;
use crate::lines::parse_cell_line;
use crate::plans::{is_cell_in_ram, ram_without_cells};
use arrayvec::ArrayVec;
use std::marker::Model;
use tcd_plan::{Plan, ranges_outside};
use tcd_text::cut_line;

/// The most ranges of ram and the most peripherals of a plan.
const MOST: usize = 16;

/// A word of ram with the bounds of its number, `lo..=hi`.
#[derive(Clone, Copy, Debug, Default, PartialEq, Eq)]
pub struct Cell {
    /// The address, a multiple of 4.
    pub at: u32,
    pub lo: u32,
    pub hi: u32,
}

/// At most 16 cells, in the order of their lines in the text.
#[derive(Drop)]
pub struct Cells {
    list: ArrayVec<Cell, 16>,
}

impl Model for Cells {
    ghost use Rattle.std.specs.Prelude.{List};
    ghost use Rattle.value_cells.specs.declared.cells.Cell.{Cell};

    ghost Value = { List Cell };

    ghost view = { λ c. c.list.items };
}

impl Cells {
    ghost use Rattle.std.specs.Prelude.{◌≡◌, ◌≤◌, ◌^◌, ◌↔◌, [], length, IsTrue, Any, OnOk, IfOk, IfErr};
    ghost use Rattle.value_cells.specs.Cells.{IsCell, AreCells};
    ghost use Rattle.value_cells.specs.CellListText.{HasRoomForCell, AreCellsAfterLine, IsErrOfCellLine, IsResultOfCellText};

    /// Reads the cells, words of ram with bounds, from lines `cell AT LO HI`; numbers have eight
    /// upper-case hex digits, and empty lines are skipped. Returns the first bad line's first
    /// error, in the order of `CellsErr`.
    pub fn read(bytes: &[u8], plan: &Plan) -> Result<Cells, CellsErr>
        requires { length bytes.now ≤ 2 ^ 30 }
        ensures read { IsResultOfCellText plan.now bytes.now result }
        ensures cells { IfOk result (AreCells plan.now) }
    {
        let mut cells = Cells::new(plan);
        let mut number = 0u32;
        let mut rest = bytes;
        'lines: while !rest.is_empty() {
            let (line, behind) = cut_line(rest);
            number += 1;
            cells.add_line(plan, number, line)?;
            rest = behind;
        }
        Ok(cells)
    }

    /// Returns the cells, in the order of their lines in the text.
    pub fn list(&self) -> &[Cell]
        ensures { result.now ≡ self.now }
    {
        self.list.as_slice()
    }

    // Returns an empty list of cells. The plan is there for the contract alone.
    fn new(plan: &Plan) -> Cells
        ensures none { result ≡ [] }
        ensures cells { AreCells plan.now result }
    {
        let _areas = plan.areas;
        Cells {
            list: ArrayVec::new(),
        }
    }

    // Adds the cell that line `number` of a text names; an empty line adds none. The error says
    // what is wrong with the line: its form, not in ram, named twice, or too many.
    fn add_line(&mut self, plan: &Plan, number: u32, line: &[u8]) -> Result<(), CellsErr>
        requires { AreCells plan.now self.old }
        ensures ok { OnOk result (AreCellsAfterLine plan.now self.old line.now self.new) }
        ensures err { IfErr result (IsErrOfCellLine plan.now self.old line.now number) }
    {
        if line.is_empty() {
            return Ok(());
        }
        let Some(cell) = parse_cell_line(line) else {
            return Err(CellsErr::BadLine(number));
        };
        if !is_cell_in_ram(plan, cell.at) {
            return Err(CellsErr::NotRam(number));
        }
        if self.has_cell_at(cell.at) {
            return Err(CellsErr::Twice(number));
        }
        if !self.has_room_for_cell(plan, &cell) {
            return Err(CellsErr::TooMany(number));
        }
        self.list.push(cell);
        Ok(())
    }

    // Returns whether there is a cell at this address.
    fn has_cell_at(&self, at: u32) -> bool
        ensures { IsTrue result ↔ Any (λ d. d.at ≡ at) self.now }
    {
        self.list.iter().any(|cell| cell.at == at)
    }

    // Returns whether one more cell leaves at most 16 ranges of ram and at most 16 peripherals.
    fn has_room_for_cell(&self, plan: &Plan, cell: &Cell) -> bool
        requires cells { AreCells plan.now self.now }
        requires cell { IsCell plan.now cell.now }
        ensures { IsTrue result ↔ HasRoomForCell plan.now self.now cell.now }
    {
        let _areas = plan.areas;
        let ram = ram_without_cells(plan, self.list());
        ranges_outside(ram.as_slice(), cell.at, 4).len() <= MOST
            && plan.devices.len() + self.list.len() < MOST
    }
}
