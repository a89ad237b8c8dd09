// The plan with cells.
ghost use Rattle.std.specs.Prelude.{◌≡◌, ◌≤◌, ◌++◌, ◌↔◌, IsTrue, map, length};
ghost use Rattle.tcd_base.specs.Ranges.{IsInOneRange, RangesDoNotWrap};
ghost use Rattle.tcd_plan.specs.Cutting.{ranges_outside};
ghost use Rattle.value_cells.specs.Cells.{AreCells, cell_device, ram_without_cells, with_cells};

use crate::cells::{Cell, Cells};
use arrayvec::ArrayVec;
use tcd_base::{Range, is_in_one_range};
use tcd_plan::{Device, Plan, ranges_outside};

/// Returns whether the word of a cell, at this address, is inside one of the plan's ranges of ram.
pub(crate) fn is_cell_in_ram(plan: &Plan, at: u32) -> bool
    ensures { IsTrue result ↔ IsInOneRange at 4 plan.now.ram }
{
    is_in_one_range(plan.ram.as_slice(), at, 4)
}

/// Returns the ranges of ram without the words of all cells.
pub(crate) fn ram_without_cells(plan: &Plan, cells: &[Cell]) -> ArrayVec<Range, 16>
    requires { AreCells plan.now cells.now }
    ensures { result.items ≡ ram_without_cells cells.now plan.now.ram }
{
    let mut ram = ArrayVec::try_from(plan.ram.as_slice()).unwrap();
    for cell in cells {
        ram = ranges_without_cell(ram.as_slice(), cell.at);
    }
    ram
}

/// Returns the plan with the cells, bounded words of ram, as its last peripherals. Their bytes
/// leave ram, and loads of them give words within bounds.
pub fn with_cells(plan: &Plan, cells: &Cells) -> Plan
    requires { AreCells plan.now cells.now }
    ensures { result ≡ with_cells plan.now cells.now }
{
    Plan {
        rom: ArrayVec::try_from(plan.rom.as_slice()).unwrap(),
        ram: ram_without_cells(plan, cells.list()),
        devices: devices_with_cells(plan, cells.list()),
        csa_at: plan.csa_at,
        areas: plan.areas,
        reserve: plan.reserve,
        sp: plan.sp,
        isp: plan.isp,
        biv: plan.biv,
        btv: plan.btv,
        irqs: ArrayVec::try_from(plan.irqs.as_slice()).unwrap(),
        sys: plan.sys,
        aln: plan.aln,
        start_ie: plan.start_ie,
        start_ccpn: plan.start_ccpn,
        start_is: plan.start_is,
        globals: plan.globals,
        core: plan.core,
    }
}

/// Returns these ranges of ram without the four bytes of the cell at an address.
fn ranges_without_cell(ranges: &[Range], at: u32) -> ArrayVec<Range, 16>
    requires few { length ranges.now ≤ 16 }
    requires fit { RangesDoNotWrap ranges.now }
    requires room { length (ranges_outside at 4 ranges.now) ≤ 16 }
    ensures { result.items ≡ ranges_outside at 4 ranges.now }
{
    let left = ranges_outside(ranges, at, 4);
    ArrayVec::try_from(left.as_slice()).unwrap()
}

/// Returns the plan's peripherals, and after them one for each cell, which answers inside the
/// cell's bounds.
fn devices_with_cells(plan: &Plan, cells: &[Cell]) -> ArrayVec<Device, 16>
    requires { AreCells plan.now cells.now }
    ensures { result.items ≡ plan.now.devices ++ map cell_device cells.now }
{
    let mut devices = ArrayVec::new();
    devices
        .try_extend_from_slice(plan.devices.as_slice())
        .unwrap();
    for cell in cells {
        devices.push(Device {
            range: Range {
                at: cell.at,
                len: 4,
            },
            lo: cell.lo,
            hi: cell.hi,
        });
    }
    devices
}
