// Builds an instruction from the number of a row, if the fields fit the row.
ghost use Rattle.std.specs.Prelude.{◌≡◌, ◌↔◌, IsTrue, IsSome, IfSome};
ghost use Rattle.tc_isa.specs.Rows.{row_of};
ghost use Rattle.tc_isa.specs.ValidRowFields.{FieldsFitRow, used_fields, are_registers_allowed};
ghost use Rattle.tc_isa.specs.Insts.{IsInst};
ghost use Rattle.tc_isa.specs.NamedInstructions.{instruction};

use crate::bounds::{are_fields_below, field_bounds};
use crate::row_uses::{are_unused_fields_zero, used_fields_by_row};
use crate::{Fields, Inst, Row, Uses, rows};

/// The first code of loads with a base and an offset of 10 bits, post-increment among them.
const LOAD_AFTER: u8 = 0x09;

/// The first code of stores with a base and an offset of 10 bits, post-increment among them.
const STORE_AFTER: u8 = 0x89;

/// The second code of both with post-increment for an address register (`ld.a`, `st.a`).
const OF_ADDRESS: u8 = 0x06;

/// Returns the instruction of this row of the instruction table with these raw operand fields.
/// `None` if there is no such row, or its instructions can't have these fields.
pub fn inst(row: u8, c: u8, s1: u8, s2: u8, n: u8, k: u32) -> Option<Inst>
    ensures listed { IsSome result ↔ IsInst (instruction row c s1 s2 n k) }
    ensures fields { IfSome result (λ i. i ≡ instruction row c s1 s2 n k) }
{
    let place = usize::from(row);
    let rows = rows();
    if place >= rows.len() {
        return None;
    }
    let fields = Fields { c, s1, s2, n, k };
    if !fields_fit_row(&rows[place], &used_fields_by_row()[place], &fields) {
        return None;
    }
    Some(Inst {
        row,
        c,
        s1,
        s2,
        n,
        k,
    })
}

/// Returns true if the row allows the registers: `ld.a` and `st.a` with post-increment can't load
/// or store the register that is their base.
#[inline(always)]
pub fn are_registers_allowed(row: &Row, f: &Fields) -> bool
    ensures { result ≡ are_registers_allowed (row_of row.now) f.now }
{
    !((row.op1 == LOAD_AFTER || row.op1 == STORE_AFTER) && row.op2 == OF_ADDRESS) || f.s1 != f.s2
}

/// Returns true if instructions of this row of the instruction table can have these operand fields.
/// `uses` says which fields the row has.
fn fields_fit_row(row: &Row, uses: &Uses, fields: &Fields) -> bool
    requires { uses.now ≡ used_fields (row_of row.now) }
    ensures { IsTrue result ↔ FieldsFitRow (row_of row.now) fields.now }
{
    are_fields_below(fields, &field_bounds(row.form))
        && are_unused_fields_zero(uses, fields)
        && are_registers_allowed(row, fields)
}
