//! The instruction table: rows, instructions and what they do.
#![tactic(auto)]

mod arithmetic;
mod bounds;
mod core_registers;
mod fields;
mod fitting_fields;
mod halves;
mod instruction;
mod meaning;
mod relocation_kinds;
mod row_meanings;
mod row_uses;
mod shape_of_instruction;
mod shapes;
mod table;
mod written_registers;

pub use arithmetic::{alu, taken};
pub use bounds::field_bounds;
pub use core_registers::{BIV, BTV, FCX, ICR, ISP, LCX, PCXI, PSW};
pub use fields::{Fields, Uses};
pub use fitting_fields::{are_registers_allowed, inst};
pub use halves::{adjusted_upper_half, lower_half};
pub use instruction::Inst;
pub use relocation_kinds::{ABS24, HI16, LO16, OFFSET16, REL15, REL24, WORD32};
pub use row_uses::{are_unused_fields_zero, used_fields_by_row};
pub use shape_of_instruction::{shape, shape_laws};
pub use shapes::{Arg, Cond, Op, Shape, Target};
pub use table::{Form, ROW_COUNT, Row, rows};
pub use written_registers::writes;
