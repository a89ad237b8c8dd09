// Finds the instruction of a word by the index of codes.
ghost use Rattle.std.specs.Prelude.{◌≡◌, ◌<◌, ◌%◌, ℕ, IfSome, IfNone, slice_get, Some};
ghost use Rattle.tc_isa.specs.Rows.{RowData, row_of, table_rows};
ghost use Rattle.tc_isa.specs.Forms.{second_opcode, field_bounds};
ghost use Rattle.tc_isa.specs.InBounds.{AreFieldsBelow};
ghost use Rattle.tc_isa.specs.ValidRowFields.{used_fields, are_unused_fields_zero};
ghost use Rattle.tc_encode.specs.WordSearch.{EvenWordHas16Bits, IsWordOf, NoInstructionHasWord, RowLacksWord, are_unused_bits_zero};

use crate::forms::{fields_of_word, second_opcode};
use crate::index::{
    form_of_first_byte, has_all_fields_by_row, index_by_opcodes, row_number_by_opcodes,
};
use tc_isa::{
    Fields, Form, Inst, ROW_COUNT, Row, are_registers_allowed, are_unused_fields_zero, rows,
    used_fields_by_row,
};

/// Returns the listed instruction whose word is `w`, or `None` if there is none. The word has 16
/// bits if its lowest byte is even, else 32.
pub fn instruction_of_word(w: u32) -> Option<Inst>
    requires { EvenWordHas16Bits w }
    ensures some { IfSome result (IsWordOf w) }
    ensures none { IfNone result (NoInstructionHasWord w) }
{
    let first = (w % 256) as u8;
    let second = second_opcode_by_first_byte(first, w);
    let Some(place) = row_number_by_opcodes(first, second) else {
        return None;
    };
    instruction_by_opcodes(place, first, second, w)
}

/// Returns the instruction of the word `w`, which has this row's opcodes, or `None` if the other
/// bits of `w` don't fit the row. `place` is the row's number.
pub(crate) fn instruction_in_row(place: u8, row: &Row, w: u32) -> Option<Inst>
    requires place { slice_get table_rows place ≡ Some (row_of row.now) }
    requires within { place < ROW_COUNT }
    requires first { row.now.op1 ≡ w % 256 }
    requires second { row.now.op2 ≡ second_opcode row.now.form w }
    requires short { EvenWordHas16Bits w }
    ensures some { IfSome result (IsWordOf w) }
    ensures none { IfNone result (RowLacksWord place w) }
{
    let f = fields_of_word(row.form, w);
    if !are_unused_bits_zero(row.form, w) {
        return None;
    }
    if !are_missing_fields_zero(place, row, &f) {
        return None;
    }
    if !are_registers_allowed(row, &f) {
        return None;
    }
    Some(Inst {
        row: place,
        c: f.c,
        s1: f.s1,
        s2: f.s2,
        n: f.n,
        k: f.k,
    })
}

/// Decodes the word `w`, with opcodes `first` and `second`, as an instruction of row `place` of the
/// instruction table. `None` if the opcodes or the other bits don't fit the row.
pub(crate) fn instruction_by_opcodes(place: u8, first: u8, second: u8, w: u32) -> Option<Inst>
    requires place { place < ROW_COUNT }
    requires first { first ≡ w % 256 }
    requires second { (r : RowData) → slice_get table_rows place ≡ Some r → r.op1 ≡ first
        → second ≡ second_opcode r.form w }
    requires short { EvenWordHas16Bits w }
    ensures some { IfSome result (IsWordOf w) }
    ensures none { IfNone result (RowLacksWord place w) }
{
    let at = usize::from(place);
    let row = &rows()[at];
    if row.op1 != first {
        return None;
    }
    if row.op2 != second {
        return None;
    }
    instruction_in_row(place, row, w)
}

/// Returns the second operation code in the word `w`, by the form of the table rows that begin with
/// this byte.
fn second_opcode_by_first_byte(first: u8, w: u32) -> u8
    ensures { (place : ℕ) (r : RowData) → slice_get table_rows place ≡ Some r → r.op1 ≡ first
        → result ≡ second_opcode r.form w }
{
    second_opcode(form_of_first_byte(first), w)
}

/// Returns true if all bits of `w` are 0 that hold no field and no opcode in instructions of this
/// format.
#[tactic(auto, unfolding(crate::specs::WordSearch::are_unused_bits_zero))]
fn are_unused_bits_zero(form: Form, w: u32) -> bool
    ensures { result ≡ are_unused_bits_zero form w }
{
    match form {
        Form::Rr => w / 262_144 % 4 == 0,
        Form::Sys => w / 268_435_456 == 0 && w / 256 % 16384 == 0,
        _ => true,
    }
}

/// Returns true if those of the fields `f` are 0 that instructions of this table row, with number
/// `place`, don't use.
fn are_missing_fields_zero(place: u8, row: &Row, f: &Fields) -> bool
    requires place { slice_get table_rows place ≡ Some (row_of row.now) }
    requires within { place < ROW_COUNT }
    requires below { AreFieldsBelow f.now (field_bounds row.now.form) }
    ensures { result ≡ are_unused_fields_zero (used_fields (row_of row.now)) f.now }
{
    let at = usize::from(place);
    has_all_fields_by_row()[at] || are_unused_fields_zero(&used_fields_by_row()[at], f)
}
