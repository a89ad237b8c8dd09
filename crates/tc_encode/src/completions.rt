// Beginnings of instructions: whether fewer bytes than an instruction has can be completed.
ghost use Rattle.std.specs.Prelude.{◌≡◌, ◌<◌, ◌≤◌, ◌%◌, IfSome, IfNone, slice_get, Some};
ghost use Rattle.tc_isa.specs.Rows.{row_of, table_rows};
ghost use Rattle.tc_isa.specs.ValidRowFields.{least_fields};
ghost use Rattle.tc_isa.specs.Insts.{InstData};
ghost use Rattle.tc_encode.specs.Decoding.{row_instruction_length, instruction_length};
ghost use Rattle.tc_encode.specs.WordSearch.{IsCompletionOf, RowLacksCompletion, power_of_256};

use crate::decoding::decode_row_word;
use crate::forms::word_of_fields;
use crate::index::index_by_first_byte;
use tc_isa::{Fields, Inst, ROW_COUNT, Row, rows};

/// Returns an instruction of more than `n` bytes whose encoding begins with the `n` low bytes of
/// `part`, or `None`. `first` is the lowest of these bytes.
pub fn completion(first: u8, n: u8, part: u32) -> Option<Inst>
    requires low { 1 ≤ n }
    requires high { n < instruction_length first }
    requires part { part < power_of_256 n }
    requires first { first ≡ part % 256 }
    ensures some { IfSome result (IsCompletionOf n part) }
    ensures none { IfNone result ((i : InstData) → IsCompletionOf n part i → ⊥) }
{
    let (starts, ends) = index_by_first_byte();
    let place = usize::from(first);
    completion_in_rows(starts[place], ends[place], first, n, part)
}

/// Returns an instruction of rows `from..to` of the instruction table whose encoding begins with
/// the `n` low bytes of `part` and is longer, or `None`.
fn completion_in_rows(from: u8, to: u8, first: u8, n: u8, part: u32) -> Option<Inst>
    requires places { to ≤ ROW_COUNT }
    requires low { 1 ≤ n }
    requires high { n < instruction_length first }
    requires part { part < power_of_256 n }
    requires first { first ≡ part % 256 }
    ensures some { IfSome result (IsCompletionOf n part) }
    ensures none { IfNone result
        ((i : InstData) → IsCompletionOf n part i → from ≤ i.row → i.row < to → ⊥) }
{
    for place in from..to {
        if let Some(found) = completion_at_row(place, first, n, part) {
            return Some(found);
        }
    }
    None
}

/// Returns an instruction of row `place` of the instruction table whose encoding begins with the
/// `n` low bytes of `part` and is longer, or `None`.
fn completion_at_row(place: u8, first: u8, n: u8, part: u32) -> Option<Inst>
    requires place { place < ROW_COUNT }
    requires low { 1 ≤ n }
    requires high { n < instruction_length first }
    requires part { part < power_of_256 n }
    requires first { first ≡ part % 256 }
    ensures some { IfSome result (IsCompletionOf n part) }
    ensures none { IfNone result (RowLacksCompletion place n part) }
{
    let row = &rows()[usize::from(place)];
    if row.op1 != first {
        return None;
    }
    completion_in_row(place, row, n, part)
}

/// Returns an instruction of this row of the instruction table, with number `place`, whose encoding
/// begins with the `n` low bytes of `part`, or `None`.
fn completion_in_row(place: u8, row: &Row, n: u8, part: u32) -> Option<Inst>
    requires place { slice_get table_rows place ≡ Some (row_of row.now) }
    requires low { 1 ≤ n }
    requires high { n ≤ 3 }
    requires part { part < power_of_256 n }
    requires longer { n < row_instruction_length (row_of row.now) }
    ensures some { IfSome result (IsCompletionOf n part) }
    ensures none { IfNone result (RowLacksCompletion place n part) }
{
    let rest = word_of_fields(row.form, row.op1, row.op2, &least_completion_fields(row));
    let span = power_of_256(n);
    decode_row_word(place, row, part + rest / span * span)
}

/// Returns the smallest operand fields that are valid in the row: zeros, but `s1` is 1 where the
/// two address registers must differ.
fn least_completion_fields(row: &Row) -> Fields
    ensures { result ≡ least_fields (row_of row.now) }
{
    let s1 = if (row.op1 == 9 || row.op1 == 137) && row.op2 == 6 {
        1
    } else {
        0
    };
    Fields {
        c: 0,
        s1,
        s2: 0,
        n: 0,
        k: 0,
    }
}

/// Returns 256 to the power of `n`, for `n` from 1 to 3: the number of values of the low `n` bytes
/// of a word.
fn power_of_256(n: u8) -> u32
    requires low { 1 ≤ n }
    requires high { n ≤ 3 }
    ensures span { result ≡ power_of_256 n }
    ensures some { 0 < result }
{
    match n {
        1 => 256,
        2 => 65536,
        _ => 16_777_216,
    }
}
