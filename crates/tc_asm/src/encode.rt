// The bytes of an instruction, with a target in the same section resolved at once.
ghost use Rattle.std.specs.Prelude.{◌≡◌, take, if◌then◌else◌, ◌==◌, false, ◌<◌};
ghost use Rattle.tc_isa.specs.Rows.{is_32_bit_row, row_of};
ghost use Rattle.tc_stmt.specs.RowFields.{row_fields_of};
ghost use Rattle.tc_asm.specs.Drafts.{assembled_code_size, assembled_code, bare_row_fields};
ghost use Rattle.tc_stmt.specs.Items.{reference_of};

use crate::draft::Draft;
use crate::symbols::Symbols;
use tc_encode::{Code, encode};
use tc_isa::{Fields, Row, inst, rows};
use tc_stmt::{MISPLACED_SYMBOL, NO_RELOC, NO_RULE, Reference, RowFields, with_displacement};

/// Encodes the instruction of this row of the instruction table with these fields. There are no
/// bytes if the table has no such row or the fields don't fit the row.
pub(crate) fn assembled_code(row: u8, f: &Fields) -> Code
    ensures { take result.len result.bytes ≡ assembled_code row f.now }
{
    match inst(row, f.c, f.s1, f.s2, f.n, f.k) {
        Some(inst) => encode(&inst),
        None => Code {
            len: 0,
            bytes: [0; 4],
        },
    }
}

/// The first `len` of the four bytes that hold an instruction or a value of data, and all four if
/// `len` is larger.
pub(crate) fn first_assembled_bytes(bytes: &[u8; 4], len: u8) -> &[u8]
    ensures { result.now ≡ take len bytes.now }
{
    let len = usize::from(len).min(4);
    &bytes[..len]
}

/// The size in bytes of instructions of table row `row`: 4 or 2, and 0 if there is no such row.
pub(crate) fn assembled_code_size(row: u8) -> u8
    ensures { result ≡ assembled_code_size row }
{
    let rows = rows();
    let place = usize::from(row);
    if place < rows.len() {
        assembled_row_size(&rows[place])
    } else {
        0
    }
}

/// Returns an instruction's fields as `RowFields` that break no rule and refer to no symbol.
#[inline(always)]
fn bare_row_fields<'a>(fields: Fields) -> RowFields<'a>
    ensures { row_fields_of result ≡ bare_row_fields fields }
{
    RowFields {
        fields,
        rule: NO_RULE,
        reference: None,
    }
}

/// The size in bytes of instructions of this row of the instruction table: 4 or 2.
fn assembled_row_size(row: &Row) -> u8
    ensures { result ≡ (if is_32_bit_row (row_of row.now) then 4 else 2) }
{
    if row.op1 % 2 == 1 { 4 } else { 2 }
}

impl<'a> Draft<'a> {
    ghost use Rattle.tc_isa.specs.Rows.{row_of};
    ghost use Rattle.tc_stmt.specs.Items.{reference_of, reference_if_any};
    ghost use Rattle.tc_asm.specs.Drafts.{label_distance, fields_with_label_distance, fields_with_target, row_fields_with_target, code_bytes};

    /// Returns the fields of the draft's next instruction, of instruction table row `row`. Its
    /// target `r` is resolved with the symbols `labels`, unless a relocation will fill it in.
    #[inline(always)]
    pub(crate) fn resolve_instruction(
        &self,
        labels: &Symbols<'a>,
        row: u8,
        fields: &Fields,
        r: &Option<Reference<'a>>,
    ) -> RowFields<'a>
        ensures { row_fields_of result
            ≡ row_fields_with_target labels.now self.now row fields.now (reference_if_any r.now) }
    {
        let rows = rows();
        let place = usize::from(row);
        if place < rows.len() {
            self.resolve_target(labels, &rows[place], fields, r)
        } else {
            bare_row_fields(*fields)
        }
    }

    /// Returns the bytes of the draft's next instruction, of instruction table row `row`. Its
    /// target `r` is resolved with the symbols `labels`, unless a relocation will fill it in.
    #[tactic(auto, unfolding(crate::specs::Drafts::code_bytes))]
    pub(crate) fn code_bytes(
        &self,
        labels: &Symbols<'a>,
        row: u8,
        fields: &Fields,
        r: &Option<Reference<'a>>,
    ) -> Code
        ensures { take result.len result.bytes
            ≡ code_bytes labels.now self.now row fields.now (reference_if_any r.now) }
    {
        let found = self.resolve_instruction(labels, row, fields, r);
        assembled_code(row, &found.fields)
    }

    /// Returns an instruction's fields with the jump target `r` resolved by the source's symbols
    /// `labels`. Without a target, or if a relocation is needed, the fields stay as they are.
    #[inline(always)]
    fn resolve_target(
        &self,
        labels: &Symbols<'a>,
        row: &Row,
        fields: &Fields,
        r: &Option<Reference<'a>>,
    ) -> RowFields<'a>
        ensures { row_fields_of result
            ≡ fields_with_target labels.now self.now (row_of row.now) fields.now
            (reference_if_any r.now) }
    {
        match r {
            None => bare_row_fields(*fields),
            Some(r) => {
                if r.kind == NO_RELOC {
                    self.resolve_jump(labels, row, fields, *r)
                } else {
                    bare_row_fields(*fields)
                }
            }
        }
    }

    /// Returns the fields of a 16-bit jump with the displacement to its target `r`, one of the
    /// symbols `labels`. If the target can't be reached, the broken rule is noted instead.
    #[inline(never)]
    #[tactic(auto, unfolding(crate::specs::Drafts::fields_with_label_distance))]
    fn resolve_jump(
        &self,
        labels: &Symbols<'a>,
        row: &Row,
        fields: &Fields,
        r: Reference<'a>,
    ) -> RowFields<'a>
        ensures { row_fields_of result
            ≡ fields_with_label_distance labels.now self.now (row_of row.now) fields.now
            (reference_of r.entry) }
    {
        match self.label_distance(labels, r) {
            None => RowFields {
                fields: *fields,
                rule: MISPLACED_SYMBOL,
                reference: None,
            },
            Some((minus, size)) => with_displacement(row, minus, size, bare_row_fields(*fields)),
        }
    }

    /// Returns whether the jump target `r` is before the draft's next instruction, and their
    /// distance in bytes. None if `r` is no label of the current section among `labels`.
    #[tactic(auto, unfolding(crate::specs::Drafts::label_distance))]
    fn label_distance(&self, labels: &Symbols<'a>, r: Reference<'a>) -> Option<(bool, u128)>
        ensures { result ≡ label_distance labels.now self.now (reference_of r.entry) }
    {
        match labels.place(r.name) {
            None => None,
            Some(label) => {
                if self.has_current_section() && label.section == self.section {
                    let size = u128::from(r.size);
                    let here = self.next_byte_offset() as u128 + if r.minus { size } else { 0 };
                    let there = label.offset as u128 + if r.minus { 0 } else { size };
                    if here <= there {
                        Some((false, there - here))
                    } else {
                        Some((true, here - there))
                    }
                } else {
                    None
                }
            }
        }
    }
}
