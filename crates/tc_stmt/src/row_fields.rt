// The fields of a row, as its operands fill them.
ghost use Rattle.std.specs.Prelude.{◌≡◌, ◌<◌};
ghost use Rattle.tc_stmt.specs.Items.{reference_of, reference_to};
ghost use Rattle.tc_stmt.specs.RowFields.{row_fields_of, zero_fields, with_rule, set_field, field_of, with_field_value};
ghost use Rattle.tc_lex.specs.Operands.{value_of};
ghost use Rattle.tc_stmt.specs.Filling.{with_symbol, with_misplaced_symbol, note_equal_registers};
ghost use Rattle.tc_stmt.specs.Names.{rule_broken_by_symbol};
ghost use Rattle.tc_isa.specs.Rows.{row_of};

use crate::names::rule_broken_by_symbol;
use crate::source_rules::{EQUAL_REGISTERS, MISPLACED_SYMBOL, NO_RULE};
use crate::want::Field;
use tc_isa::{Fields, Form, Row, are_registers_allowed};
use tc_lex::Value;

/// The kind of a reference whose address is used at once, without a relocation.
pub const NO_RELOC: u8 = 0;

/// A symbol whose address, plus or minus a number, goes into a field. The kind is that of the
/// relocation, or `NO_RELOC`.
#[derive(Clone, Copy)]
pub struct Reference<'a> {
    /// The name of the symbol.
    pub name: &'a [u8],
    /// The absolute value of the number.
    pub size: u32,
    /// The kind of the relocation, or `NO_RELOC`.
    pub kind: u8,
    /// Whether the number is subtracted.
    pub minus: bool,
}

/// Returns a reference of this kind to the symbol of this name. The number `size` is added to its
/// address, or subtracted if `minus`.
pub fn reference_to(kind: u8, name: &[u8], minus: bool, size: u32) -> Reference<'_>
    ensures { reference_of result ≡ reference_to kind name.now minus size }
{
    Reference {
        name,
        size,
        kind,
        minus,
    }
}

/// The fields and the symbol of a row, and the least rule that the operands break. If they break
/// none, the rule is `NO_RULE`.
#[derive(Clone, Copy)]
pub struct RowFields<'a> {
    /// The symbol, if an operand names one.
    pub reference: Option<Reference<'a>>,
    /// The fields, which are zero until an operand fills them.
    pub fields: Fields,
    /// The least rule that is broken, or `NO_RULE`.
    pub rule: u8,
}

/// A row's fields before the first operand: zeros, no rule broken, no symbol.
pub(crate) fn zero_fields<'a>() -> RowFields<'a>
    ensures { row_fields_of result ≡ zero_fields }
{
    RowFields {
        fields: Fields {
            c: 0,
            s1: 0,
            s2: 0,
            n: 0,
            k: 0,
        },
        rule: NO_RULE,
        reference: None,
    }
}

/// Notes in `acc`, a row's fields so far, that an operand breaks a rule. The lowest number counts.
pub(crate) fn note_broken_rule(rule: u8, acc: &mut RowFields<'_>)
    ensures { row_fields_of acc.new ≡ with_rule rule (row_fields_of acc.old) }
{
    acc.rule = acc.rule.min(rule);
}

/// Sets one of a row's fields to the value `v` from an operand, modulo 256 in all fields but `k`.
#[tactic(auto, unfolding(crate::specs::RowFields::set_field))]
pub(crate) fn set_field(field: Field, v: u32, f: &mut Fields)
    ensures { f.new ≡ set_field field v f.old }
{
    match field {
        Field::C => f.c = (v % 256) as u8,
        Field::S1 => f.s1 = (v % 256) as u8,
        Field::S2 => f.s2 = (v % 256) as u8,
        Field::N => f.n = (v % 256) as u8,
        Field::K => f.k = v,
    }
}

/// Returns the value in this one of a row's fields: C, S1, S2, N or K.
#[tactic(auto, unfolding(crate::specs::RowFields::field_of))]
pub fn field_of(field: Field, f: &Fields) -> u32
    ensures { result ≡ field_of field f.now }
{
    match field {
        Field::C => u32::from(f.c),
        Field::S1 => u32::from(f.s1),
        Field::S2 => u32::from(f.s2),
        Field::N => u32::from(f.n),
        Field::K => f.k,
    }
}

/// Sets one of the fields `acc` of a row to the value `v`, modulo 256 in all fields but `k`.
pub(crate) fn fill_field(field: Field, v: u32, acc: &mut RowFields<'_>)
    ensures { row_fields_of acc.new ≡ with_field_value field v (row_fields_of acc.old) }
{
    set_field(field, v, &mut acc.fields);
}

/// Notes in `acc`, a row's fields so far, the symbol of an operand's value `v`, with the `kind` of
/// its relocation (0 for none). If the symbol breaks a rule, that rule is noted.
#[tactic(auto, unfolding(crate::specs::Filling::with_symbol))]
pub(crate) fn note_symbol<'a>(kind: u8, v: &Value<'a>, acc: &mut RowFields<'a>)
    ensures { row_fields_of acc.new
        ≡ with_symbol kind (value_of v.now) (row_fields_of acc.old) }
{
    let rule = rule_broken_by_symbol(v);
    if rule != NO_RULE {
        note_broken_rule(rule, acc);
        return;
    }
    acc.reference = Some(Reference {
        kind,
        name: v.name,
        minus: v.minus,
        size: v.size as u32,
    });
}

/// Notes in `acc` that an operand's value `v` has a symbol in a place that takes none.
pub(crate) fn note_misplaced_symbol(v: &Value<'_>, acc: &mut RowFields<'_>)
    ensures { row_fields_of acc.new
        ≡ with_misplaced_symbol (value_of v.now) (row_fields_of acc.old) }
{
    note_broken_rule(MISPLACED_SYMBOL.min(rule_broken_by_symbol(v)), acc);
}

/// Notes in `f` that rule 12 is broken if the row's post-increment uses one address register as
/// both base and operand.
pub(crate) fn note_equal_registers(row: &Row, f: &mut RowFields<'_>)
    ensures { row_fields_of f.new ≡ note_equal_registers (row_of row.now) (row_fields_of f.old) }
{
    if !are_registers_allowed(row, &f.fields) {
        note_broken_rule(EQUAL_REGISTERS, f);
    }
}
