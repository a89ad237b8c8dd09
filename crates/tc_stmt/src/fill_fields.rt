// Fills the fields of a row from the operands of a statement.
ghost use Rattle.std.specs.Prelude.{◌≡◌, ◌<◌, ◌≤◌, ◌+◌, ◌^◌, map, true, if◌then◌else◌, ◌==◌, false, ◌*◌};
ghost use Rattle.tc_isa.specs.Rows.{row_of};
ghost use Rattle.tc_isa.specs.Forms.{field_bounds};
ghost use Rattle.tc_lex.specs.Operands.{value_of, operand_of};
ghost use Rattle.tc_stmt.specs.SourceRules.{no_rule};
ghost use Rattle.tc_stmt.specs.RowFields.{row_fields_of, field_of};
ghost use Rattle.tc_stmt.specs.Filling.{GivesFieldsOrFalse, fill_named_register, fill_number, half_operand_relocation, fill_constant, fill_memory, fill_target, fill_address, fill_absolute, fill_register, check_a10, fill_plain_operand, fill_operand, fill_operands, is_within_field_bound, is_row_named};
ghost use Rattle.tc_stmt.specs.Displacements.{rule_broken_by_displacement, with_displacement, target_operand_relocation, is_far_displacement};
ghost use Rattle.tc_stmt.specs.OperandForms.{register_number, operand_number_modulo};

use crate::form_index::{ABS, B, BOL, SBR, form_index};
use crate::row_fields::{
    NO_RELOC, RowFields, field_of, fill_field, note_broken_rule, note_misplaced_symbol, note_symbol,
};
use crate::row_wants::wants;
use crate::shape_numbers::{ABSENT, HIGH, HUGE, LOW, NUMBER, SUM, WORD, shape_index};
use crate::source_rules::{FAR_TARGET, NO_RULE, ODD_DISPLACEMENT, WIDE_NUMBER, WRONG_REGISTER};
use crate::want::{Field, Want};
use tc_isa::{ABS24, Form, HI16, LO16, OFFSET16, REL15, REL24, Row, field_bounds};
use tc_lex::{Operand, Shape, Value, is_same_text};

// The number of a name that is no register: above the numbers of all registers.
const NO_REGISTER: u8 = 64;

/// Returns the row's fields with a displacement of `size` bytes, backwards if `minus`, in the field
/// of a jump's target. If a rule is broken, that rule is noted instead.
pub fn with_displacement<'a>(
    row: &Row,
    minus: bool,
    size: u128,
    acc: RowFields<'a>,
) -> RowFields<'a>
    ensures { row_fields_of result
        ≡ with_displacement (row_of row.now) minus size (row_fields_of acc.entry) }
{
    let mut made = acc;
    fill_displacement(row, minus, size, &mut made);
    made
}

/// Fills `acc`, an instruction's fields so far, from the operand `o`. Returns false if the operand
/// isn't of the kind `want` that the instruction takes.
#[tactic(auto, unfolding(crate::specs::Filling::fill_operand, crate::specs::Filling::fill_plain_operand))]
pub(crate) fn fill_operand<'a>(
    row: &Row,
    want: Want,
    o: &Operand<'a>,
    acc: &mut RowFields<'a>,
) -> bool
    ensures { GivesFieldsOrFalse result acc.new
        (fill_operand (row_of row.now) want (operand_of o.now) (row_fields_of acc.old)) }
{
    if let Want::Memory(plus, offset) = want {
        return fill_memory(row, plus, offset, o, acc);
    }
    if o.is_memory {
        return false;
    }
    match want {
        Want::Reg(bank, field) => fill_register(bank, field, &o.value, acc),
        Want::A10 => check_a10(&o.value, acc),
        Want::Number(signed, field) => fill_constant(row, signed, field, &o.value, acc),
        Want::Target => fill_target(row, &o.value, acc),
        Want::Absolute => fill_absolute(row, &o.value, acc),
        Want::Memory(_, _) => false,
    }
}

// Fills `acc`, the row's fields so far, from the operands `os`, of the kinds `wants` that the row
// takes. Returns false if their number or a form differs.
pub(crate) fn fill_operands<'a>(
    row: &Row,
    wants: &[Want],
    os: &[Operand<'a>],
    acc: &mut RowFields<'a>,
) -> bool
    ensures { GivesFieldsOrFalse result acc.new
        (fill_operands (row_of row.now) wants.now (map operand_of os.now) (row_fields_of acc.old)) }
{
    if wants.len() != os.len() {
        return false;
    }
    for i in 0..wants.len() {
        if !fill_operand(row, wants[i], &os[i], acc) {
            return false;
        }
    }
    true
}

/// Fills the field of a jump's target in `acc` with a displacement of `size` bytes, backwards if
/// `minus`, or notes the rule that is broken.
#[tactic(auto, unfolding(crate::specs::Displacements::with_displacement))]
fn fill_displacement(row: &Row, minus: bool, size: u128, acc: &mut RowFields<'_>)
    ensures { row_fields_of acc.new
        ≡ with_displacement (row_of row.now) minus size (row_fields_of acc.old) }
{
    let rule = rule_broken_by_displacement(row, minus, size);
    if rule == NO_RULE {
        fill_field(
            Field::K,
            operand_number_modulo(target_operand_bound(row.form), minus, (size / 2) as u32),
            acc,
        );
    } else {
        note_broken_rule(rule, acc);
    }
}

// Checks a jump's displacement of `size` bytes, backwards if `minus`: returns the rule broken if
// odd or too far, else `NO_RULE`.
#[tactic(auto, unfolding(crate::specs::Displacements::rule_broken_by_displacement))]
fn rule_broken_by_displacement(row: &Row, minus: bool, size: u128) -> u8
    ensures value { result ≡ rule_broken_by_displacement (row_of row.now) minus size }
    ensures near { result ≡ no_rule → size ≤ 2 * (field_bounds row.now.form).k }
{
    let by_odd = if size % 2 == 1 {
        ODD_DISPLACEMENT
    } else {
        NO_RULE
    };
    let too_far = if row.op1 % 2 == 1 {
        WIDE_NUMBER
    } else {
        FAR_TARGET
    };
    let by_far: u8 = if is_far_displacement(row.form, target_operand_bound(row.form), minus, size) {
        too_far
    } else {
        NO_RULE
    };
    by_far.min(by_odd)
}

/// An operand's number `size`, negative if `minus`, modulo `bound`, its field's number of values.
fn operand_number_modulo(bound: u32, minus: bool, size: u32) -> u32
    requires { size ≤ bound }
    ensures { result ≡ operand_number_modulo bound minus size }
{
    if minus && size != 0 {
        bound - size
    } else {
        size
    }
}

/// Returns the number of values that the field of a jump's target can have in instructions of this
/// format.
#[tactic(auto, unfolding(tc_isa::specs::Forms::field_bounds))]
fn target_operand_bound(form: Form) -> u32
    ensures value { result ≡ (field_bounds form).k }
    ensures small { result < 2 ^ 31 }
    ensures some { 1 ≤ result }
{
    field_bounds(form).k
}

/// Whether `size` bytes, backwards if `minus`, are too far for a jump of this format. Its field has
/// `bound` values, signed and in halfwords. SBR only reaches forwards, so its field is unsigned.
fn is_far_displacement(form: Form, bound: u32, minus: bool, size: u128) -> bool
    requires { 1 ≤ bound }
    ensures value { result ≡ is_far_displacement form bound minus size }
    ensures near { result ≡ false → size ≤ 2 * bound }
{
    let bound = u128::from(bound);
    if form_index(form) == SBR {
        if minus {
            size != 0
        } else {
            2 * (bound - 1) < size
        }
    } else if minus {
        bound < size
    } else {
        bound.saturating_sub(2) < size
    }
}

/// Fills the base register from `[BASE]`, or from `[BASE+]` if `plus`, and the offset after the
/// brackets if the row takes one (`offset`). Returns false if the operand has another form.
#[tactic(auto, unfolding(crate::specs::Filling::fill_memory))]
fn fill_memory<'a>(
    row: &Row,
    plus: bool,
    offset: bool,
    o: &Operand<'a>,
    acc: &mut RowFields<'a>,
) -> bool
    ensures { GivesFieldsOrFalse result acc.new
        (fill_memory (row_of row.now) plus offset (operand_of o.now) (row_fields_of acc.old)) }
{
    if o.is_memory && (if o.plus { plus } else { !plus }) {
        if shape_index(o.value.shape) == ABSENT {
            fill_named_register(true, Field::S2, o.base, acc);
            true
        } else if offset {
            fill_named_register(true, Field::S2, o.base, acc);
            fill_constant(row, true, Field::K, &o.value, acc)
        } else {
            false
        }
    } else {
        false
    }
}

/// Fills a field in `acc` with the register that an operand's value `v` names: an address register
/// if `bank`, else a data register. Returns false if the value is no name.
#[tactic(auto, unfolding(crate::specs::Filling::fill_register))]
fn fill_register(bank: bool, field: Field, v: &Value<'_>, acc: &mut RowFields<'_>) -> bool
    ensures { GivesFieldsOrFalse result acc.new
        (fill_register bank field (value_of v.now) (row_fields_of acc.old)) }
{
    if shape_index(v.shape) == WORD {
        fill_named_register(bank, field, v.name, acc);
        true
    } else {
        false
    }
}

/// Checks an operand that has to be a10, which takes no field. Another name is noted in `acc` as a
/// wrong register (rule 4); false means that the operand is no name.
#[tactic(auto, unfolding(crate::specs::Filling::check_a10))]
fn check_a10(v: &Value<'_>, acc: &mut RowFields<'_>) -> bool
    ensures { GivesFieldsOrFalse result acc.new
        (check_a10 (value_of v.now) (row_fields_of acc.old)) }
{
    if shape_index(v.shape) == WORD {
        if !is_same_text(v.name, "a10") {
            note_broken_rule(WRONG_REGISTER, acc);
        }
        true
    } else {
        false
    }
}

/// Fills a field in `acc`, signed if `signed`, with the constant of an operand's value `v`, or
/// notes the rule that is broken. Returns false if the value has another form.
#[tactic(auto, unfolding(crate::specs::Filling::fill_constant))]
fn fill_constant<'a>(
    row: &Row,
    signed: bool,
    field: Field,
    v: &Value<'a>,
    acc: &mut RowFields<'a>,
) -> bool
    ensures { GivesFieldsOrFalse result acc.new
        (fill_constant (row_of row.now) signed field (value_of v.now) (row_fields_of acc.old)) }
{
    let shape = shape_index(v.shape);
    if shape == NUMBER {
        fill_number(row.form, signed, field, v.minus, v.size, acc);
        true
    } else if shape == HUGE {
        note_broken_rule(WIDE_NUMBER, acc);
        true
    } else if shape == WORD || shape == SUM {
        note_misplaced_symbol(v, acc);
        true
    } else if shape == HIGH || shape == LOW {
        let kind = half_operand_relocation(row, v.shape);
        if kind == NO_RELOC {
            note_misplaced_symbol(v, acc);
        } else {
            note_symbol(kind, v, acc);
        }
        true
    } else {
        false
    }
}

/// Fills the field of a jump's target in `acc` with the displacement of an operand's value `v`, or
/// notes its symbol. Returns false if the value has another form.
#[tactic(auto, unfolding(crate::specs::Filling::fill_target))]
fn fill_target<'a>(row: &Row, v: &Value<'a>, acc: &mut RowFields<'a>) -> bool
    ensures { GivesFieldsOrFalse result acc.new
        (fill_target (row_of row.now) (value_of v.now) (row_fields_of acc.old)) }
{
    let shape = shape_index(v.shape);
    if shape == SUM && is_same_text(v.name, ".") {
        if v.wide {
            note_broken_rule(WIDE_NUMBER, acc);
        } else {
            fill_displacement(row, v.minus, v.size, acc);
        }
        true
    } else if shape == WORD || shape == SUM {
        note_symbol(target_operand_relocation(row), v, acc);
        true
    } else if shape == HIGH || shape == LOW {
        note_misplaced_symbol(v, acc);
        true
    } else {
        false
    }
}

/// Fills the field of an absolute address in `acc` with the number of an operand's value `v`, or
/// notes its symbol. Returns false if the value has another form.
#[tactic(auto, unfolding(crate::specs::Filling::fill_absolute))]
fn fill_absolute<'a>(row: &Row, v: &Value<'a>, acc: &mut RowFields<'a>) -> bool
    ensures { GivesFieldsOrFalse result acc.new
        (fill_absolute (row_of row.now) (value_of v.now) (row_fields_of acc.old)) }
{
    let shape = shape_index(v.shape);
    if shape == NUMBER {
        fill_address(row.form, v.minus, v.size, acc);
        true
    } else if shape == HUGE {
        note_broken_rule(WIDE_NUMBER, acc);
        true
    } else if shape == WORD || shape == SUM {
        if form_index(row.form) == ABS {
            note_misplaced_symbol(v, acc);
        } else {
            note_symbol(ABS24, v, acc);
        }
        true
    } else if shape == HIGH || shape == LOW {
        note_misplaced_symbol(v, acc);
        true
    } else {
        false
    }
}

/// Fills a field in `acc` with the register of this name: an address register if `bank`, else a
/// data register. Another name is noted as a wrong register (rule 4).
#[tactic(auto, unfolding(crate::specs::Filling::fill_named_register))]
fn fill_named_register(bank: bool, field: Field, name: &[u8], acc: &mut RowFields<'_>)
    ensures { row_fields_of acc.new
        ≡ fill_named_register bank field name.now (row_fields_of acc.old) }
{
    let reg = register_number(name);
    if reg / 16 == (if bank { 1 } else { 0 }) {
        fill_field(field, u32::from(reg % 16), acc);
    } else {
        note_broken_rule(WRONG_REGISTER, acc);
    }
}

/// Returns the number of the register of this name, by which a field is filled: 0 to 15 for d0 to
/// d15, 16 to 31 for a0 to a15, and `NO_REGISTER` or more for other names.
#[tactic(auto, unfolding(crate::specs::OperandForms::register_number, tc_lex::specs::Bytes::is_digit))]
fn register_number(name: &[u8]) -> u8
    ensures value { result ≡ register_number name.now }
{
    if name.len() == 2 && b'0' <= name[1] && name[1] <= b'9' {
        bank_first_register(name[0]) + (name[1] - b'0')
    } else if name.len() == 3 && name[1] == b'1' && b'0' <= name[2] && name[2] <= b'5' {
        bank_first_register(name[0]) + (name[2] - (b'0' - 10))
    } else if name.is_empty() {
        NO_REGISTER + NO_REGISTER
    } else {
        bank_first_register(name[0]) + NO_REGISTER
    }
}

/// Returns the number of register 0 in the bank that the first letter of an operand's register
/// gives, d or a, or `NO_REGISTER` for any other letter.
fn bank_first_register(c: u8) -> u8
    ensures { result ≡ (if c == 100 then 0 else (if c == 97 then 16 else 64)) }
{
    if c == b'd' {
        0
    } else if c == b'a' {
        16
    } else {
        NO_REGISTER
    }
}

/// Fills a field in `acc`, signed if `signed`, with the number `size`, negative if `minus`. A
/// number that doesn't fit is noted as too wide (rule 5).
#[tactic(auto, unfolding(crate::specs::Filling::fill_number))]
fn fill_number(
    form: Form,
    signed: bool,
    field: Field,
    minus: bool,
    size: u128,
    acc: &mut RowFields<'_>,
)
    ensures { row_fields_of acc.new
        ≡ fill_number form signed field minus size (row_fields_of acc.old) }
{
    let bound = field_of(field, &field_bounds(form));
    if is_within_field_bound(signed, bound, minus, size) {
        fill_field(field, operand_number_modulo(bound, minus, size as u32), acc);
    } else {
        note_broken_rule(WIDE_NUMBER, acc);
    }
}

/// Returns the relocation by which an operand `hi:` or `lo:`, a value of form `shape`, fills the
/// constant of this row. `NO_RELOC` means that the row takes none.
#[tactic(auto, unfolding(crate::specs::Filling::half_operand_relocation))]
fn half_operand_relocation(row: &Row, shape: Shape) -> u8
    ensures { result ≡ half_operand_relocation (row_of row.now) shape }
{
    if shape_index(shape) == HIGH {
        if is_row_named(row, "movh")
            || is_row_named(row, "movh.a")
            || is_row_named(row, "addih")
            || is_row_named(row, "addih.a")
        {
            HI16
        } else {
            NO_RELOC
        }
    } else if is_row_named(row, "addi") {
        LO16
    } else if form_index(row.form) == BOL {
        OFFSET16
    } else {
        NO_RELOC
    }
}

/// Whether the number `size`, negative if `minus`, fits a field of `bound` values, signed if
/// `signed`.
#[tactic(auto, unfolding(crate::specs::Filling::is_within_field_bound))]
fn is_within_field_bound(signed: bool, bound: u32, minus: bool, size: u128) -> bool
    ensures value { result ≡ is_within_field_bound signed bound minus size }
    ensures within { result ≡ true → size ≤ bound }
{
    if signed {
        if minus {
            size <= u128::from(bound / 2)
        } else {
            size < u128::from(bound / 2)
        }
    } else if minus {
        size == 0
    } else {
        size < u128::from(bound)
    }
}

/// Whether this row of the instruction table has this name.
fn is_row_named(row: &Row, name: &str) -> bool
    ensures { result ≡ is_row_named (row_of row.now) name.now }
{
    is_same_text(row.name.as_bytes(), name)
}

/// Returns the kind of relocation for a jump or call to a symbol: `REL24` or `REL15`, or `NO_RELOC`
/// for 16-bit instructions.
#[tactic(auto, unfolding(crate::specs::Displacements::target_operand_relocation))]
fn target_operand_relocation(row: &Row) -> u8
    ensures { result ≡ target_operand_relocation (row_of row.now) }
{
    if row.op1 % 2 == 1 {
        if form_index(row.form) == B {
            REL24
        } else {
            REL15
        }
    } else {
        NO_RELOC
    }
}

/// Fills the constant in `acc` with the absolute address `size`. An address that is negative
/// (`minus`), or that this format can't encode, is noted as too wide (rule 5).
#[tactic(auto, unfolding(crate::specs::Filling::fill_address))]
fn fill_address(form: Form, minus: bool, size: u128, acc: &mut RowFields<'_>)
    ensures { row_fields_of acc.new ≡ fill_address form minus size (row_fields_of acc.old) }
{
    if (minus && size != 0) || 0x1_0000_0000 <= size {
        note_broken_rule(WIDE_NUMBER, acc);
    } else if form_index(form) == ABS {
        if size / 16384 % 16384 == 0 {
            fill_field(
                Field::K,
                (size / 268435456 * 16384 + size % 16384) as u32,
                acc,
            );
        } else {
            note_broken_rule(WIDE_NUMBER, acc);
        }
    } else if size / 2097152 % 128 == 0 && size % 2 == 0 {
        fill_field(
            Field::K,
            (size / 268435456 * 1048576 + size % 2097152 / 2) as u32,
            acc,
        );
    } else {
        note_broken_rule(WIDE_NUMBER, acc);
    }
}
