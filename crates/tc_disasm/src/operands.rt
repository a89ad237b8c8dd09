// Appends the text of an operand.
ghost use Rattle.std.specs.Prelude.{◌≡◌, ◌≤◌, ◌*◌, ◌++◌, OnOk, string_bytes, ◌<◌, ◌^◌};
ghost use Rattle.tc_isa.specs.Forms.{field_bounds};
ghost use Rattle.tc_isa.specs.InBounds.{AreFieldsBelow};
ghost use Rattle.tc_isa.specs.FromFields.{code_address_in_constant};
ghost use Rattle.tc_stmt.specs.declared.want.Want.TheVariants.{Memory};
ghost use Rattle.tc_stmt.specs.RowFields.{field_of};
ghost use Rattle.tc_disasm.specs.Texts.{register_text, number_text, target_text, absolute_operand_address, absolute_text, operand_text, further_operand_text, further_operands_text, operands_text};
ghost use Rattle.tc_stmt.specs.Displacements.{can_jump_back};

use crate::texts::append_listing_decimal;
use tc_isa::{Fields, Form, field_bounds};
use tc_stmt::{Field, Want, field_of, wants};
use tcd_base::NoMemory;
use tcd_text::{append_hex_word, append_str};

/// Appends an operand's text to a listing. `want` is the operand's kind, `form` the instruction's
/// format, and the fields `f` have the value.
#[tactic(auto, unfolding(crate::specs::Texts::operand_text))]
pub(crate) fn append_operand(
    text: &mut String,
    form: Form,
    f: &Fields,
    want: Want,
) -> Result<(), NoMemory>
    requires { AreFieldsBelow f.now (field_bounds form) }
    ensures { OnOk result
        (string_bytes text.new ≡ string_bytes text.old ++ operand_text form f.now want) }
{
    match want {
        Want::Reg(bank, field) => append_register(text, bank, field_of(field, f)),
        Want::A10 => append_str(text, "a10"),
        Want::Number(signed, field) => append_constant_operand(text, signed, field, form, f),
        Want::Target => append_target_operand(text, can_jump_back(form), field_bounds(form).k, f.k),
        Want::Absolute => append_absolute_operand(text, form, f),
        Want::Memory(plus, offset) => append_memory_operand(text, form, f, plus, offset),
    }
}

/// Appends an instruction's operands after a blank, separated by a comma and a blank. `wants` are
/// the kinds of operands of its row; their values are in the fields `f`.
#[tactic(auto, unfolding(crate::specs::Texts::operands_text))]
pub(crate) fn append_operands(
    text: &mut String,
    form: Form,
    f: &Fields,
    wants: &[Want],
) -> Result<(), NoMemory>
    requires { AreFieldsBelow f.now (field_bounds form) }
    ensures { OnOk result
        (string_bytes text.new ≡ string_bytes text.old ++ operands_text form f.now wants.now) }
{
    if let Some((first, others)) = wants.split_first() {
        append_str(text, " ")?;
        append_operand(text, form, f, *first)?;
        append_further_operands(text, form, f, others)?;
    }
    Ok(())
}

/// Appends a register: `d0` to `d15`, or `a0` to `a15` if it is an address register.
#[tactic(auto, unfolding(crate::specs::Texts::register_text))]
fn append_register(text: &mut String, is_address: bool, n: u32) -> Result<(), NoMemory>
    ensures { OnOk result
        (string_bytes text.new ≡ string_bytes text.old ++ register_text is_address n) }
{
    append_str(text, if is_address { "a" } else { "d" })?;
    append_listing_decimal(text, n)
}

/// Appends a constant operand in decimal: the value of `field` in `f`, as two's complement if
/// `signed`. `form` gives the field's width.
fn append_constant_operand(
    text: &mut String,
    signed: bool,
    field: Field,
    form: Form,
    f: &Fields,
) -> Result<(), NoMemory>
    requires { AreFieldsBelow f.now (field_bounds form) }
    ensures { OnOk result
        (string_bytes text.new
        ≡ string_bytes text.old
        ++ number_text signed (field_of field (field_bounds form)) (field_of field f.now)) }
{
    append_number(
        text,
        signed,
        field_of(field, &field_bounds(form)),
        field_of(field, f),
    )
}

/// Appends a jump's target: `.+` or `.-`, and the distance in bytes, twice the displacement `k`.
/// The field of `k` has `bound` values, and is two's complement if `both`.
#[tactic(auto, unfolding(crate::specs::Texts::target_text))]
fn append_target_operand(text: &mut String, both: bool, bound: u32, k: u32) -> Result<(), NoMemory>
    requires within { k ≤ bound }
    requires small { bound ≤ 2 ^ 24 }
    ensures { OnOk result
        (string_bytes text.new ≡ string_bytes text.old ++ target_text both bound k) }
{
    if both && k >= bound / 2 {
        append_str(text, ".-")?;
        append_listing_decimal(text, 2 * (bound - k))
    } else {
        append_str(text, ".+")?;
        append_listing_decimal(text, 2 * k)
    }
}

/// Returns true if a jump of this instruction format can go backwards, so that its target may have
/// a `-`. Only SBR, whose displacement is unsigned, gives false.
#[tactic(auto, unfolding(tc_stmt::specs::Displacements::can_jump_back, tc_isa::specs::Forms::form_index))]
fn can_jump_back(form: Form) -> bool
    ensures { result ≡ can_jump_back form }
{
    match form {
        Form::Sbr => false,
        Form::Rlc | Form::Rr | Form::Rc | Form::Bol | Form::Bo | Form::Brr | Form::Brc | Form::B =>
            true,
        Form::Abs | Form::Sys | Form::Sr | Form::Sc | Form::Sb | Form::Src | Form::Srr => true,
        Form::Slr | Form::Ssr => true,
    }
}

/// Appends the absolute address of an operand: `0x` and eight hex digits.
#[tactic(auto, unfolding(crate::specs::Texts::absolute_text))]
fn append_absolute_operand(text: &mut String, form: Form, f: &Fields) -> Result<(), NoMemory>
    ensures { OnOk result
        (string_bytes text.new ≡ string_bytes text.old ++ absolute_text form f.now) }
{
    append_str(text, "0x")?;
    append_hex_word(text, absolute_operand_address(form, f))
}

/// Appends a memory operand: `[aN]`, or `[aN+]` if `plus`, and a signed decimal offset if the row
/// has an `offset`.
#[tactic(auto, unfolding(crate::specs::Texts::operand_text, crate::specs::Texts::base_register_text))]
fn append_memory_operand(
    text: &mut String,
    form: Form,
    f: &Fields,
    plus: bool,
    offset: bool,
) -> Result<(), NoMemory>
    requires { AreFieldsBelow f.now (field_bounds form) }
    ensures { OnOk result
        (string_bytes text.new
        ≡ string_bytes text.old ++ operand_text form f.now (Memory plus offset)) }
{
    append_str(text, "[")?;
    append_register(text, true, u32::from(f.s2))?;
    append_str(text, if plus { "+]" } else { "]" })?;
    if offset {
        append_number(text, true, field_bounds(form).k, f.k)?;
    }
    Ok(())
}

/// Appends a field's value in decimal, as two's complement if `signed`. `bound` is the number of
/// values that the field can have.
#[tactic(auto, unfolding(crate::specs::Texts::number_text))]
fn append_number(text: &mut String, signed: bool, bound: u32, value: u32) -> Result<(), NoMemory>
    requires { value ≤ bound }
    ensures { OnOk result
        (string_bytes text.new ≡ string_bytes text.old ++ number_text signed bound value) }
{
    if signed && value >= bound / 2 {
        append_str(text, "-")?;
        append_listing_decimal(text, bound - value)
    } else {
        append_listing_decimal(text, value)
    }
}

/// Returns the address that an absolute operand's field encodes: a data address in 18 bits for
/// format ABS, else a code address in 24 bits.
#[tactic(auto, unfolding(crate::specs::Texts::absolute_operand_address, tc_isa::specs::Forms::form_index))]
fn absolute_operand_address(form: Form, f: &Fields) -> u32
    ensures { result ≡ absolute_operand_address form f.now }
{
    match form {
        Form::Abs => f.k / 16384 % 16 * 268_435_456 + f.k % 16384,
        Form::Rlc | Form::Rr | Form::Rc | Form::Bol | Form::Bo | Form::Brr | Form::Brc | Form::B =>
            code_operand_address(f),
        Form::Sys | Form::Sr | Form::Sc | Form::Sb | Form::Sbr | Form::Src | Form::Srr =>
            code_operand_address(f),
        Form::Slr | Form::Ssr => code_operand_address(f),
    }
}

/// Returns the address of code that the 24 bits of an absolute operand encode, for a row of form B.
fn code_operand_address(f: &Fields) -> u32
    ensures { result ≡ code_address_in_constant f.now }
{
    f.k / 1_048_576 % 16 * 268_435_456 + f.k % 1_048_576 * 2
}

/// Appends the texts of all operands after the first one, each after a comma and a blank. `wants`
/// are their kinds.
fn append_further_operands(
    text: &mut String,
    form: Form,
    f: &Fields,
    wants: &[Want],
) -> Result<(), NoMemory>
    requires { AreFieldsBelow f.now (field_bounds form) }
    ensures { OnOk result
        (string_bytes text.new
        ≡ string_bytes text.old ++ further_operands_text form f.now wants.now) }
{
    for want in wants {
        append_further_operand(text, form, f, *want)?;
    }
    Ok(())
}

// Appends a comma, a blank and the text of an operand after the first one to a listing. `want` is
// the kind of operand.
fn append_further_operand(
    text: &mut String,
    form: Form,
    f: &Fields,
    want: Want,
) -> Result<(), NoMemory>
    requires { AreFieldsBelow f.now (field_bounds form) }
    ensures { OnOk result
        (string_bytes text.new
        ≡ string_bytes text.old ++ further_operand_text form f.now want) }
{
    append_str(text, ", ")?;
    append_operand(text, form, f, want)
}
