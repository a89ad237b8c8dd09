// The values of `.byte`, `.half`, `.word` and `.space`.
ghost use Rattle.std.specs.Prelude.{◌≡◌, ◌≤◌, ◌<◌, ◌+◌, ◌^◌, ◌*◌, true, if◌then◌else◌, map, length, ◌==◌, ◌++◌, OnOk, IfOk, min};
ghost use Rattle.tcd_base.specs.Bytes.{four_bytes};
ghost use Rattle.tc_lex.specs.Operands.{operand_of};
ghost use Rattle.tc_stmt.specs.Items.{item_of};
ghost use Rattle.tc_stmt.specs.OperandForms.{shape_index, operand_number_modulo};
ghost use Rattle.tc_stmt.specs.DataValues.{IsDataWidth, is_value_within_width, rule_broken_by_value, value_item, rule_broken_by_space, space_item, rule_broken_by_values};
ghost use Rattle.tc_stmt.specs.SourceRules.{no_rule, wrong_operands};

use crate::item::Item;
use crate::shape_numbers::{HIGH, HUGE, LOW, NUMBER, SUM, WORD};
use crate::source_rules::{MISPLACED_SYMBOL, NO_RULE, PAST_LIMITS, WIDE_NUMBER, WRONG_OPERANDS};
use crate::{rule_broken_by_symbol, shape_index};
use std::alloc::AllocError;
use tc_lex::Operand;

/// Returns the lowest-numbered rule that the operand `o`, a value of `.byte`, `.half` or `.word`,
/// breaks, or `NO_RULE`. `width` is its number of bytes.
#[tactic(auto, unfolding(crate::specs::DataValues::rule_broken_by_value))]
pub(crate) fn rule_broken_by_value(width: u8, o: &Operand<'_>) -> u8
    requires { IsDataWidth width }
    ensures value { result ≡ rule_broken_by_value width (operand_of o.now) }
    ensures small { result ≡ no_rule → o.now.value.size < 2 ^ 32 }
{
    let shape = shape_index(o.value.shape);
    if o.is_memory {
        WRONG_OPERANDS
    } else if shape == NUMBER {
        if is_value_within_width(width, o.value.minus, o.value.size) {
            NO_RULE
        } else {
            WIDE_NUMBER
        }
    } else if shape == HUGE {
        WIDE_NUMBER
    } else if shape == WORD || shape == SUM {
        let rule = rule_broken_by_symbol(&o.value);
        if width == 4 {
            rule
        } else {
            rule.min(MISPLACED_SYMBOL)
        }
    } else if shape == HIGH || shape == LOW {
        rule_broken_by_symbol(&o.value).min(MISPLACED_SYMBOL)
    } else {
        WRONG_OPERANDS
    }
}

/// The item that the operand `o`, a value of `.byte`, `.half` or `.word`, adds to its source. Its
/// `width` bytes are zeros if the value breaks `rule`.
#[tactic(auto, unfolding(crate::specs::DataValues::value_item))]
pub(crate) fn value_item<'a>(rule: u8, width: u8, o: &Operand<'a>) -> Item<'a>
    requires rule { rule ≡ rule_broken_by_value width (operand_of o.now) }
    requires small { rule ≡ no_rule → o.now.value.size < 2 ^ 32 }
    ensures { item_of result ≡ value_item width (operand_of o.now) }
{
    if rule != NO_RULE {
        return Item::Zeros(u32::from(width));
    }
    let size = o.value.size as u32;
    if shape_index(o.value.shape) == NUMBER {
        return Item::Data(width, data_word_bytes(o.value.minus, size));
    }
    Item::Word(width, o.value.minus, size, o.value.name)
}

/// Checks N in `.space N`: returns the rule broken if N is negative, too large or no number, else
/// `NO_RULE`.
#[tactic(auto, unfolding(crate::specs::DataValues::rule_broken_by_space))]
pub(crate) fn rule_broken_by_space(o: &Operand<'_>) -> u8
    ensures value { result ≡ rule_broken_by_space (operand_of o.now) }
    ensures small { result ≡ no_rule → o.now.value.size ≤ 2 ^ 24 }
{
    let shape = shape_index(o.value.shape);
    if o.is_memory {
        WRONG_OPERANDS
    } else if shape == NUMBER {
        if o.value.minus && o.value.size != 0 {
            WIDE_NUMBER
        } else if o.value.size <= 0x100_0000 {
            NO_RULE
        } else {
            PAST_LIMITS
        }
    } else if shape == HUGE {
        WIDE_NUMBER
    } else if shape == WORD || shape == SUM || shape == HIGH || shape == LOW {
        rule_broken_by_symbol(&o.value).min(MISPLACED_SYMBOL)
    } else {
        WRONG_OPERANDS
    }
}

/// The item that `.space` with this operand adds: its zeros, or none if the operand breaks a rule.
#[tactic(auto, unfolding(crate::specs::DataValues::space_item))]
pub(crate) fn space_item<'a>(o: &Operand<'a>) -> Item<'a>
    ensures { item_of result ≡ space_item (operand_of o.now) }
{
    if rule_broken_by_space(o) == NO_RULE {
        Item::Zeros(o.value.size as u32)
    } else {
        Item::Zeros(0)
    }
}

/// Returns rule 3, wrong operands, if `.byte`, `.half` or `.word` has no values, else `NO_RULE`.
pub(crate) fn rule_broken_by_missing_values(os: &[Operand<'_>]) -> u8
    ensures { result ≡ (if length (map operand_of os.now) == 0 then wrong_operands else no_rule) }
{
    if os.is_empty() {
        WRONG_OPERANDS
    } else {
        NO_RULE
    }
}

/// Adds an item of `width` bytes for each of the values `os` of `.byte`, `.half` or `.word`.
/// Returns the lowest-numbered rule that they break, or `NO_RULE`.
#[tactic(auto, unfolding(crate::specs::DataValues::rule_broken_by_values))]
pub(crate) fn add_values<'a>(
    width: u8,
    os: &[Operand<'a>],
    items: &mut Vec<Item<'a>>,
) -> Result<u8, AllocError>
    requires { IsDataWidth width }
    ensures rule { IfOk result
        (λ rule. rule ≡ rule_broken_by_values width (map operand_of os.now)) }
    ensures items { OnOk result (map item_of items.new.items
        ≡ map item_of items.old.items ++ map (value_item width) (map operand_of os.now)) }
{
    let mut rule = rule_broken_by_missing_values(os);
    for o in os {
        let broken = rule_broken_by_value(width, o);
        items.push(value_item(broken, width, o))?;
        rule = rule.min(broken);
    }
    Ok(rule)
}

// Whether the number `size`, negative if `minus`, fits `width` bytes, signed or unsigned.
fn is_value_within_width(width: u8, minus: bool, size: u128) -> bool
    requires { IsDataWidth width }
    ensures value { result ≡ is_value_within_width (8 * width) minus size }
    ensures small { result ≡ true → size < 2 ^ 32 }
{
    let bound: u128 = if width == 1 {
        0x100
    } else if width == 2 {
        0x1_0000
    } else {
        0x1_0000_0000
    };
    if minus {
        size <= bound / 2
    } else {
        size < bound
    }
}

// The four bytes of a data value, the lowest first: `size` modulo 2^32, or its negative if `minus`.
fn data_word_bytes(minus: bool, size: u32) -> [u8; 4]
    ensures { result ≡ four_bytes (operand_number_modulo (2 ^ 32) minus size) }
{
    let word = if minus { size.wrapping_neg() } else { size };
    word.to_le_bytes()
}
