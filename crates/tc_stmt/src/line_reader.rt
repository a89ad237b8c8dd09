// Reads a line: its label, its statement and its operands.
ghost use Rattle.std.specs.Prelude.{◌≡◌, ◌++◌, OnOk, IfOk, ◌≤◌, ◌<◌, ◌+◌, map, length, drop, true, [], ◌∷◌, ◌==◌};
ghost use Rattle.std.specs.Option.{option_copied};
ghost use Rattle.tc_lex.specs.Cut.{tokens_of};
ghost use Rattle.tc_stmt.specs.StatementRow.{row_of_statement};
ghost use Rattle.tc_lex.specs.Pieces.{piece_of, token_text};
ghost use Rattle.tc_lex.specs.Operands.{operand_of, operands_of_tokens as operands_in};
ghost use Rattle.tc_stmt.specs.Items.{item_of, label, section, global, code, reference_if_any};
ghost use Rattle.tc_stmt.specs.DataValues.{IsDataWidth, rule_broken_by_space, space_item};
ghost use Rattle.tc_stmt.specs.Lines.{line_data, named_line, is_unbracketed_name, only_operand_name, space_line, values_line, instruction_size, statement_line, line_from, line_with_label, tokens_line, has_label, label_of, label_of_text, line_of_text, code_line};
ghost use Rattle.tc_stmt.specs.SourceRules.{bad_token};
ghost use Rattle.tc_stmt.specs.SourceViews.{GivesRuleAndAddsItems};

use crate::data_values::{add_values, rule_broken_by_space, space_item};
use crate::item::Item;
use crate::row_index::row_of_name;
use crate::shape_numbers::WORD;
use crate::source::Line;
use crate::source_rules::{BAD_TOKEN, NO_RULE, WRONG_OPERANDS};
use crate::{RowFields, row_of_statement, shape_index};
use std::alloc::AllocError;
use tc_lex::{
    Operand, Piece, Scratch, TokenKind, is_same_text, is_token_kind, operands_into, token_text,
    tokenize_line,
};

/// Parses a line of a source and adds its items: a label, a directive, an instruction or data.
/// Returns their number and the lowest-numbered rule that the line breaks by itself.
#[inline(always)]
pub(crate) fn read_line<'a>(
    line: &'a [u8],
    pieces: &mut Scratch<Piece<'a>, 64>,
    operands: &mut Scratch<Operand<'a>, 65>,
    items: &mut Vec<Item<'a>>,
) -> Result<Line, AllocError>
    ensures rule { IfOk result (λ l. l.rule ≡ (line_of_text line.now).rule) }
    ensures count { IfOk result (λ l. l.count ≡ length (line_of_text line.now).items) }
    ensures items { OnOk result (map item_of items.new.items ≡ map item_of items.old.items
        ++ (line_of_text line.now).items) }
{
    if line.is_empty() {
        return Ok(Line {
            rule: NO_RULE,
            count: 0,
        });
    }
    let before = items.len();
    let rule = read_line_items(line, pieces, operands, items)?;
    let count = (items.len() - before) as u8;
    Ok(Line { rule, count })
}

// Parses a line of a source and adds its items: a label, a directive, an instruction or data.
// Returns the lowest-numbered rule that the line breaks by itself, or `NO_RULE`.
#[inline(never)]
#[tactic(auto, using(crate::proofs::PieceLines::line_pieces, crate::proofs::PieceLines::line_unread))]
fn read_line_items<'a>(
    line: &'a [u8],
    pieces: &mut Scratch<Piece<'a>, 64>,
    operands: &mut Scratch<Operand<'a>, 65>,
    items: &mut Vec<Item<'a>>,
) -> Result<u8, AllocError>
    ensures { GivesRuleAndAddsItems (line_of_text line.now) result items.old.items items.new.items }
{
    match tokenize_line(line, pieces) {
        Ok(()) => read_line_of_tokens(pieces.as_slice(), operands, items),
        Err(at) => read_uncut_line(&line[..at], pieces, items),
    }
}

/// Reads a line from its tokens `ps`. Adds the items of its label and its statement, and returns
/// the rule that the line breaks, or `NO_RULE`. `operands` is scratch space.
#[tactic(auto, unfolding(crate::specs::Lines::tokens_line))]
fn read_line_of_tokens<'a>(
    ps: &[Piece<'a>],
    operands: &mut Scratch<Operand<'a>, 65>,
    items: &mut Vec<Item<'a>>,
) -> Result<u8, AllocError>
    requires { length ps.now ≤ 64 }
    ensures { GivesRuleAndAddsItems
        (tokens_line (map piece_of ps.now)) result items.old.items items.new.items }
{
    if has_label(ps) {
        read_labelled_line(ps, operands, items)
    } else {
        read_line_from(ps, 0, operands, items)
    }
}

// Adds the label, if any, of a line that can't be cut into tokens; `front` is the text before the
// fault. Returns rule 1, on bad tokens.
#[tactic(auto, using(crate::proofs::PieceLines::label_pieces, crate::proofs::PieceLines::label_unread))]
fn read_uncut_line<'a>(
    front: &'a [u8],
    pieces: &mut Scratch<Piece<'a>, 64>,
    items: &mut Vec<Item<'a>>,
) -> Result<u8, AllocError>
    ensures { GivesRuleAndAddsItems (line_data bad_token
        (label_of_text front.now (tokens_of front.now))) result items.old.items items.new.items }
{
    match tokenize_line(front, pieces) {
        Ok(()) => add_label_before_fault(pieces.as_slice(), items),
        Err(_) => rule_without_items(BAD_TOKEN, items),
    }
}

// Whether these tokens of a line begin with a label: a word and a colon.
fn has_label(ps: &[Piece]) -> bool
    ensures value { result ≡ has_label (map piece_of ps.now) }
    ensures long { result ≡ true → 2 ≤ length ps.now }
{
    is_token_kind(ps, 0, TokenKind::Word) && is_token_kind(ps, 1, TokenKind::Colon)
}

// Reads a line that begins with a label: adds the label and the items of the rest. Returns the rule
// that the rest breaks, or `NO_RULE`. `operands` is scratch space.
fn read_labelled_line<'a>(
    ps: &[Piece<'a>],
    operands: &mut Scratch<Operand<'a>, 65>,
    items: &mut Vec<Item<'a>>,
) -> Result<u8, AllocError>
    requires few { length ps.now ≤ 64 }
    requires label { 2 ≤ length ps.now }
    ensures { GivesRuleAndAddsItems (line_with_label (token_text (map piece_of ps.now) 0)
        (line_from (map piece_of ps.now) 2))
        result items.old.items items.new.items }
{
    add_label(token_text(ps, 0), items)?;
    read_line_from(ps, 2, operands, items)
}

/// Reads a line from token `at` on: nothing, or a statement. Returns the rule broken, or `NO_RULE`.
#[tactic(auto, unfolding(crate::specs::Lines::line_from))]
fn read_line_from<'a>(
    ps: &[Piece<'a>],
    at: usize,
    operands: &mut Scratch<Operand<'a>, 65>,
    items: &mut Vec<Item<'a>>,
) -> Result<u8, AllocError>
    requires few { length ps.now ≤ 64 }
    requires place { at ≤ length ps.now }
    ensures { GivesRuleAndAddsItems
        (line_from (map piece_of ps.now) at) result items.old.items items.new.items }
{
    if ps.len() == at {
        rule_without_items(NO_RULE, items)
    } else if is_token_kind(ps, at, TokenKind::Word) {
        read_statement_at(ps, at, operands, items)
    } else {
        rule_without_items(BAD_TOKEN, items)
    }
}

/// Adds the item of a line's label to the items of its source.
fn add_label<'a>(name: &'a [u8], items: &mut Vec<Item<'a>>) -> Result<(), AllocError>
    ensures { OnOk result
        (map item_of items.new.items ≡ map item_of items.old.items ++ label name.entry.now ∷ []) }
{
    items.push(Item::Label(name))?;
    Ok(())
}

// Returns `rule` for a line that adds no items. `items` stay as they are.
fn rule_without_items(rule: u8, items: &mut Vec<Item<'_>>) -> Result<u8, AllocError>
    ensures { GivesRuleAndAddsItems (line_data rule []) result items.old.items items.new.items }
{
    Ok(rule)
}

// Adds the items of the statement named by token `at`; returns the rule broken, or `NO_RULE`.
fn read_statement_at<'a>(
    ps: &[Piece<'a>],
    at: usize,
    operands: &mut Scratch<Operand<'a>, 65>,
    items: &mut Vec<Item<'a>>,
) -> Result<u8, AllocError>
    requires few { length ps.now ≤ 64 }
    requires place { at < length ps.now }
    ensures { GivesRuleAndAddsItems (statement_line (token_text (map piece_of ps.now) at)
        (operands_in (drop (at + 1) (map piece_of ps.now))))
        result items.old.items items.new.items }
{
    read_operands_after_name(ps, at, operands);
    read_statement_line(token_text(ps, at), operands.as_slice(), items)
}

/// Reads into `out` the operands of a line, after the statement's name at token `at`.
fn read_operands_after_name<'a>(ps: &[Piece<'a>], at: usize, out: &mut Scratch<Operand<'a>, 65>)
    requires few { length ps.now ≤ 64 }
    requires place { at < length ps.now }
    ensures { map operand_of out.new.items ≡ operands_in (drop (at + 1) (map piece_of ps.now)) }
{
    operands_into(tokens_after_name(ps, at), out)
}

/// Adds the items of a directive or instruction; returns the rule broken, or `NO_RULE`.
#[tactic(auto, unfolding(crate::specs::Lines::statement_line))]
fn read_statement_line<'a>(
    name: &[u8],
    os: &[Operand<'a>],
    items: &mut Vec<Item<'a>>,
) -> Result<u8, AllocError>
    ensures { GivesRuleAndAddsItems (statement_line name.now
        (map operand_of os.now)) result items.old.items items.new.items }
{
    if is_same_text(name, ".section") {
        read_section_line(os, items)
    } else if is_same_text(name, ".global") {
        read_global_line(os, items)
    } else if is_same_text(name, ".byte") {
        read_values_line(1, os, items)
    } else if is_same_text(name, ".half") {
        read_values_line(2, os, items)
    } else if is_same_text(name, ".word") {
        read_values_line(4, os, items)
    } else if is_same_text(name, ".space") {
        read_space_line(os, items)
    } else {
        read_code_line(name, os, items)
    }
}

/// The tokens of a line after token `at`, which is the statement's name.
fn tokens_after_name<'p, 'a>(ps: &'p [Piece<'a>], at: usize) -> &'p [Piece<'a>]
    requires { at < length ps.now }
    ensures { result.now ≡ drop (at + 1) ps.now }
{
    &ps[at + 1..]
}

/// Reads `.section NAME`: adds its item, and returns the rule that the line breaks, or `NO_RULE`.
#[tactic(auto, unfolding(crate::specs::Lines::named_line))]
fn read_section_line<'a>(os: &[Operand<'a>], items: &mut Vec<Item<'a>>) -> Result<u8, AllocError>
    ensures { GivesRuleAndAddsItems (named_line section
        (map operand_of os.now)) result items.old.items items.new.items }
{
    match only_operand_name(os) {
        None => rule_without_items(WRONG_OPERANDS, items),
        Some(name) => add_item(NO_RULE, Item::Section(name), items),
    }
}

/// Reads `.global NAME`: adds its item, and returns the rule that the line breaks, or `NO_RULE`.
#[tactic(auto, unfolding(crate::specs::Lines::named_line))]
fn read_global_line<'a>(os: &[Operand<'a>], items: &mut Vec<Item<'a>>) -> Result<u8, AllocError>
    ensures { GivesRuleAndAddsItems (named_line global
        (map operand_of os.now)) result items.old.items items.new.items }
{
    match only_operand_name(os) {
        None => rule_without_items(WRONG_OPERANDS, items),
        Some(name) => add_item(NO_RULE, Item::Global(name), items),
    }
}

/// Reads a line that is `.byte`, `.half` or `.word`, with values `os` of `width` bytes: adds an
/// item for each value. Returns the lowest-numbered rule broken, or `NO_RULE`.
#[tactic(auto, unfolding(crate::specs::Lines::values_line))]
fn read_values_line<'a>(
    width: u8,
    os: &[Operand<'a>],
    items: &mut Vec<Item<'a>>,
) -> Result<u8, AllocError>
    requires { IsDataWidth width }
    ensures { GivesRuleAndAddsItems (values_line width
        (map operand_of os.now)) result items.old.items items.new.items }
{
    let rule = add_values(width, os, items)?;
    Ok(rule)
}

/// Reads a line that is `.space`, with the operands `os`. Adds the item of its zeros, and returns
/// the rule that the line breaks, or `NO_RULE`.
fn read_space_line<'a>(os: &[Operand<'a>], items: &mut Vec<Item<'a>>) -> Result<u8, AllocError>
    ensures { GivesRuleAndAddsItems
        (space_line (map operand_of os.now)) result items.old.items items.new.items }
{
    if os.len() != 1 {
        return add_item(WRONG_OPERANDS, Item::Zeros(0), items);
    }
    read_space_operand(&os[0], items)
}

/// Reads the line of an instruction with this name and the operands `os`. Adds its item, or zeros
/// of its size if a rule is broken, and returns that rule, or `NO_RULE`.
fn read_code_line<'a>(
    name: &[u8],
    os: &[Operand<'a>],
    items: &mut Vec<Item<'a>>,
) -> Result<u8, AllocError>
    ensures { GivesRuleAndAddsItems (code_line name.now (row_of_statement name.now
        (map operand_of os.now))) result items.old.items items.new.items }
{
    match row_of_statement(name, os) {
        Ok((row, found)) => add_item(NO_RULE, code_item(row, &found), items),
        Err(rule) => add_item(rule, Item::Zeros(instruction_size(name)), items),
    }
}

/// Returns the name in a line `.section NAME` or `.global NAME`, if it is the line's only operand.
fn only_operand_name<'a>(os: &[Operand<'a>]) -> Option<&'a [u8]>
    ensures { option_copied result ≡ only_operand_name (map operand_of os.now) }
{
    if os.len() != 1 {
        return None;
    }
    let operand = &os[0];
    if is_unbracketed_name(operand) {
        Some(operand.value.name)
    } else {
        None
    }
}

// Adds one item of a line to those of its source, and returns `rule`: the rule that the line
// breaks, or `NO_RULE`.
fn add_item<'a>(rule: u8, item: Item<'a>, items: &mut Vec<Item<'a>>) -> Result<u8, AllocError>
    ensures { GivesRuleAndAddsItems (line_data rule
        (item_of item.entry ∷ [])) result items.old.items items.new.items }
{
    items.push(item)?;
    Ok(rule)
}

/// Whether the operand is a name without brackets, as `.section` and `.global` want.
#[tactic(auto, unfolding(crate::specs::Lines::is_unbracketed_name))]
fn is_unbracketed_name(o: &Operand<'_>) -> bool
    ensures { result ≡ is_unbracketed_name (operand_of o.now) }
{
    !o.is_memory && shape_index(o.value.shape) == WORD
}

/// Reads a line that is `.space N`, by its one operand. Adds the item of its zeros, and returns the
/// rule that the line breaks, or `NO_RULE`.
fn read_space_operand<'a>(o: &Operand<'a>, items: &mut Vec<Item<'a>>) -> Result<u8, AllocError>
    ensures { GivesRuleAndAddsItems (line_data (rule_broken_by_space (operand_of o.now))
        (space_item (operand_of o.now) ∷ []))
        result items.old.items items.new.items }
{
    add_item(rule_broken_by_space(o), space_item(o), items)
}

/// Returns the item of an instruction of this row of the instruction table, with the fields and the
/// symbol, if any, that are `found`.
fn code_item<'a>(row: u8, found: &RowFields<'a>) -> Item<'a>
    ensures { item_of result ≡ code row found.now.fields (reference_if_any found.now.reference) }
{
    match &found.reference {
        None => Item::Code(row, found.fields),
        Some(r) => Item::Linked(row, r.kind, r.minus, found.fields, r.size, r.name),
    }
}

/// The number of zeros for a line whose instruction breaks a rule: the size in bytes of the
/// instructions with this name, and 0 if there are none.
#[tactic(auto, unfolding(crate::specs::Lines::instruction_size))]
fn instruction_size(name: &[u8]) -> u32
    ensures { result ≡ instruction_size name.now }
{
    match row_of_name(name) {
        None => 0,
        Some(row) => { if row.op1 % 2 == 1 { 4 } else { 2 } }
    }
}

// Adds the label that begins these tokens, if any; returns rule 1: their line has a bad token.
#[tactic(auto, unfolding(crate::specs::Lines::label_of))]
fn add_label_before_fault<'a>(ps: &[Piece<'a>], items: &mut Vec<Item<'a>>) -> Result<u8, AllocError>
    ensures { GivesRuleAndAddsItems (line_data bad_token
        (label_of (map piece_of ps.now))) result items.old.items items.new.items }
{
    let name = token_text(ps, 0);
    if has_label(ps) {
        add_label_of_bad_line(name, items)
    } else {
        rule_without_items(BAD_TOKEN, items)
    }
}

// Adds the label of a line with a bad token, and returns rule 1, which such a line breaks.
fn add_label_of_bad_line<'a>(name: &'a [u8], items: &mut Vec<Item<'a>>) -> Result<u8, AllocError>
    ensures { GivesRuleAndAddsItems (line_data bad_token
        (label name.entry.now ∷ [])) result items.old.items items.new.items }
{
    add_item(BAD_TOKEN, Item::Label(name), items)
}
