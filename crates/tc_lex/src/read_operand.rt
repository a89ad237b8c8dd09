// Reads an operand from its tokens.
ghost use Rattle.std.specs.Prelude.{◌≡◌, ◌≢◌, ◌<◌, ◌≤◌, ◌+◌, ◌++◌, ◌∷◌, [], map, length, true};
ghost use Rattle.tc_lex.specs.declared.kinds.TokenKind.TheVariants.{Word, Number, Colon, Open};
ghost use Rattle.tc_lex.specs.Pieces.{piece_of, is_token_kind};
ghost use Rattle.tc_lex.specs.Operands.{value_of, operand_of, operand_number_at, name_or_sum_at, symbol_value_at, operand_value_at, operand_of_tokens, value_with_shape, plain_operand, bracketed_operand, number_operand_value, sum_operand_value, operands_of_tokens};

use crate::TokenKind;
use crate::numbers::token_number;
use crate::operand::{Operand, Shape, Value};
use crate::pieces::{Piece, is_token_kind, token_text};
use crate::same_bytes::is_same_text;
use crate::scratch::Scratch;
use crate::split_operands::operands_into;

/// Reads the operand that the tokens `ps` spell, and adds the operand to `out`. Malformed tokens
/// add one of the form `Bad`.
pub(crate) fn read_operand_into<'a>(ps: &[Piece<'a>], out: &mut Scratch<Operand<'a>, 65>)
    requires { length out.old.items < 65 }
    ensures operands { map operand_of out.new.items
        ≡ map operand_of out.old.items ++ operand_of_tokens (map piece_of ps.now) ∷ [] }
    ensures one_more { length out.new.items ≡ length out.old.items + 1 }
{
    if ps.len() != 1 {
        read_longer_operand_into(ps, out);
    } else if is_token_kind(ps, 0, TokenKind::Word) {
        push_operand(lone_word_operand(ps), out);
    } else if is_token_kind(ps, 0, TokenKind::Number) {
        push_operand(lone_number_operand(ps), out);
    } else {
        read_longer_operand_into(ps, out);
    }
}

/// Adds one operand that was just read from its tokens to the list `out`.
pub(crate) fn push_operand<'a>(operand: Operand<'a>, out: &mut Scratch<Operand<'a>, 65>)
    requires { length out.old.items < 65 }
    ensures operands { map operand_of out.new.items
        ≡ map operand_of out.old.items ++ operand_of operand.entry ∷ [] }
    ensures one_more { length out.new.items ≡ length out.old.items + 1 }
{
    out.push(operand);
}

/// Reads one operand from tokens that aren't a single word or number, and adds the operand to
/// `out`.
#[inline(never)]
#[tactic(auto, unfolding(crate::specs::Operands::operand_of_tokens))]
fn read_longer_operand_into<'a>(ps: &[Piece<'a>], out: &mut Scratch<Operand<'a>, 65>)
    requires { length out.old.items < 65 }
    ensures operands { map operand_of out.new.items
        ≡ map operand_of out.old.items ++ operand_of_tokens (map piece_of ps.now) ∷ [] }
    ensures one_more { length out.new.items ≡ length out.old.items + 1 }
{
    if is_token_kind(ps, 0, TokenKind::Open) {
        push_operand(memory_operand(ps), out);
    } else {
        push_operand(plain_operand(operand_value_at(ps, 0)), out);
    }
}

// Returns the operand that the tokens `ps` spell if they are one word.
fn lone_word_operand<'a>(ps: &[Piece<'a>]) -> Operand<'a>
    requires one { length ps.now ≡ 1 }
    requires word { is_token_kind (map piece_of ps.now) 0 Word ≡ true }
    ensures { operand_of result ≡ operand_of_tokens (map piece_of ps.now) }
{
    plain_operand(value_with_shape(Shape::Word, token_text(ps, 0), false, 0))
}

// Returns the operand that the tokens `ps` spell if they are one number.
fn lone_number_operand<'a>(ps: &[Piece<'a>]) -> Operand<'a>
    requires one { length ps.now ≡ 1 }
    requires number { is_token_kind (map piece_of ps.now) 0 Number ≡ true }
    ensures { operand_of result ≡ operand_of_tokens (map piece_of ps.now) }
{
    plain_operand(number_operand_value(false, token_number(token_text(ps, 0))))
}

// Reads an operand that begins with `[`. If malformed, the operand's value has the form `Bad`.
#[inline(never)]
#[tactic(auto, unfolding(crate::specs::Operands::operand_of_tokens))]
fn memory_operand<'a>(ps: &[Piece<'a>]) -> Operand<'a>
    requires { is_token_kind (map piece_of ps.now) 0 Open ≡ true }
    ensures { operand_of result ≡ operand_of_tokens (map piece_of ps.now) }
{
    if is_token_kind(ps, 1, TokenKind::Word) {
        if is_token_kind(ps, 2, TokenKind::Close) {
            bracketed_operand(false, token_text(ps, 1), operand_value_at(ps, 3))
        } else if is_token_kind(ps, 2, TokenKind::Plus) && is_token_kind(ps, 3, TokenKind::Close) {
            bracketed_operand(true, token_text(ps, 1), operand_value_at(ps, 4))
        } else {
            plain_operand(value_with_shape(Shape::Bad, &[], false, 0))
        }
    } else {
        plain_operand(value_with_shape(Shape::Bad, &[], false, 0))
    }
}

/// Returns the operand that is read from a value alone, without brackets.
fn plain_operand(value: Value<'_>) -> Operand<'_>
    ensures { operand_of result ≡ plain_operand (value_of value.entry) }
{
    Operand {
        is_memory: false,
        plus: false,
        base: &[],
        value,
    }
}

/// Reads an operand's value from all tokens from `at` on; without tokens its form is `Absent`.
#[tactic(auto, unfolding(crate::specs::Operands::operand_value_at), using(crate::proofs::NumberTokens::word_no_number))]
fn operand_value_at<'a>(ps: &[Piece<'a>], at: usize) -> Value<'a>
    requires { at ≤ length ps.now }
    ensures { value_of result ≡ operand_value_at (map piece_of ps.now) at }
{
    if ps.len() == at {
        value_with_shape(Shape::Absent, &[], false, 0)
    } else if is_token_kind(ps, at, TokenKind::Word) {
        symbol_value_at(ps, at)
    } else {
        match operand_number_at(ps, at) {
            Some((minus, n)) => number_operand_value(minus, n),
            None => symbol_value_at(ps, at),
        }
    }
}

/// The operand `[BASE]`, or `[BASE+]` if `plus`, followed by a value.
fn bracketed_operand<'a>(plus: bool, base: &'a [u8], value: Value<'a>) -> Operand<'a>
    ensures { operand_of result ≡ bracketed_operand plus base.now (value_of value.entry) }
{
    Operand {
        is_memory: true,
        plus,
        base,
        value,
    }
}

/// The value of an operand with this form, name and number `size`, negative if `minus`.
fn value_with_shape(shape: Shape, name: &[u8], minus: bool, size: u128) -> Value<'_>
    ensures { value_of result ≡ value_with_shape shape name.now minus size }
{
    Value {
        shape,
        name,
        minus,
        size,
        wide: false,
    }
}

/// Reads the value that begins at token `at` and is a symbol, or the upper or lower half of one.
#[tactic(auto, unfolding(crate::specs::Operands::symbol_value_at))]
fn symbol_value_at<'a>(ps: &[Piece<'a>], at: usize) -> Value<'a>
    requires { at ≤ length ps.now }
    ensures { value_of result ≡ symbol_value_at (map piece_of ps.now) at }
{
    if is_token_kind(ps, at + 1, TokenKind::Colon) {
        symbol_half_at(ps, at)
    } else {
        name_or_sum_at(ps, at, Shape::Word, Shape::Sum)
    }
}

/// Reads a number, perhaps after `-`, that takes all tokens from `at` on: whether negative, and the
/// number, `None` if 2^128 or more. Other tokens give `None`.
#[tactic(auto, unfolding(crate::specs::Operands::operand_number_at))]
fn operand_number_at(ps: &[Piece], at: usize) -> Option<(bool, Option<u128>)>
    requires { at ≤ length ps.now }
    ensures { result ≡ operand_number_at (map piece_of ps.now) at }
{
    if is_token_kind(ps, at, TokenKind::Number) && ps.len() - at == 1 {
        Some((false, token_number(token_text(ps, at))))
    } else if is_token_kind(ps, at, TokenKind::Minus)
        && ps.len() - at == 2
        && is_token_kind(ps, at + 1, TokenKind::Number)
    {
        Some((true, token_number(token_text(ps, at + 1))))
    } else {
        None
    }
}

/// Returns the value of the number `n` alone, negative if `minus`; `n` is `None` if 2^128 or more.
fn number_operand_value<'a>(minus: bool, n: Option<u128>) -> Value<'a>
    ensures { value_of result ≡ number_operand_value minus n }
{
    match n {
        Some(size) => value_with_shape(Shape::Number, &[], minus, size),
        None => value_with_shape(Shape::Huge, &[], minus, 0),
    }
}

// Reads the upper or lower half of a symbol, `hi:NAME` or `lo:NAME`, at token `at`, as a value.
#[inline(never)]
#[tactic(auto, unfolding(crate::specs::Operands::symbol_value_at))]
fn symbol_half_at<'a>(ps: &[Piece<'a>], at: usize) -> Value<'a>
    requires place { at + 1 < length ps.now }
    requires colon { is_token_kind (map piece_of ps.now) (at + 1) Colon ≡ true }
    ensures { value_of result ≡ symbol_value_at (map piece_of ps.now) at }
{
    let name = token_text(ps, at);
    if is_same_text(name, "hi") {
        name_or_sum_at(ps, at + 2, Shape::High, Shape::High)
    } else if is_same_text(name, "lo") {
        name_or_sum_at(ps, at + 2, Shape::Low, Shape::Low)
    } else {
        value_with_shape(Shape::Bad, &[], false, 0)
    }
}

/// Reads a name from token `at` on, as a value of form `plain`, or a name plus or minus a number,
/// of form `summed`. Other tokens give the form `Bad`.
#[tactic(auto, unfolding(crate::specs::Operands::name_or_sum_at))]
fn name_or_sum_at<'a>(ps: &[Piece<'a>], at: usize, plain: Shape, summed: Shape) -> Value<'a>
    requires { at ≤ length ps.now }
    ensures { value_of result ≡ name_or_sum_at (map piece_of ps.now) at plain summed }
{
    if is_token_kind(ps, at, TokenKind::Word) {
        if ps.len() - at == 1 {
            value_with_shape(plain, token_text(ps, at), false, 0)
        } else {
            name_plus_number_at(ps, at, plain, summed)
        }
    } else {
        value_with_shape(Shape::Bad, &[], false, 0)
    }
}

// Reads a name plus or minus a number from token `at` on, as a value of form `summed` or `Bad`.
#[inline(never)]
#[tactic(auto, unfolding(crate::specs::Operands::name_or_sum_at))]
fn name_plus_number_at<'a>(ps: &[Piece<'a>], at: usize, plain: Shape, summed: Shape) -> Value<'a>
    requires place { at ≤ length ps.now }
    requires word { is_token_kind (map piece_of ps.now) at Word ≡ true }
    requires more { length ps.now ≢ at + 1 }
    ensures { value_of result ≡ name_or_sum_at (map piece_of ps.now) at plain summed }
{
    if is_token_kind(ps, at + 1, TokenKind::Plus) {
        match operand_number_at(ps, at + 2) {
            Some((minus, n)) => sum_operand_value(summed, token_text(ps, at), minus, n),
            None => value_with_shape(Shape::Bad, &[], false, 0),
        }
    } else if is_token_kind(ps, at + 1, TokenKind::Minus) {
        match operand_number_at(ps, at + 2) {
            Some((minus, n)) => sum_operand_value(summed, token_text(ps, at), !minus, n),
            None => value_with_shape(Shape::Bad, &[], false, 0),
        }
    } else {
        value_with_shape(Shape::Bad, &[], false, 0)
    }
}

// Returns the value NAME plus `n`, or minus `n` if `minus`; `n` is `None` if 2^128 or more.
fn sum_operand_value(shape: Shape, name: &[u8], minus: bool, n: Option<u128>) -> Value<'_>
    ensures { value_of result ≡ sum_operand_value shape name.now minus n }
{
    match n {
        Some(size) => value_with_shape(shape, name, minus, size),
        None => Value {
            wide: true,
            ..value_with_shape(shape, name, minus, 0)
        },
    }
}
