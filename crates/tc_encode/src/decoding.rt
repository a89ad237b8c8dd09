// Decodes the instruction that bytes begin with.
ghost use Rattle.std.specs.Prelude.{◌≡◌, ◌↔◌, Ok, ◌<◌, ◌≤◌, ◌%◌, ◌^◌, ℕ, List, [], ◌∷◌, length, Err, All, slice_index, IfOk, IfSome, IfNone, slice_get, Some};
ghost use Rattle.tc_isa.specs.Insts.{InstData};
ghost use Rattle.tc_encode.specs.Decoding.{BeginsWith, IsInstPrefix, decoded_of, instruction_length};
ghost use Rattle.tcd_base.specs.Bytes.{number_from_bytes};
ghost use Rattle.tc_isa.specs.Rows.{row_of, table_rows};
ghost use Rattle.tc_encode.specs.WordSearch.{IsWordOf, RowLacksWord};

use crate::completions::completion;
use crate::errors::DecodeErr;
use crate::forms::{fields_of_word, word_of_fields};
use crate::word_search::instruction_of_word;
use tc_isa::{Form, Inst, Row, inst};

/// Returns the instruction that the bytes begin with, and its length in bytes. If there is none,
/// the answer is `Short` exactly if the bytes are the beginning of a listed instruction, and else
/// `NotListed`.
pub fn decode(bytes: &[u8]) -> Result<(Inst, usize), DecodeErr>
    ensures decoded { result ≡ decoded_of bytes.now }
    ensures size { IfOk result (λ p. (2 ≤ p.1) × (p.1 ≤ 4) × (p.1 ≤ length bytes.now)) }

    // Each answer by the relation of bytes and instructions: it is given exactly in its case.
    ensures ok { (i : InstData) (n : ℕ) → (result ≡ Ok (i, n)) ↔ BeginsWith bytes.now i n }
    ensures short { (result ≡ Err DecodeErr.Short)
        ↔ (IsInstPrefix bytes.now × ((i : InstData) (n : ℕ) → BeginsWith bytes.now i n → ⊥)) }
    ensures not_listed { (result ≡ Err DecodeErr.NotListed)
        ↔ ((IsInstPrefix bytes.now → ⊥) × ((i : InstData) (n : ℕ) → BeginsWith bytes.now i n → ⊥)) }
{
    decode_by_first_byte(bytes)
}

/// Returns the instruction of row number `place` whose word is `w`, or `None` if there is none.
pub(crate) fn decode_row_word(place: u8, row: &Row, w: u32) -> Option<Inst>
    requires { slice_get table_rows place ≡ Some (row_of row.now) }
    ensures some { IfSome result (IsWordOf w) }
    ensures place { IfSome result (λ i. i.row ≡ place) }
    ensures none { IfNone result (RowLacksWord place w) }
{
    let f = fields_of_word(row.form, w);
    let Some(found) = inst(place, f.c, f.s1, f.s2, f.n, f.k) else {
        return None;
    };
    if word_of_fields(row.form, row.op1, row.op2, &f) != w {
        return None;
    }
    Some(found)
}

/// Returns the length in bytes of an instruction by its first byte: 4 if that byte is odd, else 2.
pub(crate) fn instruction_length(first: u8) -> u8
    ensures { result ≡ instruction_length first }
{
    if first % 2 == 1 { 4 } else { 2 }
}

/// Decodes the instruction that the bytes begin with: of 32 bits if the first byte is odd, else of
/// 16. An empty list gives the error `Short`.
fn decode_by_first_byte(bytes: &[u8]) -> Result<(Inst, usize), DecodeErr>
    ensures { result ≡ decoded_of bytes.now }
{
    match bytes {
        [] => Err(DecodeErr::Short),
        [a, ..] => if a % 2 == 1 {
            decode_32_bit(bytes)
        } else {
            decode_16_bit(bytes)
        },
    }
}

/// Decodes bytes of which the first is odd as an instruction of 32 bits, as `decode` does.
fn decode_32_bit(bytes: &[u8]) -> Result<(Inst, usize), DecodeErr>
    requires { slice_index bytes.now 0 % 2 ≡ 1 }
    ensures { result ≡ decoded_of bytes.now }
{
    match bytes {
        [] => Err(DecodeErr::Short),
        [a] => Err(decode_error(*a, 1, u32::from(*a))),
        [a, b] => Err(decode_error(*a, 2, u32::from(*a) + u32::from(*b) * 256)),
        [a, b, c] => Err(decode_error(
            *a,
            3,
            u32::from(*a) + u32::from(*b) * 256 + u32::from(*c) * 65536,
        )),
        [a, b, c, d, ..] => decode_four_bytes(*a, *b, *c, *d),
    }
}

/// Decodes bytes of which the first is even as an instruction of 16 bits, as `decode` does.
fn decode_16_bit(bytes: &[u8]) -> Result<(Inst, usize), DecodeErr>
    requires { slice_index bytes.now 0 % 2 ≡ 0 }
    ensures { result ≡ decoded_of bytes.now }
{
    match bytes {
        [] => Err(DecodeErr::Short),
        [a] => Err(decode_error(*a, 1, u32::from(*a))),
        [a, b, ..] => decode_two_bytes(*a, *b),
    }
}

/// Returns why the `n` low bytes of `part`, too few for an instruction, don't decode: `Short` if an
/// instruction begins with them, else `NotListed`.
fn decode_error(first: u8, n: u8, part: u32) -> DecodeErr
    requires low { 1 ≤ n }
    requires high { n < instruction_length first }
    requires first { first ≡ part % 256 }
    requires part { part < 256 ^ n }
    ensures { (bytes : List ℕ) → length bytes ≡ n → All (λ b. b < 256) bytes
        → number_from_bytes bytes ≡ part
        → decoded_of bytes ≡ Err result }
{
    match completion(first, n, part) {
        Some(_) => DecodeErr::Short,
        None => DecodeErr::NotListed,
    }
}

/// Decodes four bytes, the first odd, as an instruction of 32 bits, or returns `NotListed`.
fn decode_four_bytes(a: u8, b: u8, c: u8, d: u8) -> Result<(Inst, usize), DecodeErr>
    requires { a % 2 ≡ 1 }
    ensures { (rest : List ℕ) → decoded_of (a ∷ b ∷ c ∷ d ∷ rest) ≡ result }
{
    match instruction_of_word(u32::from_le_bytes([a, b, c, d])) {
        Some(found) => Ok((found, 4)),
        None => Err(DecodeErr::NotListed),
    }
}

/// Decodes two bytes, the first even, as an instruction of 16 bits, or returns `NotListed`.
fn decode_two_bytes(a: u8, b: u8) -> Result<(Inst, usize), DecodeErr>
    requires { a % 2 ≡ 0 }
    ensures { (rest : List ℕ) → decoded_of (a ∷ b ∷ rest) ≡ result }
{
    match instruction_of_word(u32::from(a) + u32::from(b) * 256) {
        Some(found) => Ok((found, 2)),
        None => Err(DecodeErr::NotListed),
    }
}
