// Arithmetic and comparisons of 32-bit words.
ghost use Rattle.std.specs.Prelude.{◌≡◌, ◌<◌};
ghost use Rattle.tc_isa.specs.Arithmetic.{alu_of, taken_of, logical_shift, arithmetic_shift, signed_rank, complement, word_of_bool};

use crate::{Cond, Op};

/// Returns the result of an operation on two words, modulo 2^32. A shift takes the low six bits of
/// `y` as a signed count. A count from 0 on shifts to the left, a negative one to the right, filled
/// with zeros (`Sh`) or the sign bit (`Sha`).
#[tactic(auto, unfolding(crate::specs::Arithmetic::alu_of))]
pub fn alu(op: Op, x: u32, y: u32) -> u32
    ensures { result ≡ alu_of op x y }
{
    match op {
        Op::Second => y,
        Op::Add => x.wrapping_add(y),
        Op::Sub => x.wrapping_sub(y),
        Op::And => x & y,
        Op::Nand => complement(x & y),
        Op::Or => x | y,
        Op::Nor => complement(x | y),
        Op::Xor => x ^ y,
        Op::Xnor => complement(x ^ y),
        Op::Andn => x & complement(y),
        Op::Orn => x | complement(y),
        Op::Eq => word_of_bool(x == y),
        Op::Ne => word_of_bool(x != y),
        Op::Lt => word_of_bool(signed_rank(x) < signed_rank(y)),
        Op::LtU => word_of_bool(x < y),
        Op::Ge => word_of_bool(signed_rank(x) >= signed_rank(y)),
        Op::GeU => word_of_bool(x >= y),
        Op::Sh => logical_shift(x, (y % 64) as u8),
        Op::Sha => arithmetic_shift(x, (y % 64) as u8),
    }
}

/// Returns true if a condition holds for two words, so that a branch with the condition is taken.
/// Lt and Ge are signed, LtU and GeU unsigned.
#[tactic(auto, unfolding(crate::specs::Arithmetic::taken_of))]
pub fn taken(cond: Cond, x: u32, y: u32) -> bool
    ensures { result ≡ taken_of cond x y }
{
    match cond {
        Cond::Eq => x == y,
        Cond::Ne => x != y,
        Cond::Lt => signed_rank(x) < signed_rank(y),
        Cond::LtU => x < y,
        Cond::Ge => signed_rank(x) >= signed_rank(y),
        Cond::GeU => x >= y,
    }
}

/// Returns the word with all bits inverted.
fn complement(x: u32) -> u32
    ensures { result ≡ complement x }
{
    u32::MAX - x
}

/// Returns the word that a comparison instruction gives: 1 for true, 0 for false.
fn word_of_bool(b: bool) -> u32
    ensures { result ≡ word_of_bool b }
{
    if b { 1 } else { 0 }
}

/// Returns a word's rank in the signed order: 80000000 has rank 0, 0 has rank 2^31, and 7FFFFFFF
/// has the greatest rank.
fn signed_rank(x: u32) -> u32
    ensures { result ≡ signed_rank x }
{
    x.wrapping_add(0x8000_0000)
}

/// Returns `x` shifted left by `n` bits if `n` is below 32, else right by 64 - `n` bits, filled
/// with zeros.
fn logical_shift(x: u32, n: u8) -> u32
    requires { n < 64 }
    ensures { result ≡ logical_shift x n }
{
    if n < 32 {
        x << n
    } else if n == 32 {
        0
    } else {
        x >> (64 - n)
    }
}

/// Returns `x` shifted left by `n` bits if `n` is below 32, else right by 64 - `n` bits, filled
/// with the sign bit.
fn arithmetic_shift(x: u32, n: u8) -> u32
    requires { n < 64 }
    ensures { result ≡ arithmetic_shift x n }
{
    if n < 32 || x < 0x8000_0000 {
        logical_shift(x, n)
    } else {
        complement(logical_shift(complement(x), n))
    }
}
