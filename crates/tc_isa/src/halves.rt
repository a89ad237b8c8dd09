// The halves of a word, for two instructions that put it together.
ghost use Rattle.std.specs.Prelude.{◌≡◌, ◌<◌, ◌^◌};
ghost use Rattle.tc_isa.specs.NamedInstructions.{adjusted_upper_half, lower_half};

/// Returns the constant of `movh` for a word: its upper half, plus 1 if the lower half, which
/// `addi` or `lea` adds, is negative.
pub fn adjusted_upper_half(x: u32) -> u32
    ensures is { result ≡ adjusted_upper_half x }
    ensures small { result < 2 ^ 16 }
{
    ((u64::from(x) + 0x8000) / 0x1_0000 % 0x1_0000) as u32
}

/// Returns the lower half of a word: the constant that `addi` or `lea` adds to the word of `movh`.
pub fn lower_half(x: u32) -> u32
    ensures is { result ≡ lower_half x }
    ensures small { result < 2 ^ 16 }
{
    x % 0x1_0000
}
