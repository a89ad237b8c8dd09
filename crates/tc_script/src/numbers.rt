// Reads the numbers of a script.
ghost use Rattle.std.specs.Prelude.{◌≡◌, ◌^◌, min, true, IsTrue};
ghost use Rattle.std.specs.Char.{is_ascii_digit};
ghost use Rattle.std.specs.List.{list_all};
ghost use Rattle.std.specs.Str.Parse.{digits_value};
ghost use Rattle.tc_script.specs.Numbers.{is_decimal, script_number};

/// Returns the number below 2^32 that a token of a script, or the argument of `gen`, spells in
/// decimal without leading zeros. `None` for any other text.
#[tactic(auto, unfolding(crate::specs::Numbers::script_number))]
pub fn script_number(word: &[u8]) -> Option<u32>
    ensures { result ≡ script_number word.now }
{
    if !is_decimal(word) {
        return None;
    }
    u32::try_from(script_digits_value(word)).ok()
}

/// Returns true if a token of a script is decimal digits without leading zeros.
fn is_decimal(word: &[u8]) -> bool
    ensures value { result ≡ is_decimal word.now }
    ensures digits { IsTrue result → list_all is_ascii_digit word.now ≡ true }
{
    if word.is_empty() {
        return false;
    }
    if !are_all_digits(word) {
        return false;
    }
    word.len() == 1 || word[0] != b'0'
}

/// Returns the number that these decimal digits spell, capped at 2^32.
fn script_digits_value(word: &[u8]) -> u64
    requires { list_all is_ascii_digit word.now ≡ true }
    ensures { result ≡ min (digits_value 10 word.now) (2 ^ 32) }
{
    let mut value = 0u64;
    for c in word {
        value = (value * 10 + u64::from(*c - b'0')).min(0x1_0000_0000);
    }
    value
}

/// Returns true if all bytes of a script's token are decimal digits.
fn are_all_digits(word: &[u8]) -> bool
    ensures { result ≡ list_all is_ascii_digit word.now }
{
    word.iter().all(|c| c.is_ascii_digit())
}
