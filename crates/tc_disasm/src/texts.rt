// Appends short texts and addresses.
ghost use Rattle.std.specs.Prelude.{◌≡◌, ◌<◌, ◌+◌, ◌++◌, ◌∷◌, [], OnOk, string_bytes};
ghost use Rattle.tc_disasm.specs.Listing.{comment_start};
ghost use Rattle.std.specs.Fmt.{decimal};

use tcd_base::NoMemory;
use tcd_text::{append_ascii, hex_word};

/// Appends a number below 10 as a decimal digit.
pub(crate) fn append_listing_digit(text: &mut String, n: u32) -> Result<(), NoMemory>
    requires { n < 10 }
    ensures { OnOk result (string_bytes text.new ≡ string_bytes text.old ++ ((48 + n) ∷ [])) }
{
    text.push(char::from(48 + n as u8))?;
    Ok(())
}

/// Appends the start of a line's comment to a listing: ` # `, the address in eight hex digits, and
/// a blank.
pub(crate) fn append_comment_start(text: &mut String, address: u32) -> Result<(), NoMemory>
    ensures { OnOk result
        (string_bytes text.new ≡ string_bytes text.old ++ comment_start address) }
{
    let w = hex_word(address);
    let line = [
        b' ', b'#', b' ', w[0], w[1], w[2], w[3], w[4], w[5], w[6], w[7], b' ',
    ];
    append_ascii(text, &line)
}

/// Appends a number to a listing in decimal.
pub(crate) fn append_listing_decimal(text: &mut String, n: u32) -> Result<(), NoMemory>
    ensures { OnOk result (string_bytes text.new ≡ string_bytes text.old ++ decimal n) }
{
    if n < 100 {
        return append_small_listing_number(text, n);
    }
    if n < 1000 {
        append_small_listing_number(text, n / 10)?;
        return append_listing_digit(text, n % 10);
    }
    write!(text, "{n}")?;
    Ok(())
}

// Appends a number below 100, digit by digit.
#[tactic(auto, using(crate::proofs::SmallNumbers::one_digit))]
fn append_small_listing_number(text: &mut String, n: u32) -> Result<(), NoMemory>
    requires { n < 100 }
    ensures { OnOk result (string_bytes text.new ≡ string_bytes text.old ++ decimal n) }
{
    if n < 10 {
        return append_listing_digit(text, n);
    }
    append_listing_digit(text, n / 10)?;
    append_listing_digit(text, n % 10)
}
