// The bytes of names: of symbols, sections and labels.
ghost use Rattle.std.specs.Prelude.{◌≡◌, length, true};
ghost use Rattle.std.specs.List.{list_all};
ghost use Rattle.tcd_base.specs.NameBytes.{is_name_byte, is_name_start, is_name_byte_table_from};

/// Returns true if a symbol's or label's name can begin with this byte: a letter, `_`, `.` or `$`.
#[tactic(auto, unfolding(crate::specs::NameBytes::is_name_start))]
pub fn is_name_start(c: u8) -> bool
    ensures { result ≡ is_name_start c }
{
    (b'A' <= c && c <= b'Z') || (b'a' <= c && c <= b'z') || c == b'_' || c == b'.' || c == b'$'
}

// For each byte: whether a name can have it after the first byte.
static STAND_IN_NAMES: [bool; 256] = [
    false, false, false, false, false, false, false, false, false, false, false, false, false,
    false, false, false, false, false, false, false, false, false, false, false, false, false,
    false, false, false, false, false, false, false, false, false, false, true, false, false,
    false, false, false, false, false, false, false, true, false, true, true, true, true, true,
    true, true, true, true, true, false, false, false, false, false, false, false, true, true,
    true, true, true, true, true, true, true, true, true, true, true, true, true, true, true, true,
    true, true, true, true, true, true, true, true, false, false, false, false, true, false, true,
    true, true, true, true, true, true, true, true, true, true, true, true, true, true, true, true,
    true, true, true, true, true, true, true, true, true, false, false, false, false, false, false,
    false, false, false, false, false, false, false, false, false, false, false, false, false,
    false, false, false, false, false, false, false, false, false, false, false, false, false,
    false, false, false, false, false, false, false, false, false, false, false, false, false,
    false, false, false, false, false, false, false, false, false, false, false, false, false,
    false, false, false, false, false, false, false, false, false, false, false, false, false,
    false, false, false, false, false, false, false, false, false, false, false, false, false,
    false, false, false, false, false, false, false, false, false, false, false, false, false,
    false, false, false, false, false, false, false, false, false, false, false, false, false,
    false, false, false, false, false, false, false, false, false, false, false, false, false,
    false, false, false, false, false, false, false, false, false, false,
];

/// Returns true if a name can have this byte after its first: a letter, a digit, `_`, `.` or `$`.
pub fn is_name_byte(c: u8) -> bool
    ensures { result ≡ is_name_byte c }
{
    let answers = name_byte_table();
    answers[c as usize]
}

/// Returns true if a name can have all of these bytes after its first.
pub fn are_name_bytes(bytes: &[u8]) -> bool
    ensures { result ≡ list_all is_name_byte bytes.now }
{
    bytes.iter().all(|c| is_name_byte(*c))
}

// Returns the table that says of each byte whether a name can have it after its first, as
// `is_name_byte` does.
#[tactic(auto, unfolding(crate::specs::NameBytes::is_name_byte, crate::specs::NameBytes::is_name_start))]
fn name_byte_table() -> &'static [bool; 256]
    ensures count { length result.now ≡ 256 }
    ensures answers { is_name_byte_table_from 0 result.now ≡ true }
{
    &STAND_IN_NAMES
}
