// Compares short texts.
ghost use Rattle.std.specs.Prelude.{◌≡◌};
ghost use Rattle.std.specs.Str.{bytes_eq};

/// Whether two texts are equal. A loop over bytes is fastest here, since names are short.
pub fn are_same_bytes(a: &[u8], b: &[u8]) -> bool
    ensures { result ≡ bytes_eq a.now b.now }
{
    if a.len() != b.len() {
        return false;
    }
    for i in 0..a.len() {
        let x = a[i];
        let y = b[i];
        if x != y {
            return false;
        }
    }
    true
}

/// Whether these bytes are those of this text.
pub fn is_same_text(bytes: &[u8], text: &str) -> bool
    ensures { result ≡ bytes_eq bytes.now text.now }
{
    are_same_bytes(bytes, text.as_bytes())
}
