// Bit fields of words, and words as bytes.
ghost use Rattle.std.specs.Prelude.{◌≡◌, ◌<◌, ◌≤◌, ◌^◌, ◌++◌, ℕ, List, OnOk, OnErr};
ghost use Rattle.tcd_base.specs.Bytes.{bytes_of_half, bytes_of_word};
ghost use Rattle.tcd_base.specs.Place.{place_between};
ghost use Rattle.tcd_base.specs.FieldReaders.{u32_at};
ghost use Rattle.tcd_base.specs.BitFields.{bits_of, sext_of};

use crate::NoMemory;

/// Returns the bits `hi` down to `lo` of a word, both included.
pub fn bits(x: u32, hi: u8, lo: u8) -> u32
    requires ordered { lo ≤ hi }
    requires within { hi ≤ 31 }
    ensures { result ≡ bits_of x hi lo }
{
    let above = u64::from(x) >> lo;
    (above % (1u64 << (hi - lo + 1))) as u32
}

/// Returns a bit field of `n` bits in two's complement, extended by its sign to a word of 32 bits.
pub fn sext(x: u32, n: u8) -> u32
    requires some { 1 ≤ n }
    requires most { n ≤ 32 }
    requires below { x < 2 ^ n }
    ensures { result ≡ sext_of x n }
{
    if u64::from(x) < 1u64 << (n - 1) {
        x
    } else {
        (u64::from(x) + 4_294_967_296 - (1u64 << n)) as u32
    }
}

/// Appends the two bytes of a half-word, little-endian.
pub fn put_u16(out: &mut Vec<u8>, x: u16) -> Result<(), NoMemory>
    ensures { OnOk result (out.new.items ≡ out.old.items ++ bytes_of_half x) }
{
    out.extend_from_slice(&x.to_le_bytes())?;
    Ok(())
}

/// Appends the four bytes of a word, little-endian.
pub fn put_u32(out: &mut Vec<u8>, x: u32) -> Result<(), NoMemory>
    ensures ok { OnOk result (out.new.items ≡ out.old.items ++ bytes_of_word x) }
    ensures err { OnErr result (out.new.items ≡ out.old.items) }

    // A reader at the first of these bytes reads the word, and is then at the bytes that follow.
    ensures back { OnOk result ((rest : List ℕ)
        → u32_at (place_between out.old.items (bytes_of_word x ++ rest))
        ≡ Ok (x, place_between out.new.items rest)) }
{
    out.extend_from_slice(&x.to_le_bytes())?;
    Ok(())
}
