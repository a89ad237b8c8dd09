// Writes the only bytes that spell a certificate.
ghost use Rattle.std.specs.Prelude.{◌≡◌, ◌≤◌, ◌<◌, ◌+◌, ◌∷◌, [], ◌++◌, length, OnOk, None};
ghost use Rattle.std.specs.List.{flat_map};
ghost use Rattle.tcd_base.specs.Bytes.{bytes_of_word};
ghost use Rattle.depth_cert.specs.Keys.{cert_flag_byte};
ghost use Rattle.depth_cert.specs.Spelling.{bytes_of_value, bytes_of_key, bytes_of_exit};
ghost use Rattle.value_domain.specs.Values.{IsWellFormed};
ghost use Rattle.value_domain.specs.declared.values.Val.TheVariants.{Set, Span};

use crate::Key;
use crate::value_reader::SPAN;
use tcd_base::{NoMemory, put_u32};
use value_domain::Val;

/// Appends the encoding of an abstract value in a certificate. Each value has just one.
pub fn write_value(out: &mut Vec<u8>, v: &Val) -> Result<(), NoMemory>
    requires { IsWellFormed v.now }
    ensures { OnOk result (out.new.items ≡ out.old.items ++ bytes_of_value v.now) }
{
    match v {
        Val::Set(words) => write_set(out, words.as_slice()),
        Val::Span { lo, last, step } => write_span(out, *lo, *last, *step),
    }
}

/// Appends the bytes that spell the key of a certificate's node.
#[tactic(auto, unfolding(crate::specs::Spelling::bytes_of_key))]
pub fn write_key(out: &mut Vec<u8>, key: &Key) -> Result<(), NoMemory>
    ensures { OnOk result (out.new.items ≡ out.old.items ++ bytes_of_key key.now) }
{
    write_cert_byte(out, key.kind)?;
    put_u32(out, key.entry)?;
    write_cert_byte(out, key.prio)?;
    write_cert_flag(out, key.is)
}

/// Appends the byte of a certificate that says that a node has no exit.
#[tactic(auto, unfolding(crate::specs::Spelling::bytes_of_exit))]
pub fn write_no_exit(out: &mut Vec<u8>) -> Result<(), NoMemory>
    ensures { OnOk result (out.new.items ≡ out.old.items ++ bytes_of_exit None) }
{
    write_cert_byte(out, 0)
}

/// Appends the bytes of a certificate's Set: one for the number of words, four for each word.
#[tactic(auto, unfolding(crate::specs::Spelling::bytes_of_value))]
fn write_set(out: &mut Vec<u8>, words: &[u32]) -> Result<(), NoMemory>
    requires { length words.now ≤ 128 }
    ensures { OnOk result (out.new.items ≡ out.old.items ++ bytes_of_value (Set words.now)) }
{
    write_cert_byte(out, words.len() as u8)?;
    write_set_words(out, words)
}

/// Appends the bytes that spell the Span from `lo` to `last`: 240 plus the step, and both ends. The
/// Span of all words is a single byte 0.
#[tactic(auto, unfolding(crate::specs::Spelling::bytes_of_value))]
fn write_span(out: &mut Vec<u8>, lo: u32, last: u32, step: u8) -> Result<(), NoMemory>
    requires { step ≤ 2 }
    ensures { OnOk result (out.new.items ≡ out.old.items ++ bytes_of_value (Span lo last step)) }
{
    if lo == 0 && last == u32::MAX && step == 0 {
        return write_cert_byte(out, 0);
    }
    write_cert_byte(out, SPAN + step)?;
    put_u32(out, lo)?;
    put_u32(out, last)
}

/// Appends a byte to those of a certificate.
fn write_cert_byte(out: &mut Vec<u8>, x: u8) -> Result<(), NoMemory>
    ensures { OnOk result (out.new.items ≡ out.old.items ++ x ∷ []) }
{
    out.push(x)?;
    Ok(())
}

/// Appends the words of a Set to the bytes of a certificate, four bytes each, little-endian.
fn write_set_words(out: &mut Vec<u8>, words: &[u32]) -> Result<(), NoMemory>
    ensures { OnOk result (out.new.items ≡ out.old.items ++ flat_map bytes_of_word words.now) }
{
    for w in words {
        put_u32(out, *w)?;
    }
    Ok(())
}

/// Appends a truth value to the bytes of a certificate, as 0 or 1.
fn write_cert_flag(out: &mut Vec<u8>, x: bool) -> Result<(), NoMemory>
    ensures { OnOk result (out.new.items ≡ out.old.items ++ cert_flag_byte x ∷ []) }
{
    write_cert_byte(out, if x { 1 } else { 0 })
}
