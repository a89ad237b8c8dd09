// A buffer for bytes before they are appended to a list.
ghost use Rattle.std.specs.Prelude.{◌≡◌, ◌≤◌, ◌<◌, ◌+◌, ◌*◌, ◌∷◌, [], ◌++◌, false, IsTrue, OnOk, length, replicate};
ghost use Rattle.std.specs.List.{flat_map};
ghost use Rattle.value_domain.specs.declared.values.Val.TheVariants.{Set, Span};
ghost use Rattle.tcd_base.specs.Bytes.{bytes_of_word};
ghost use Rattle.value_domain.specs.Values.{is_span_of_all_words};
ghost use Rattle.depth_cert.specs.Spelling.{bytes_of_value};

use crate::values::SpacedValue;
use depth_cert::SPAN;
use std::marker::Model;
use tcd_base::NoMemory;

/// A buffer for bytes. The rest of the array is always 0, so zeros are added without writing.
#[derive(Drop)]
pub(crate) struct Gathered {
    bytes: [u8; 192],
    /// The number of bytes that were added.
    len: usize,
}

impl Model for Gathered {
    ghost use Rattle.std.specs.Prelude.{ℕ, List, take};
    ghost use Rattle.small_states.specs.Zeros.{AreZerosAfter};

    ghost Value = { List ℕ };

    ghost view = { λ g. take g.len g.bytes };

    ghost invariant = { λ g. AreZerosAfter g.len g.bytes };
}

/// Returns whether this range holds all words, which a certificate spells as one zero byte.
#[inline(always)]
fn is_span_of_all_words(lo: u32, last: u32, step: u8) -> bool
    ensures { result ≡ is_span_of_all_words lo last step }
{
    lo == 0 && last == u32::MAX && step == 0
}

impl Gathered {
    /// Returns an empty buffer of 192 bytes, in which the bytes of a state are gathered.
    #[inline(always)]
    pub(crate) fn new() -> Gathered
        ensures { result ≡ [] }
    {
        Gathered {
            bytes: [0; 192],
            len: 0,
        }
    }

    /// Appends the gathered bytes of a state to `out`.
    #[inline(always)]
    pub(crate) fn append_to(&self, out: &mut Vec<u8>) -> Result<(), NoMemory>
        ensures { OnOk result (out.new.items ≡ out.old.items ++ self.now) }
    {
        out.extend_from_slice(&self.bytes[..self.len])?;
        Ok(())
    }

    /// Appends the buffered bytes to `out` and empties the buffer. Most states fit into the buffer
    /// and need no flush.
    #[inline(never)]
    pub(crate) fn flush(&mut self, out: &mut Vec<u8>) -> Result<(), NoMemory>
        ensures added { OnOk result (out.new.items ≡ out.old.items ++ self.old) }
        ensures none { OnOk result (self.new ≡ []) }
    {
        self.append_to(out)?;
        *self = Gathered::new();
        Ok(())
    }

    /// Makes room for `count` more bytes in the buffer of a state's bytes, by flushing to `out` if
    /// too few are free.
    #[inline(always)]
    pub(crate) fn make_room(&mut self, out: &mut Vec<u8>, count: usize) -> Result<(), NoMemory>
        requires { count ≤ 192 }
        ensures same { OnOk result (out.new.items ++ self.new ≡ out.old.items ++ self.old) }
        ensures room { OnOk result (length self.new + count ≤ 192) }
    {
        if self.len + count > 192 {
            self.flush(out)?;
        }
        Ok(())
    }

    /// Adds a byte to the buffer of a state's bytes, which has room.
    #[inline(always)]
    pub(crate) fn push(&mut self, x: u8)
        requires { length self.old < 192 }
        ensures { self.new ≡ self.old ++ x ∷ [] }
    {
        self.bytes[self.len] = x;
        self.len += 1;
    }

    /// Appends the certificate's bytes of a set of at most 128 words to the buffer. A buffer
    /// without room is flushed to `out` first.
    #[tactic(auto, unfolding(depth_cert::specs::Spelling::bytes_of_value))]
    pub(crate) fn push_set(&mut self, out: &mut Vec<u8>, words: &[u32]) -> Result<(), NoMemory>
        requires { length words.now ≤ 128 }
        ensures { OnOk result (out.new.items ++ self.new
            ≡ (out.old.items ++ self.old) ++ bytes_of_value (Set words.now)) }
    {
        self.make_room(out, 1)?;
        self.push(words.len() as u8);
        let mut n = 0;
        while n < words.len() {
            let count = (words.len() - n).min(32);
            self.make_room(out, 4 * count)?;
            self.push_words(&words[n..n + count]);
            n += count;
        }
        Ok(())
    }

    /// Appends the certificate's bytes of the range of multiples of `2 ^ step` from `lo` to `last`
    /// to the buffer. A buffer without room is flushed to `out` first.
    pub(crate) fn push_range(
        &mut self,
        out: &mut Vec<u8>,
        lo: u32,
        last: u32,
        step: u8,
    ) -> Result<(), NoMemory>
        requires { step ≤ 2 }
        ensures { OnOk result (out.new.items ++ self.new
            ≡ (out.old.items ++ self.old) ++ bytes_of_value (Span lo last step)) }
    {
        if is_span_of_all_words(lo, last, step) {
            return self.push_unknowns(out, 1);
        }
        self.make_room(out, 9)?;
        self.push(SPAN + step);
        self.push_words(&[lo, last]);
        Ok(())
    }

    /// Appends the bytes of `here`, unknown values and a known one after them, to the buffer.
    /// Returns false and appends nothing if the known one isn't a single word or room is missing.
    #[inline(always)]
    pub(crate) fn push_spaced_word(&mut self, here: &SpacedValue) -> bool
        ensures put { IsTrue result
            → self.new ≡ (self.old ++ replicate here.now.anys 0) ++ bytes_of_value here.now.value }
        ensures kept { result ≡ false → self.new ≡ self.old }
    {
        let Some(x) = here.value.single_word() else {
            return false;
        };
        let at = self.len + here.anys as usize;
        if at > 187 {
            return false;
        }
        let word = x.to_le_bytes();
        self.bytes[at] = 1;
        self.bytes[at + 1] = word[0];
        self.bytes[at + 2] = word[1];
        self.bytes[at + 3] = word[2];
        self.bytes[at + 4] = word[3];
        self.len = at + 5;
        true
    }

    /// Appends a zero for each of `count` unknown values to the buffer, or to `out` after a flush
    /// if too few bytes are free.
    #[inline(always)]
    pub(crate) fn push_unknowns(&mut self, out: &mut Vec<u8>, count: u32) -> Result<(), NoMemory>
        ensures { OnOk result
            (out.new.items ++ self.new ≡ (out.old.items ++ self.old) ++ replicate count 0) }
    {
        if count as usize > 192 - self.len {
            self.flush(out)?;
            out.resize(out.len() + count as usize, 0)?;
            return Ok(());
        }
        self.len += count as usize;
        Ok(())
    }

    /// Appends these words, little-endian, to the buffer of a state's bytes, which has room.
    #[inline(always)]
    fn push_words(&mut self, words: &[u32])
        requires { length self.old + 4 * length words.now ≤ 192 }
        ensures { self.new ≡ self.old ++ flat_map bytes_of_word words.now }
    {
        let mut at = self.len;
        for n in 0..words.len() {
            let word = words[n].to_le_bytes();
            self.bytes[at] = word[0];
            self.bytes[at + 1] = word[1];
            self.bytes[at + 2] = word[2];
            self.bytes[at + 3] = word[3];
            at += 4;
        }
        self.len = at;
    }
}
