// A cache of decoded words of code, kept from event to event.
ghost use Rattle.std.specs.Prelude.{◌≡◌, ◌<◌, All, IfSome};
ghost use Rattle.tcd_base.specs.Bytes.{bytes_of_word};
ghost use Rattle.tc_machine.specs.Fetching.{mapped_bytes};
ghost use Rattle.tc_script.specs.KnownWords.{IsCorrectCacheEntry, HasDecodedShapeAt};

use tc_isa::{Arg, Op, Shape};
use tc_machine::{Cause, Machine};

/// A word, and what its four bytes do. Without a word the entry says nothing.
#[derive(Clone, Copy)]
pub(crate) struct KnownWord {
    pub word: Option<u32>,
    pub found: Result<(Shape, u32), Cause>,
}

/// Words that were decoded lately, each at a place that its hash gives. A later word replaces an
/// earlier one at its place.
#[derive(Drop)]
pub(crate) struct KnownWords {
    pub words: [KnownWord; 1024],
}

/// Returns the index of a word of code in the cache of decoded instructions: the upper ten bits of
/// the word's Fibonacci hash.
fn known_word_index(word: u32) -> usize
    ensures { result < 1024 }
{
    (word.wrapping_mul(0x9E37_79B9) / 0x40_0000) as usize
}

impl KnownWords {
    /// Returns an empty cache of decoded words of code.
    pub(crate) fn new() -> KnownWords
        ensures { All IsCorrectCacheEntry result.words }
    {
        // All zeros, so that the table is filled at once.
        let shape = Shape::Compute {
            op: Op::Second,
            dst: 0,
            x: Arg::Reg(0),
            y: Arg::Reg(0),
        };
        let none = KnownWord {
            word: None,
            found: Ok((shape, 0)),
        };
        KnownWords {
            words: [none; 1024],
        }
    }

    /// Returns the index of the cache entry that says what the bytes at pc do. If no entry does
    /// yet, the bytes are decoded into one first.
    pub(crate) fn find_or_decode_at_pc(&mut self, m: &Machine) -> usize
        requires { All IsCorrectCacheEntry self.old.words }
        ensures place { result < 1024 }
        ensures known { All IsCorrectCacheEntry self.new.words }
        ensures stands { HasDecodedShapeAt self.new.words result
            (mapped_bytes 4 m.now.mem m.now.pc) }
    {
        let Some(word) = m.mem.word(m.pc) else {
            self.decode_into(m, 0, None);
            return 0;
        };
        let place = known_word_index(word);
        if self.words[place].word == Some(word) {
            return place;
        }
        self.decode_into(m, place, Some(word));
        place
    }

    /// Decodes the bytes at pc into entry `place` of the cache. The entry is for `word`, which
    /// these bytes are; with `None` it is for no word and is never found again.
    #[inline(never)]
    fn decode_into(&mut self, m: &Machine, place: usize, word: Option<u32>)
        requires place { place < 1024 }
        requires known { All IsCorrectCacheEntry self.old.words }
        requires word { IfSome word (λ w. bytes_of_word w ≡ mapped_bytes 4 m.now.mem m.now.pc) }
        ensures known { All IsCorrectCacheEntry self.new.words }
        ensures stands { HasDecodedShapeAt self.new.words place
            (mapped_bytes 4 m.now.mem m.now.pc) }
    {
        let found = m.shape_at_pc();
        self.words[place] = KnownWord { word, found };
    }
}
