// A cursor: a place in a list of bytes that moves from left to right.
ghost use Rattle.std.specs.Prelude.{◌≡◌, ◌≤◌, ◌+◌, ◌↔◌, length, take, drop, slice_index, IsSome, IfSome, IfNone, OnSome};
ghost use Rattle.tcd_base.specs.Bytes.{half_in_bytes, word_in_bytes};

use std::marker::Model;

/// Bytes, and the place of the first byte that wasn't taken yet. The place is at most the length.
#[derive(Drop)]
pub struct Cursor<'a> {
    bytes: &'a [u8],
    place: usize,
}

impl<'a> Model for Cursor<'a> {
    ghost use Rattle.std.specs.Prelude.{◌≤◌, length};
    ghost use Rattle.tcd_base.specs.Place.{Place};

    ghost Value = { Place };

    ghost view = { λ c. record { bytes = c.bytes.now; place = c.place } };

    ghost invariant = { λ c. c.place ≤ length c.bytes.now };
}

impl<'a> Cursor<'a> {
    /// Returns a cursor before the first byte.
    pub fn new(bytes: &'a [u8]) -> Cursor<'a>
        ensures { result ≡ record { bytes = bytes.now; place = 0 } }
    {
        Cursor { bytes, place: 0 }
    }

    /// Returns the byte offset of the cursor: the number of bytes taken so far.
    pub fn place(&self) -> usize
        ensures place { result ≡ self.now.place }
        ensures within { result ≤ length self.now.bytes }
    {
        self.place
    }

    /// Takes the next byte. If no byte is left, the answer is `None` and the cursor doesn't move.
    pub fn take_u8(&mut self) -> Option<u8>
        ensures there { IsSome result ↔ (self.old.place + 1 ≤ length self.old.bytes) }
        ensures some { IfSome result (λ b. b ≡ slice_index self.old.bytes self.old.place) }
        ensures moved { OnSome result (self.new ≡ record self.old { place = self.old.place + 1 }) }
        ensures kept { IfNone result (self.new ≡ self.old) }
    {
        let at = self.place;
        let bytes = self.bytes;
        if bytes.len() - at < 1 {
            return None;
        }
        self.place = at + 1;
        Some(bytes[at])
    }

    /// Takes the next two bytes, little-endian. If fewer are left, the answer is `None` and the
    /// cursor doesn't move.
    pub fn take_u16(&mut self) -> Option<u16>
        ensures there { IsSome result ↔ (self.old.place + 2 ≤ length self.old.bytes) }
        ensures some { IfSome result (λ h. h ≡ half_in_bytes self.old.bytes self.old.place) }
        ensures moved { OnSome result (self.new ≡ record self.old { place = self.old.place + 2 }) }
        ensures kept { IfNone result (self.new ≡ self.old) }
    {
        let at = self.place;
        let bytes = self.bytes;
        if bytes.len() - at < 2 {
            return None;
        }
        self.place = at + 2;
        Some(u16::from_le_bytes([bytes[at], bytes[at + 1]]))
    }

    /// Takes the next four bytes, little-endian. If fewer are left, the answer is `None` and the
    /// cursor doesn't move.
    pub fn take_u32(&mut self) -> Option<u32>
        ensures there { IsSome result ↔ (self.old.place + 4 ≤ length self.old.bytes) }
        ensures some { IfSome result (λ w. w ≡ word_in_bytes self.old.bytes self.old.place) }
        ensures moved { OnSome result (self.new ≡ record self.old { place = self.old.place + 4 }) }
        ensures kept { IfNone result (self.new ≡ self.old) }
    {
        let at = self.place;
        let bytes = self.bytes;
        if bytes.len() - at < 4 {
            return None;
        }
        self.place = at + 4;
        Some(u32::from_le_bytes([bytes[at], bytes[at + 1], bytes[at + 2], bytes[at + 3]]))
    }

    /// Takes the next `n` bytes. If fewer are left, the answer is `None` and the cursor doesn't
    /// move.
    pub fn take(&mut self, n: usize) -> Option<&'a [u8]>
        ensures there { IsSome result ↔ (self.old.place + n ≤ length self.old.bytes) }
        ensures some { IfSome result (λ r. r.now ≡ take n (drop self.old.place self.old.bytes)) }
        ensures moved { OnSome result (self.new ≡ record self.old { place = self.old.place + n }) }
        ensures kept { IfNone result (self.new ≡ self.old) }
    {
        let rest = &self.bytes[self.place..];
        if rest.len() < n {
            return None;
        }
        self.place += n;
        Some(&rest[..n])
    }
}
