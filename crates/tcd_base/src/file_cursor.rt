// A cursor over the bytes of a whole file.
ghost use Rattle.std.specs.Prelude.{◌≡◌, ◌≤◌, ◌+◌, ◌^◌, ◌↔◌, length, take, drop, IsSome, IfSome, IfNone, OnSome};

use crate::Cursor;
use std::marker::Model;

/// A cursor over the bytes of a whole file. It has at most 2^30 of them, so that each place fits
/// the offset of a `FormErr`.
#[derive(Drop)]
pub struct FileCursor<'a> {
    pub(crate) cursor: Cursor<'a>,
}

impl<'a> Model for FileCursor<'a> {
    ghost use Rattle.std.specs.Prelude.{◌≤◌, ◌^◌, length};
    ghost use Rattle.tcd_base.specs.Place.{Place};

    ghost Value = { Place };

    ghost view = { λ c. c.cursor };

    ghost invariant = { λ c. length (c.cursor).bytes ≤ 2 ^ 30 };
}

impl<'a> FileCursor<'a> {
    /// Returns a cursor before the first byte of a file.
    pub fn new(bytes: &'a [u8]) -> FileCursor<'a>
        requires { length bytes.now ≤ 2 ^ 30 }
        ensures { result ≡ record { bytes = bytes.now; place = 0 } }
    {
        FileCursor {
            cursor: Cursor::new(bytes),
        }
    }

    /// Returns the byte offset of the cursor in the file: the number of bytes taken so far.
    pub fn place(&self) -> usize
        ensures place { result ≡ self.now.place }
        ensures within { result ≤ length self.now.bytes }
        ensures short { length self.now.bytes ≤ 2 ^ 30 }
    {
        self.cursor.place()
    }

    /// Takes the next `n` bytes. If fewer are left, the answer is `None`, and nothing moves.
    pub fn take(&mut self, n: usize) -> Option<&'a [u8]>
        ensures there { IsSome result ↔ (self.old.place + n ≤ length self.old.bytes) }
        ensures some { IfSome result (λ r. r.now ≡ take n (drop self.old.place self.old.bytes)) }
        ensures moved { OnSome result (self.new ≡ record self.old { place = self.old.place + n }) }
        ensures kept { IfNone result (self.new ≡ self.old) }
    {
        self.cursor.take(n)
    }
}
