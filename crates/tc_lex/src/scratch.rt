// A list in place for what a line holds, used again for each line.
ghost use Rattle.std.specs.Prelude.{◌≡◌, ◌<◌, ◌≤◌, ◌+◌, ◌++◌, ◌==◌, [], ◌∷◌, length};

use std::marker::Model;

/// A list of at most `CAP` elements, which are in the value itself. Unlike an `ArrayVec` it keeps
/// old elements after its end: `clear` writes only the length.
#[derive(Drop)]
pub struct Scratch<T, const CAP: usize> {
    cells: [T; CAP],
    len: usize,
}

impl<T, const CAP: usize> Model for Scratch<T, CAP> {
    ghost use Rattle.std.specs.Prelude.{◌≡◌, ◌≤◌, length, take};
    ghost use Rattle.arrayvec.specs.ArrayVec.{ArrayVec as Items, array_vec_code};

    ghost Value = { Items T };

    ghost coded = { array_vec_code T.code };

    ghost view = { λ v. record { items = take v.len v.cells } };

    ghost invariant = { λ v. (v.len ≤ CAP) × (length v.cells ≡ CAP) };
}

impl<T: Copy + Default, const CAP: usize> Scratch<T, CAP> {
    /// An empty list with room for `CAP` elements, as scratch space for the tokens or operands of a
    /// line.
    pub fn new() -> Self
        ensures { result.items ≡ [] }
    {
        Scratch {
            cells: Default::default(),
            len: 0,
        }
    }
}

impl<T: Copy, const CAP: usize> Scratch<T, CAP> {
    /// Whether there is no room left in a list of scratch space.
    pub fn is_full(&self) -> bool
        ensures value { result ≡ (length self.now.items == CAP) }
        ensures fits { length self.now.items ≤ CAP }
    {
        self.len == CAP
    }

    /// The elements of a list of scratch space.
    pub fn as_slice(&self) -> &[T]
        ensures value { result.now ≡ self.now.items }
        ensures fits { length result.now ≤ CAP }
    {
        &self.cells[..self.len]
    }

    /// Empties a list of scratch space for the next line.
    pub fn clear(&mut self)
        ensures { self.new.items ≡ [] }
    {
        self.len = 0;
    }

    /// Adds an element at the end of a list of scratch space. There must be room.
    pub fn push(&mut self, element: T)
        requires { length self.old.items < CAP }
        ensures items { self.new.items ≡ self.old.items ++ element ∷ [] }
        ensures len { length self.new.items ≡ length self.old.items + 1 }
    {
        let len = self.len;
        self.cells[len] = element;
        self.len = len + 1;
    }
}
