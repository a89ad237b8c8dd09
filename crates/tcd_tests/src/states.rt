//! States of a certificate's points.
ghost use Rattle.std.specs.Prelude.{◌≡◌, ◌≤◌, ◌<◌, length, replicate};
ghost use Rattle.value_domain.specs.State.{AreInLattice};
ghost use Rattle.value_domain.specs.Values.{any_val};

use arrayvec::ArrayVec;
use value_domain::{Bounds, State, Val, cover_words};

fn any_regs() -> [Val; 27]
    ensures { result ≡ replicate 27 any_val }
{
    let mut regs = std::array::from_fn(|_| Val::any());
    for i in 0..27 {
        regs[i] = Val::any();
    }
    regs
}

/// A state of which nothing is known, with interrupts off.
pub fn open(b: &Bounds) -> State
    ensures { AreInLattice b.now result.regs }
{
    let _most_words = b.most_words();
    State {
        regs: any_regs(),
        ie: false,
        ccpn: 0,
        lower: true,
        locals: ArrayVec::new(),
    }
}

/// A state of which a register holds one of the words. A2 to A7 are 16 to 21, A10 is 22, and A12 to
/// A15 are 23 to 26.
pub fn with(b: &Bounds, s: State, place: usize, words: &[u32]) -> State
    requires place { place < 27 }
    requires some { 1 ≤ length words.now }
    requires values { AreInLattice b.now s.regs }
    ensures { AreInLattice b.now result.regs }
{
    let mut out = s;
    out.regs[place] = cover_words(b, words);
    out
}
