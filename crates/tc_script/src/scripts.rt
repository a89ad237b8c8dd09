// Scripts as data.
ghost use Rattle.std.specs.Prelude.{◌≡◌, ◌<◌, ◌≤◌, length, slice_get, Some};
ghost use Rattle.tc_script.specs.Ports.{script_answer};

use crate::ports::device_answer;
use arrayvec::ArrayVec;
use std::marker::Model;

/// A turn: the priority of the interrupt that is requested (0 for none), and whether a misaligned
/// access traps.
#[derive(Clone, Copy, Debug, PartialEq, Eq)]
pub struct Turn {
    pub irq: u8,
    pub aln: bool,
}

/// The bounds of a peripheral's answers: words from `lo` to `hi`.
#[derive(Clone, Copy, Debug, Default, PartialEq, Eq)]
pub struct AnswerRange {
    pub lo: u32,
    pub hi: u32,
}

/// A turn script: at most 100,000 turns, and for each peripheral of the plan the bounds of its
/// answers.
#[derive(Drop)]
pub struct Script {
    pub(crate) turns: Vec<Turn>,
    pub(crate) bounds: ArrayVec<AnswerRange, 16>,
}

impl Model for Script {
    ghost use Rattle.tc_script.specs.ScriptData.{ScriptData, IsScript};

    ghost Value = { ScriptData };

    ghost view = { λ s. record { turns = s.turns.items; bounds = s.bounds.items } };

    ghost invariant = { λ s. IsScript s.turns.items s.bounds.items };
}

impl Script {
    /// Returns the number of turns.
    pub fn len(&self) -> u32
        ensures len { result ≡ length self.now.turns }
        ensures few { result ≤ 100000 }
    {
        self.turns.len() as u32
    }

    /// Returns turn `at`, from 0: a step's interrupt request, and whether misaligned accesses trap.
    pub fn turn(&self, at: u32) -> Turn
        requires { at < length self.now.turns }
        ensures { slice_get self.now.turns at ≡ Some result }
    {
        self.turns[at as usize]
    }

    /// Returns what a peripheral answers at an event, both numbered from 0: the words from the
    /// peripheral's `lo` to its `hi`, in turn and over again.
    pub fn answer(&self, device: usize, at: u32) -> u32
        requires { device < length self.now.bounds }
        ensures { script_answer self.now.bounds device at ≡ Some result }
    {
        device_answer(self.bounds.as_slice()[device], at)
    }
}
