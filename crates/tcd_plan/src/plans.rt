// A plan, with the facts that always hold.
use arrayvec::ArrayVec;
use std::marker::Model;
use tcd_base::{Core, Range};

/// The number of a key in the list of printed keys, from 0.
#[derive(Clone, Copy, Debug, PartialEq, Eq)]
pub struct PlanKey(pub u8);

/// Why the bytes of a file are no plan. The refusals are checked in this order and numbered from 1.
#[derive(Clone, Copy, Debug, PartialEq, Eq)]
pub enum PlanErr {
    /// The bytes are no JSON object.
    NotJson,
    /// An object lacks this key.
    Missing(PlanKey),
    /// This object, or an object of this array, has a key that isn't one of its own.
    Unknown(PlanKey),
    /// The value of this key doesn't have its form.
    BadValue(PlanKey),
    /// This array has too many elements, or too many bytes in its ranges.
    TooMany(PlanKey),
    /// The save areas aren't within their limits.
    BadCsa,
    /// BIV or BTV is odd.
    BadVector,
    /// Two ranges share a byte: their numbers over rom, ram, peripherals and the save areas.
    Overlap(u32, u32),
    /// An allocation failed.
    NoMemory,
}

/// A peripheral: a range, and the bounds of the words that a load from it can give, `lo..=hi`.
#[derive(Clone, Copy, Debug, Default, PartialEq, Eq)]
pub struct Device {
    pub range: Range,
    pub lo: u32,
    pub hi: u32,
}

/// The memory of a board, the start state, and the interrupts and traps that can occur. Addresses
/// and lengths are in bytes.
#[derive(Drop)]
pub struct Plan {
    pub rom: ArrayVec<Range, 16>,
    pub ram: ArrayVec<Range, 16>,
    pub devices: ArrayVec<Device, 16>,
    /// The address of the first save area.
    pub csa_at: u32,
    /// The number of save areas.
    pub areas: u32,
    /// The number of areas at the end of the free list that must never be used.
    pub reserve: u32,
    /// A10 at the start.
    pub sp: u32,
    /// ISP, the interrupt stack pointer.
    pub isp: u32,
    /// BIV, the base of the interrupt vectors.
    pub biv: u32,
    /// BTV, the base of the trap vectors.
    pub btv: u32,
    /// The priorities of the interrupts that can be requested, ascending.
    pub irqs: ArrayVec<u8, 32>,
    /// System calls can occur.
    pub sys: bool,
    /// Misaligned accesses can trap.
    pub aln: bool,
    /// IE at the start.
    pub start_ie: bool,
    /// CCPN at the start.
    pub start_ccpn: u8,
    /// PSW.IS at the start: the interrupt stack is in use.
    pub start_is: bool,
    /// A0, A1, A8 and A9.
    pub globals: [u32; 4],
    /// The version of the core.
    pub core: Core,
}

impl Model for Plan {
    ghost use Rattle.tcd_plan.specs.PlanData.{PlanData, plan_data, IsPlan};

    ghost Value = { PlanData };

    ghost view = { plan_data };

    ghost invariant = { λ p. IsPlan (plan_data p) };
}
