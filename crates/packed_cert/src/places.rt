// Places in the bytes of a certificate: of nodes, points, states, rows of values and exits.
ghost use Rattle.std.specs.Prelude.{◌≡◌, ◌-◌};

use depth_cert::Key;

/// How many values a state has.
pub(crate) const VALUES: usize = 27;

/// How many values an exit has: those of the lower registers.
pub(crate) const LOWER_VALUES: usize = 14;

/// The key and the need of a node, and the places of its exit and of its points' states.
#[derive(Drop)]
pub struct NodePlaces {
    pub(crate) key: Key,
    /// The key as one number, by which nodes are ordered and found.
    pub(crate) number: u64,
    pub(crate) need: u16,
    pub(crate) exit: Option<u32>,
    pub(crate) points: Vec<PointPlace>,
}

/// A point whose state stays in the bytes: 20 bytes a point.
#[derive(Clone, Copy)]
pub struct PointPlace {
    pub addr: u32,
    /// The place of the state before its instruction. If points one after another have the same
    /// state, all have the place of the first one, so states at equal places are equal.
    pub place: u32,
    /// The values outside this row are those of the point before.
    pub(crate) row: ValueRow,
    /// The whole state is that of the point before.
    pub(crate) same: bool,
}

/// A row of a state's values, which holds all that were read when the state before it was at hand.
#[derive(Clone, Copy)]
pub struct ValueRow {
    /// The number of its first value.
    pub(crate) first: u8,
    /// The number after that of its last value; 0 for a row of none.
    pub(crate) behind: u8,
    /// The place of its first value.
    pub(crate) from: u32,
}

/// The places of a state's first byte, of its first value, and after its last byte.
#[derive(Clone, Copy)]
pub(crate) struct StatePlaces {
    pub(crate) start: usize,
    pub(crate) values: usize,
    pub(crate) end: usize,
}

/// A state that was read, and how many of its bytes, from the first one on, come again.
#[derive(Clone, Copy)]
pub(crate) struct RepeatedState {
    pub(crate) at: StatePlaces,
    pub(crate) same: usize,
}

/// A state that was read over the one before it.
#[derive(Clone, Copy)]
pub(crate) struct ReadState {
    pub(crate) at: StatePlaces,
    pub(crate) row: ValueRow,
    /// The bytes of the state before it came again.
    pub(crate) same: bool,
}

/// The places of an exit's first byte, and after its last byte.
#[derive(Clone, Copy)]
pub(crate) struct ExitPlaces {
    pub(crate) start: usize,
    pub(crate) end: usize,
}

/// Returns the empty range of register slots: no value of a point's state differs from that of the
/// point before.
pub(crate) fn empty_row() -> ValueRow
    ensures { result ≡ record { first = 0; behind = 0; from = 0 } }
{
    ValueRow {
        first: 0,
        behind: 0,
        from: 0,
    }
}
