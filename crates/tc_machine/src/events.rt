// Events, and the causes of a machine's death.

/// Why a machine died.
#[derive(Clone, Copy, Debug, PartialEq, Eq)]
pub enum Cause {
    /// A save reached the limit of the free list (LCX).
    Fcd,
    /// The free list was empty.
    Fcu,
    /// There was no context to restore.
    Csu,
    /// The context to restore was of the other kind, upper or lower.
    Ctyp,
    /// The bytes at pc are no listed instruction.
    NotListed,
    /// The bytes at pc end inside an instruction, or pc is odd.
    NoCode,
    /// A save area wasn't mapped.
    NoArea,
}

/// The end of a machine: it still runs, or it died.
#[derive(Clone, Copy, Debug, PartialEq, Eq)]
pub enum End {
    Running,
    Dead(Cause),
}

/// The inputs of one step.
#[derive(Clone, Copy, Debug, PartialEq, Eq)]
pub struct Event {
    /// The priority of the interrupt that is requested, 0 for none.
    pub irq: u8,
    /// The word that reads give where nothing is mapped, and that unlisted core registers have.
    pub input: u32,
    /// The status byte of PSW, bits 31:24, after the step.
    pub status: u8,
    /// A misaligned access traps.
    pub aln: bool,
}
