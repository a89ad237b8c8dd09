// What may follow a point, as data.
use arrayvec::ArrayVec;
use value_domain::State;

/// Addresses of the same frame that may come next, and the state there.
#[derive(Drop)]
pub struct Jump {
    pub targets: ArrayVec<u32, 128>,
    pub state: State,
}

/// Frames that may be entered.
#[derive(Drop)]
pub struct Enter {
    /// CALL, SYS or ALN.
    pub kind: u8,
    /// The addresses of their entries.
    pub targets: ArrayVec<u32, 128>,
    /// The state at their entries.
    pub state: State,
    /// The address at which the entering frame goes on after their return.
    pub resume: Option<u32>,
}

/// How an instruction leaves its frame: not at all, by RET, or by RFE.
#[derive(Clone, Copy, Debug, PartialEq, Eq)]
pub enum Leave {
    Stays,
    Ret,
    Rfe,
}

/// What may follow a point.
#[derive(Drop)]
pub struct Flow {
    /// The jumps in its frame: to the next instruction, and to where a branch or a jump goes.
    pub jumps: [Option<Jump>; 2],
    /// The entries by a call or a system call.
    pub enter: Option<Enter>,
    /// The entry of the handler of misaligned accesses.
    pub aln: Option<Enter>,
    /// The interrupts that may be taken.
    pub irqs: ArrayVec<u8, 32>,
    /// The state at the entries of their handlers, with CCPN 0 instead of the priority.
    pub irq_entry: State,
    /// How the frame is left.
    pub leave: Leave,
}
