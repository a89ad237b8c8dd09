// Points of a frame, and its exit.
use value_domain::{State, Val};

/// What is known after a call or a system call has returned.
#[derive(Drop)]
pub struct Exit {
    /// Interrupts may be enabled.
    pub ie: bool,
    /// CCPN is at least this.
    pub ccpn: u8,
    /// The values of the lower registers D0 to D7 and A2 to A7.
    pub lower: [Val; 14],
}

/// An address, and the state before its instruction.
#[derive(Drop)]
pub struct Point {
    pub addr: u32,
    pub state: State,
}
