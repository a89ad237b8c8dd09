// Entries of frames that are known to be covered.
use crate::interrupt_contexts::LastInterrupts;
use crate::last_call::LastCall;

/// What was asked for last at the entries of frames, and is covered since then.
#[derive(Drop)]
pub(crate) struct CoveredEntries {
    /// The last contexts of interrupts.
    pub(crate) interrupts: LastInterrupts,
    /// The last calls of several functions, the last one first.
    pub(crate) calls: Vec<LastCall>,
}
