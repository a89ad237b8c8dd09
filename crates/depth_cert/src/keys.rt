// Kinds of frames, and the keys of nodes.
ghost use Rattle.std.specs.Prelude.{◌≡◌, ◌-◌, ◌+◌};
ghost use Rattle.depth_cert.specs.Keys.{key_kind_text, number_of_key, key_number};

/// The kind of the frame in which a run starts.
pub const START: u8 = 0;

/// The kind of frames of called functions.
pub const CALL: u8 = 1;

/// The kind of frames of handlers of interrupts.
pub const IRQ: u8 = 2;

/// The kind of frames of handlers of system calls.
pub const SYS: u8 = 3;

/// The kind of frames of handlers of misaligned accesses.
pub const ALN: u8 = 4;

/// Returns the name of a key's kind of frame (`START` to `ALN`): `start`, `call`, `irq`, `sys` or
/// `aln`, each with a blank at its end.
#[tactic(auto, unfolding(crate::specs::Keys::key_kind_text))]
#[inline]
pub fn key_kind_text(kind: u8) -> &'static str
    ensures { result.now ≡ key_kind_text kind }
{
    match kind {
        START => "start ",
        CALL => "call ",
        IRQ => "irq ",
        SYS => "sys ",
        _ => "aln ",
    }
}

/// The key of a node. Keys are ordered by these four fields, in this order.
#[derive(Clone, Copy, Debug, PartialEq, Eq, PartialOrd, Ord, Hash)]
pub struct Key {
    /// The kind of frame: `START` to `ALN`.
    pub kind: u8,
    /// The address of its first instruction.
    pub entry: u32,
    /// The priority of the innermost interrupt, 0 for none.
    pub prio: u8,
    /// The frame runs on the interrupt stack (PSW.IS).
    pub is: bool,
}

/// Returns a key as one number: certificates list their nodes in ascending order of these numbers.
pub fn key_number(key: &Key) -> u64
    ensures { result ≡ number_of_key key.now }
{
    key_number_of_fields(key.kind, key.entry, key.prio, if key.is { 1 } else { 0 })
}

/// Packs the parts of a node's key into one number. From the most significant: kind (`START` to
/// `ALN`), entry address, interrupt priority, PSW.IS (0 or 1).
pub(crate) fn key_number_of_fields(kind: u8, entry: u32, prio: u8, is: u8) -> u64
    ensures { result ≡ key_number kind entry prio is }
{
    ((u64::from(kind) * 4_294_967_296 + u64::from(entry)) * 256 + u64::from(prio)) * 256
        + u64::from(is)
}
