// The keys of frames.
ghost use Rattle.std.specs.Prelude.{◌≡◌};
ghost use Rattle.cfg_recover.specs.Entries as entries;

use depth_cert::{ALN, CALL, IRQ, Key, SYS};
use tcd_plan::Plan;

/// The place of the handler of system calls, class 6, in the vector table of traps.
pub(crate) const SYS_VECTOR: u32 = 6 * 32;

/// The place of the handler of misaligned accesses, class 2, in the vector table of traps.
pub(crate) const ALN_VECTOR: u32 = 2 * 32;

/// Returns the key of the frame that the frame of `key` enters at `entry`: by a call (`kind` CALL),
/// a system call (SYS) or a misaligned access (ALN). Handlers run on the interrupt stack, a called
/// function on its caller's.
pub fn entered_key(key: &Key, kind: u8, entry: u32) -> Key
    ensures { result ≡ entries.entered_key key.now kind entry }
{
    Key {
        kind,
        entry,
        prio: key.prio,
        is: if kind == CALL { key.is } else { true },
    }
}

/// Returns the key of the handler of system calls that a frame of this key enters.
pub fn sys_key(plan: &Plan, key: &Key) -> Key
    ensures { result ≡ entries.sys_key plan.now key.now }
{
    entered_key(key, SYS, plan.btv | SYS_VECTOR)
}

/// Returns the key of the handler of misaligned accesses that a frame of this key enters.
pub fn aln_key(plan: &Plan, key: &Key) -> Key
    ensures { result ≡ entries.aln_key plan.now key.now }
{
    entered_key(key, ALN, plan.btv | ALN_VECTOR)
}

/// Returns the key of the handler of interrupts of this priority.
pub fn irq_key(plan: &Plan, prio: u8) -> Key
    ensures { result ≡ entries.irq_key plan.now prio }
{
    Key {
        kind: IRQ,
        entry: plan.biv | u32::from(prio) * 32,
        prio,
        is: true,
    }
}
