// Fast path: the last calls of several functions, whose entries are covered. With it `cert` takes
// a third of the instructions for 200 calls of 128 functions, if 15 sets of 128 words are known.
ghost use Rattle.std.specs.Prelude.{Contains, IfSome};
ghost use Rattle.depth_maker.specs.Covered.{IsCallOf};

use arrayvec::ArrayVec;
use depth_cert::Key;
use small_states::SmallKnown;

/// The greatest number of last calls: as many as address registers.
pub(crate) const MOST_CALLS: usize = 16;

/// A call of several functions of which all entries are covered.
#[derive(Drop)]
pub(crate) struct LastCall {
    /// The interrupt priority of the functions' frames.
    pub(crate) prio: u8,
    /// The functions run on the interrupt stack.
    pub(crate) is: bool,
    /// A state that is covered at each entry.
    pub(crate) entry: SmallKnown,
    /// The addresses of the functions.
    pub(crate) targets: ArrayVec<u32, 128>,
}

impl LastCall {
    /// Returns the cache entry for a call of the functions `targets` from the frame `key`: `entry`
    /// is a state that all their entries cover.
    pub(crate) fn of(key: &Key, targets: &ArrayVec<u32, 128>, entry: SmallKnown) -> LastCall
        ensures { IsCallOf result key.now targets.now.items entry }
    {
        let mut copy = ArrayVec::new();
        copy.try_extend_from_slice(targets.as_slice()).unwrap();
        LastCall {
            prio: key.prio,
            is: key.is,
            entry,
            targets: copy,
        }
    }
}

/// Returns the latest of these cached calls of exactly the functions `targets` from a frame with
/// the priority and stack of `key`, or `None`.
pub(crate) fn find_cached_call<'a>(
    calls: &'a [LastCall],
    key: &Key,
    targets: &ArrayVec<u32, 128>,
) -> Option<&'a LastCall>
    ensures { IfSome result (λ h. Contains calls.now h.now
        × IsCallOf h.now key.now targets.now.items h.now.entry) }
{
    for call in calls {
        if call.targets.as_slice() == targets.as_slice()
            && call.prio == key.prio
            && call.is == key.is
        {
            return Some(call);
        }
    }
    None
}
