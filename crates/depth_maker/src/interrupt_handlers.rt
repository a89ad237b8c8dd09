// The frames of the handlers of interrupts, by their numbers.
ghost use Rattle.std.specs.Prelude.{◌≡◌, ◌≤◌, ◌<◌, ◌+◌, ◌++◌, ◌∷◌, [], List, IfOk, OnOk, length, vec_len, vec_capacity};
ghost use Rattle.depth_cert.specs.declared.keys.Key.{Key};
ghost use Rattle.frame_places.specs.Numbers.{AreNumbersOfFrames};
ghost use Rattle.depth_maker.specs.InterruptHandlers.{AreHandlersOfIrqs, handler_nodes_above, handler_nodes_if_enabled};

use cfg_recover::irq_key;
use depth_cert::Key;
use frame_places::frame_number;
use indexmap::IndexMap;
use std::alloc::{AllocError, Global};
use tcd_plan::Plan;

/// A handler: the priority of its interrupt, and the number of its frame.
#[derive(Drop)]
pub(crate) struct Handler {
    prio: u8,
    node: usize,
}

/// Returns the handler of each interrupt of the plan: the interrupt's priority, and the number of
/// the handler's frame, which `numbers` gives by key.
pub(crate) fn irq_handlers(
    alloc: Global,
    plan: &Plan,
    numbers: &IndexMap<Key, usize>,
) -> Result<Vec<Handler>, AllocError>
    ensures { IfOk result (λ handlers. (frames : List Key)
        → AreNumbersOfFrames numbers.now frames
        → AreHandlersOfIrqs plan.now frames plan.now.irqs handlers.items) }
{
    let irqs = plan.irqs.as_slice();
    let mut handlers = Vec::new(alloc);
    for p in irqs {
        let node = frame_number(numbers, irq_key(plan, *p));
        handlers.push(Handler { prio: *p, node })?;
    }
    Ok(handlers)
}

/// Appends to `into` the frame numbers of the interrupt handlers that a point may enter: those
/// above priority `ccpn` if `ie`, else none.
pub(crate) fn append_handlers_if_enabled(
    into: &mut Vec<usize>,
    ie: bool,
    ccpn: u8,
    handlers: &[Handler],
) -> Result<(), AllocError>
    ensures { OnOk result (into.new.items ≡ into.old.items
        ++ handler_nodes_if_enabled ie ccpn handlers.now) }
{
    if !ie {
        return Ok(());
    }
    into.reserve(handlers.len())?;
    append_handlers_above(into, ccpn, handlers);
    Ok(())
}

/// Appends to `into`, which has room, the frame number of the handler of each interrupt with a
/// priority above `ccpn`.
#[inline(always)]
fn append_handlers_above(into: &mut Vec<usize>, ccpn: u8, handlers: &[Handler])
    requires { vec_len into.old + length handlers.now ≤ vec_capacity into.old }
    ensures { into.new.items ≡ into.old.items ++ handler_nodes_above ccpn handlers.now }
{
    for h in handlers {
        append_handler_if_above(into, ccpn, h);
    }
}

/// Appends the frame number of `handler` to `into`, which has room, if its interrupt's priority is
/// above `ccpn`.
#[inline(always)]
fn append_handler_if_above(into: &mut Vec<usize>, ccpn: u8, handler: &Handler)
    requires { vec_len into.old < vec_capacity into.old }
    ensures items { into.new.items ≡ into.old.items ++ handler_nodes_above ccpn (handler.now ∷ []) }
    ensures few { vec_len into.new ≤ vec_len into.old + 1 }
    ensures capacity { vec_capacity into.new ≡ vec_capacity into.old }
{
    if handler.prio <= ccpn {
        return;
    }
    into.push_reserved(handler.node);
}
