// Counts the save areas in use, event by event.
// A recount of the chain is needed only if the effect of an event isn't known.
ghost use Rattle.std.specs.Prelude.{◌≡◌, ◌<◌, ◌+◌, ◌*◌, true, false, IfOk};
ghost use Rattle.tc_isa.specs.InBounds.{IsShapeInBounds, IsOneTwoOrFour};
ghost use Rattle.tc_machine.specs.declared.state.Machine.{Machine};
ghost use Rattle.tc_machine.specs.Fetching.{shape_at_pc};
ghost use Rattle.tc_machine.specs.Instructions.{is_trapping_access};
ghost use Rattle.tc_machine.specs.Stepping.{step, is_interrupt_taken};
ghost use Rattle.tc_script.specs.AreasInSequence.{CountsAreasInUse, KnowsAreasInSequence, SavesContext, RestoresContext, StoresBytes, KeepsMemoryAndPcxi, AreaEffectHolds, IsAreaEffectOf};

use csa_chain::address_of;
use tc_isa::Shape;
use tc_machine::{Cause, End, Event, Machine, is_trapping_access};

/// The number of areas in use, and whether they are known to be consecutive from the one with this
/// link on.
#[derive(Clone, Copy, Debug, PartialEq, Eq)]
pub(crate) struct AreasUsed {
    pub count: u32,
    pub in_row: bool,
    pub first: u32,
}

/// The effect of an event on the areas in use.
#[derive(Clone, Copy, Debug, PartialEq, Eq)]
pub(crate) enum Effect {
    Stays,
    Saves,
    Restores,
    Unknown,
}

/// Counts the save areas in use along the chain from PCXI, as 0 if the chain is broken. Whether
/// they are consecutive isn't examined: `in_row` is set only if there are none.
pub(crate) fn count_areas_in_use(m: &Machine) -> AreasUsed
    ensures { CountsAreasInUse result m.now }
{
    let count = m.used().unwrap_or(0);
    AreasUsed {
        count,
        in_row: m.pcxi % 0x10_0000 == 0,
        first: m.fcx % 0x10_0000,
    }
}

/// Returns the effect of an event on the save areas in use, if the machine still runs afterwards.
/// `used` counts them before the event; `found` is what the bytes at pc do.
pub(crate) fn area_effect_of_event(
    m: &Machine,
    event: &Event,
    found: &Result<(Shape, u32), Cause>,
    used: AreasUsed,
) -> Effect
    requires running { m.now.end ≡ End.Running }
    requires found { found.now ≡ shape_at_pc m.now }
    requires bounded { IfOk found.now (λ it. IsShapeInBounds it.0) }
    requires counted { CountsAreasInUse used m.now }
    ensures { (step m.now event.now).end ≡ End.Running
        → AreaEffectHolds result used (step m.now event.now) }
{
    let in_row = used.in_row;
    if !in_row {
        if m.preserves_areas(event, found) {
            return Effect::Stays;
        }
        return Effect::Unknown;
    }
    if is_event_interrupt_taken(m, event) {
        return area_effect_of_save(m, used);
    }
    match found {
        Ok((shape, _)) => area_effect_of_instruction(m, event, *shape, used),
        Err(_) => Effect::Unknown,
    }
}

/// Updates the count `used` of areas in use after an event with this effect. If the machine is dead
/// or the effect isn't known, the areas are counted again.
pub(crate) fn update_areas_in_use(m: &Machine, used: &mut AreasUsed, effect: Effect)
    requires { m.now.end ≡ End.Running → AreaEffectHolds effect used.old m.now }
    ensures { CountsAreasInUse used.new m.now }
{
    let End::Running = m.end else {
        *used = count_areas_in_use(m);
        return;
    };
    match effect {
        Effect::Stays => {}
        Effect::Saves => used.count += 1,
        Effect::Restores => used.count -= 1,
        Effect::Unknown => *used = count_areas_in_use(m),
    }
}

/// Returns true if the event's interrupt is taken, which saves a context to one more area.
fn is_event_interrupt_taken(m: &Machine, event: &Event) -> bool
    ensures { result ≡ is_interrupt_taken m.now event.now }
{
    m.ie && m.ccpn < event.irq
}

/// Returns the effect of saving a context on consecutive areas in use, which `used` counts. The
/// effect is one area more only if the first free area follows them, else unknown.
fn area_effect_of_save(m: &Machine, used: AreasUsed) -> Effect
    requires counted { CountsAreasInUse used m.now }
    requires row { KnowsAreasInSequence used }
    ensures { (after : Machine) → SavesContext m.now after → AreaEffectHolds result used after }
{
    let _pcxi = m.pcxi;
    let count = used.count;
    if count >= 4096 {
        return Effect::Unknown;
    }
    let free = m.fcx % 0x10_0000;
    let next = used.first + count;
    if free != next {
        return Effect::Unknown;
    }
    Effect::Saves
}

/// Returns the effect of an instruction on consecutive areas in use, which `used` counts. The
/// effect is right if the machine still runs afterwards.
fn area_effect_of_instruction(m: &Machine, event: &Event, shape: Shape, used: AreasUsed) -> Effect
    requires counted { CountsAreasInUse used m.now }
    requires row { KnowsAreasInSequence used }
    requires bounded { IsShapeInBounds shape }
    ensures { IsAreaEffectOf result used m.now event.now shape }
{
    match shape {
        Shape::Load {
            base,
            offset,
            size,
            after,
            ..
        } => {
            let addr = m.access_address(base, offset, after);
            area_effect_of_load(m, event, used, addr, size)
        }
        Shape::Store {
            base,
            offset,
            size,
            after,
            ..
        } => {
            let addr = m.access_address(base, offset, after);
            area_effect_of_store_or_trap(m, event, used, addr, size)
        }
        Shape::Compute { .. } => Effect::Stays,
        Shape::Scaled { .. } => Effect::Stays,
        Shape::Branch { .. } => Effect::Stays,
        Shape::Jump { .. } => Effect::Stays,
        Shape::Mfcr { .. } => Effect::Stays,
        Shape::Enable => Effect::Stays,
        Shape::Disable => Effect::Stays,
        Shape::Nothing => Effect::Stays,
        _ => area_effect_of_context_op(m, event, shape, used),
    }
}

/// Returns the effect of a load on consecutive areas in use, which `used` counts: none, or that of
/// saving a context if the load traps.
fn area_effect_of_load(m: &Machine, event: &Event, used: AreasUsed, addr: u32, size: u8) -> Effect
    requires counted { CountsAreasInUse used m.now }
    requires row { KnowsAreasInSequence used }
    requires size { IsOneTwoOrFour size }
    ensures { (after : Machine)
        → (is_trapping_access event.now addr size ≡ true → SavesContext m.now after)
        → (is_trapping_access event.now addr size ≡ false → KeepsMemoryAndPcxi m.now after)
        → AreaEffectHolds result used after }
{
    if is_trapping_access(event, addr, size) {
        area_effect_of_save(m, used)
    } else {
        Effect::Stays
    }
}

/// Returns the effect of a store on consecutive areas in use, which `used` counts. If the store
/// traps, the effect is that of saving a context.
fn area_effect_of_store_or_trap(
    m: &Machine,
    event: &Event,
    used: AreasUsed,
    addr: u32,
    size: u8,
) -> Effect
    requires counted { CountsAreasInUse used m.now }
    requires row { KnowsAreasInSequence used }
    requires size { IsOneTwoOrFour size }
    ensures { (after : Machine)
        → (is_trapping_access event.now addr size ≡ true → SavesContext m.now after)
        → (is_trapping_access event.now addr size ≡ false → StoresBytes addr size m.now after)
        → AreaEffectHolds result used after }
{
    if is_trapping_access(event, addr, size) {
        area_effect_of_save(m, used)
    } else {
        area_effect_of_store(m, used, addr, size)
    }
}

/// Returns the effect of an instruction that saves or restores a context on consecutive areas in
/// use, which `used` counts. The effect of other instructions is unknown.
fn area_effect_of_context_op(m: &Machine, event: &Event, shape: Shape, used: AreasUsed) -> Effect
    requires counted { CountsAreasInUse used m.now }
    requires row { KnowsAreasInSequence used }
    ensures { IsAreaEffectOf result used m.now event.now shape }
{
    match shape {
        Shape::Call { .. } => area_effect_of_save(m, used),
        Shape::Svlcx => area_effect_of_save(m, used),
        Shape::Bisr { .. } => area_effect_of_save(m, used),
        Shape::Syscall { .. } => area_effect_of_save(m, used),
        Shape::Ret => area_effect_of_restore(m, used),
        Shape::Rfe => area_effect_of_restore(m, used),
        Shape::Rslcx => area_effect_of_restore(m, used),
        _ => Effect::Unknown,
    }
}

/// Returns the effect of an untrapped store on consecutive areas in use, which `used` counts: none
/// if the store misses the areas, else unknown. Stores above FFFFF000 may wrap, so their effect is
/// unknown.
fn area_effect_of_store(m: &Machine, used: AreasUsed, addr: u32, size: u8) -> Effect
    requires counted { CountsAreasInUse used m.now }
    requires row { KnowsAreasInSequence used }
    ensures { (after : Machine) → StoresBytes addr size m.now after
        → AreaEffectHolds result used after }
{
    let count = used.count;
    if addr > 0xFFFF_F000 {
        return Effect::Unknown;
    }
    if count == 0 {
        return Effect::Stays;
    }
    let end = addr + u32::from(size);
    let low = address_of(used.first);
    if end <= low {
        return Effect::Stays;
    }
    let last = address_of(m.pcxi % 0x10_0000);
    let high = last + 64;
    if high <= addr {
        return Effect::Stays;
    }
    Effect::Unknown
}

/// Returns the effect of restoring a context on consecutive areas in use, which `used` counts: one
/// area less, or unknown if there are none.
fn area_effect_of_restore(m: &Machine, used: AreasUsed) -> Effect
    requires counted { CountsAreasInUse used m.now }
    requires row { KnowsAreasInSequence used }
    ensures { (after : Machine) → RestoresContext m.now after → AreaEffectHolds result used after }
{
    let count = used.count;
    if count == 0 {
        return Effect::Unknown;
    }
    Effect::Restores
}
