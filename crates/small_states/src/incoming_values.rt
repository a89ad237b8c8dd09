// Lists of compact values: made from what flows in, compared with it, joined with it.
ghost use Rattle.std.specs.Prelude.{◌≡◌, ◌↔◌, IsTrue, IfOk, OnOk, length, ◌<◌, ◌-◌, ◌==◌, slice_index_or, ◌≤◌};
ghost use Rattle.value_domain.specs.State.{AreBelow, AreInLattice, AreWellFormed, joined_regs};
ghost use Rattle.vd_transfer.specs.Changes.{base_values, changed_values, with_write, state_after};
ghost use Rattle.vd_transfer.specs.EffectsOnStates.{with_lower_unknown};
ghost use Rattle.small_states.specs.Incoming.{sender_state, incoming_values, incoming_value_of};
ghost use Rattle.small_states.specs.CompactForms.{all_values};
ghost use Rattle.value_domain.specs.Values.{any_val};
ghost use Rattle.depth_cert.specs.Exits.{value_after_return, values_after_return};

use crate::SmallExit;
use crate::incoming::{Given, Incoming};
use crate::small_value::{Small, SmallForm};
use crate::values::Values;
use depth_cert::lower_register_value;
use std::alloc::{AllocError, Global};
use std::marker::Model;
use std::rc::Rc;
use value_domain::{A10_SLOT, Bounds, State, Val};
use vd_transfer::{Base, Change, RegisterWrite, is_lower_slot};

/// Returns a new compact list with a copy of each incoming register value. Never inlined, since a
/// whole value takes room on the stack.
#[inline(never)]
pub(crate) fn copy_incoming_values(alloc: Global, incoming: &Incoming) -> Result<Values, AllocError>
    ensures { IfOk result (λ values. all_values values ≡ incoming_values incoming.now) }
{
    let any = Small {
        form: SmallForm::Any,
    };
    let count = count_incoming_values(incoming);
    let mut values = Values {
        known: Vec::with_capacity(alloc, 0)?,
        rest: 0,
    };
    for i in 0..count {
        let value = Small::from_incoming(alloc, &incoming_value(&*incoming, &any, i))?;
        values.push_value(value)?;
    }
    Ok(values)
}

/// Returns the compact list of the incoming register values, made from `own`, the values at the
/// point that they flow from. A change that keeps all values shares `own`.
pub(crate) fn incoming_values_from_sender(
    alloc: Global,
    own: &Rc<Values>,
    incoming: &Incoming,
) -> Result<Rc<Values>, AllocError>
    requires { all_values own.now.value ≡ (sender_state incoming.now).regs }
    ensures { IfOk result (λ values. all_values values.value ≡ incoming_values incoming.now) }
{
    match incoming {
        Incoming::Changed(s, c) => values_after_change(alloc, own, s, c),
        _ => {
            let values = copy_sent_values(alloc, own.as_ref(), incoming)?;
            Ok(Rc::new(alloc, values)?)
        }
    }
}

/// Returns true if the value of `upper` at each index covers the incoming register value. Unknown
/// values of `upper`, which cover all, are skipped.
pub(crate) fn are_incoming_values_covered(upper: &Values, incoming: &Incoming) -> bool
    requires upper { AreWellFormed (all_values upper.now) }
    requires incoming { AreWellFormed (incoming_values incoming.now) }
    requires long { length (all_values upper.now) ≡ length (incoming_values incoming.now) }
    ensures { IsTrue result ↔ AreBelow (incoming_values incoming.now) (all_values upper.now) }
{
    let _count = count_incoming_values(incoming);
    let any = Small {
        form: SmallForm::Any,
    };
    let known = upper.known.as_slice();
    let mut at = 0;
    for n in 0..known.len() {
        let here = &known[n];
        let place = at + here.anys as usize;
        if !here
            .value
            .covers_incoming(&incoming_value(&*incoming, &any, place))
        {
            return false;
        }
        at = place + 1;
    }
    true
}

/// Returns the compact list of the least values, within the limits `b`, that cover the values of
/// `left` and the incoming ones at each index.
pub(crate) fn join_incoming_values(
    alloc: Global,
    b: &Bounds,
    left: &Values,
    incoming: &Incoming,
) -> Result<Values, AllocError>
    requires left { AreInLattice b.now (all_values left.now) }
    requires incoming { AreInLattice b.now (incoming_values incoming.now) }
    requires long { length (all_values left.now) ≡ length (incoming_values incoming.now) }
    ensures { IfOk result
        (λ values. all_values values
        ≡ joined_regs b.now (all_values left.now) (incoming_values incoming.now)) }
{
    let _count = count_incoming_values(incoming);
    let any = Small {
        form: SmallForm::Any,
    };
    let known = left.known.as_slice();
    let mut values = Values {
        known: Vec::with_capacity(alloc, known.len())?,
        rest: 0,
    };
    let mut at = 0;
    for n in 0..known.len() {
        let here = &known[n];
        let anys = here.anys;
        let place = at + anys as usize;
        let value = here
            .value
            .join_incoming(alloc, b, &incoming_value(&*incoming, &any, place))?;
        values.push_after_unknowns(anys, value)?;
        at = place + 1;
    }
    values.push_unknowns(left.rest);
    Ok(values)
}

/// Returns the incoming register value at the index `i`, of 27 for a state or 14 for an exit.
/// `any`, a compact unknown value, is returned for what isn't known.
#[inline(always)]
pub(crate) fn incoming_value<'a>(incoming: &'a Incoming, any: &'a Small, i: usize) -> Given<'a>
    requires place { i < length (incoming_values incoming.now) }
    requires any { any.now ≡ any_val }
    ensures { incoming_value_of result ≡ slice_index_or (incoming_values incoming.now) i any_val }
{
    match incoming {
        Incoming::Changed(s, c) => {
            let _regs = &s.regs[..];
            changed_state_value(s, c, any, i)
        }
        Incoming::After(s, exit, _) => {
            let _regs = &s.regs[..];
            value_after_return(s, exit, any, i)
        }
        Incoming::Leaving(s) => {
            let _regs = &s.regs[..];
            Given::Whole(lower_register_value(&s.regs, i))
        }
    }
}

/// Returns the compact list of values of the state `s` after the change `c`, from the list `own` of
/// `s`; shared if no value changes.
#[inline(always)]
fn values_after_change(
    alloc: Global,
    own: &Rc<Values>,
    s: &State,
    c: &Change,
) -> Result<Rc<Values>, AllocError>
    requires { all_values own.now.value ≡ s.now.regs }
    ensures { IfOk result (λ values. all_values values.value ≡ (state_after s.now c.now).regs) }
{
    let _regs = &s.regs[..];
    apply_change(alloc, own, c)
}

/// Returns a new compact list of the incoming register values. They are copied from `own`, the
/// values at the point that they flow from; after a return, lower registers come from the exit.
#[inline(never)]
fn copy_sent_values(alloc: Global, own: &Values, incoming: &Incoming) -> Result<Values, AllocError>
    requires { all_values own.now ≡ (sender_state incoming.now).regs }
    ensures { IfOk result (λ values. all_values values ≡ incoming_values incoming.now) }
{
    let mut values = Values {
        known: Vec::with_capacity(alloc, own.known.len())?,
        rest: 0,
    };
    match incoming {
        Incoming::Changed(_, _) => copy_incoming_values(alloc, incoming),
        Incoming::After(s, exit, _) => {
            let _regs = &s.regs[..];
            let lower = exit.lower.as_ref();
            values.extend_from_range(lower, 0, 8)?;
            values.extend_from_range(own, 8, 8)?;
            values.extend_from_range(lower, 8, 6)?;
            values.extend_from_range(own, A10_SLOT, 5)?;
            Ok(values)
        }
        Incoming::Leaving(s) => {
            let _regs = &s.regs[..];
            values.extend_from_range(own, 0, 8)?;
            values.extend_from_range(own, 16, 6)?;
            Ok(values)
        }
    }
}

/// Returns the compact list of the values `own` after the change `c`. If the change keeps all
/// values, `own` itself is shared.
#[inline(always)]
fn apply_change(alloc: Global, own: &Rc<Values>, c: &Change) -> Result<Rc<Values>, AllocError>
    requires { length (all_values own.now.value) ≡ 27 }
    ensures { IfOk result (λ values. all_values values.value
        ≡ changed_values c.now (all_values own.now.value)) }
{
    if c.first.at.is_none() && c.second.at.is_none() && c.third.at.is_none() {
        if let Base::Same = c.base {
            return own.clone();
        }
    }
    let mut values = base_values(alloc, own.as_ref(), c.base)?;
    apply_write(alloc, &mut values, &c.first)?;
    apply_write(alloc, &mut values, &c.second)?;
    apply_write(alloc, &mut values, &c.third)?;
    Ok(Rc::new(alloc, values)?)
}

/// Returns the compact list before the writes of a change, as `base` says: `own`, `own` with the
/// lower registers unknown, or only unknown values.
#[inline(always)]
fn base_values(alloc: Global, own: &Values, base: Base) -> Result<Values, AllocError>
    requires { length (all_values own.now) ≡ 27 }
    ensures { IfOk result (λ values. all_values values ≡ base_values base (all_values own.now)) }
{
    match base {
        Base::Same => own.copy(alloc),
        Base::Forgotten => without_lower_values(alloc, own),
        Base::Any => Ok(Values {
            known: Vec::with_capacity(alloc, 3)?,
            rest: 27,
        }),
    }
}

/// Sets the value of one write of a change in a compact list, if that write has a slot.
#[inline(always)]
fn apply_write(alloc: Global, values: &mut Values, write: &RegisterWrite) -> Result<(), AllocError>
    ensures { OnOk result (all_values values.new ≡ with_write (all_values values.old) write.now) }
{
    let Some(at) = write.at else {
        return Ok(());
    };
    let value = Small::from_value(alloc, &write.value)?;
    values.set_at_index(at, value)
}

/// Returns a copy of a state's compact values, with the lower registers (D0..D7, A2..A7) unknown.
#[inline(never)]
fn without_lower_values(alloc: Global, own: &Values) -> Result<Values, AllocError>
    requires { length (all_values own.now) ≡ 27 }
    ensures { IfOk result (λ values. all_values values ≡ with_lower_unknown (all_values own.now)) }
{
    let mut values = Values {
        known: Vec::with_capacity(alloc, own.known.len() + 1)?,
        rest: 8,
    };
    values.extend_from_range(own, 8, 8)?;
    values.push_unknowns(6);
    values.extend_from_range(own, A10_SLOT, 5)?;
    Ok(values)
}

/// Returns the value at an index of the state `s` after the change `c`. `any` is a compact unknown
/// value, for what the change forgets.
#[inline(always)]
fn changed_state_value<'a>(s: &'a State, c: &'a Change, any: &'a Small, i: usize) -> Given<'a>
    requires place { i < 27 }
    requires any { any.now ≡ any_val }
    ensures { incoming_value_of result ≡ slice_index_or (state_after s.now c.now).regs i any_val }
{
    let _regs = &s.regs[..];
    if c.third.at == Some(i) {
        return Given::Whole(&c.third.value);
    }
    if c.second.at == Some(i) {
        return Given::Whole(&c.second.value);
    }
    if c.first.at == Some(i) {
        return Given::Whole(&c.first.value);
    }
    base_value(s, c.base, any, i)
}

/// Returns the value at the index `i` of the caller's state `s` after a called frame returned with
/// this exit. `any` is a compact unknown value.
#[inline(always)]
fn value_after_return<'a>(s: &'a State, exit: &'a SmallExit, any: &'a Small, i: usize) -> Given<'a>
    requires place { i < 27 }
    requires any { any.now ≡ any_val }
    ensures { incoming_value_of result
        ≡ slice_index_or (values_after_return (all_values exit.now.lower.value) s.now.regs) i
        any_val }
{
    let _regs = &s.regs[..];
    lower_or_caller_value(i, exit, any, &s.regs[i])
}

/// Returns the value at the index `i` before a change's writes: that of `s`, or `any`, a compact
/// unknown value, if the register is forgotten.
#[inline(always)]
fn base_value<'a>(s: &'a State, base: Base, any: &'a Small, i: usize) -> Given<'a>
    requires place { i < 27 }
    requires any { any.now ≡ any_val }
    ensures { incoming_value_of result ≡ slice_index_or (base_values base s.now.regs) i any_val }
{
    let _regs = &s.regs[..];
    match base {
        Base::Same => Given::Whole(&s.regs[i]),
        Base::Forgotten => {
            if is_lower_slot(i) {
                Given::Compact(any)
            } else {
                Given::Whole(&s.regs[i])
            }
        }
        Base::Any => Given::Compact(any),
    }
}

/// Returns the value at the index `i` of a state after a return: the exit's for a lower register,
/// else `v`, the caller's. `any` is a compact unknown value.
#[inline(always)]
fn lower_or_caller_value<'a>(i: usize, exit: &'a SmallExit, any: &'a Small, v: &'a Val) -> Given<'a>
    requires { any.now ≡ any_val }
    ensures { incoming_value_of result
        ≡ value_after_return i (all_values exit.now.lower.value) v.now }
{
    if i < 8 {
        exit.lower.as_ref().value_or_any(any, i)
    } else if 16 <= i && i < 22 {
        exit.lower.as_ref().value_or_any(any, i - 8)
    } else {
        Given::Whole(v)
    }
}

/// Returns the number of incoming register values: 27 for a state, 14 for an exit.
pub(crate) fn count_incoming_values(incoming: &Incoming) -> usize
    ensures long { result ≡ length (incoming_values incoming.now) }
    ensures few { result ≤ 27 }
{
    match incoming {
        Incoming::Changed(s, _) => {
            let _regs = &s.regs[..];
            27
        }
        Incoming::After(s, _, _) => {
            let _regs = &s.regs[..];
            27
        }
        Incoming::Leaving(s) => {
            let _regs = &s.regs[..];
            14
        }
    }
}
