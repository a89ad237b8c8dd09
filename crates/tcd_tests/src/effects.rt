//! Worked effects on the values of the board.
ghost use Rattle.std.specs.Prelude.{IsTrue};
ghost use Rattle.tc_isa.specs.Meanings.{shape_of};
ghost use Rattle.value_domain.specs.State.{AreInLattice};
ghost use Rattle.value_domain.specs.Values.{IsInLattice};
ghost use Rattle.vd_transfer.specs.EffectsOnStates.{LocalsFitInstruction};

use crate::asserts::{is_so, same};
use crate::boards::board;
use crate::states::{open, with};
use std::test::Fail;
use tc_isa::{Inst, Shape, inst, shape};
use tcd_plan::Plan;
use value_domain::{Bounds, State, Val, cover_words};
use vd_transfer::{address, refine, reg, transfer};

/// Whether an instruction computes or loads, and so needs no room for a lower context.
fn needs_no_room(b: &Bounds, inst: &Inst, s: &State) -> bool
    ensures { IsTrue result → LocalsFitInstruction b.now (shape_of inst.now) s.now }
{
    match shape(inst) {
        Shape::Compute { .. } => true,
        Shape::Load { .. } => true,
        _ => false,
    }
}

/// The state after an instruction that computes or loads.
fn after(b: &Bounds, plan: &Plan, inst: &Inst, s: &State, loaded: &Val) -> Option<State>
    requires values { AreInLattice b.now s.now.regs }
    requires loaded { IsInLattice b.now loaded.now }
{
    if needs_no_room(b, inst, s) {
        Some(transfer(b, plan, inst, s, loaded))
    } else {
        None
    }
}

#[test]
fn adds_with_a_wrap(rt: HostRuntime) -> Result<(), Fail> {
    let plan = board(&rt, &[])?;
    let b = Bounds::of(&plan, 1);
    let s = with(&b, open(&b), 0, &[u32::MAX]);
    let s = with(&b, s, 1, &[1]);

    // add d2, d0, d1
    let add = inst(9, 2, 0, 1, 0, 0).ok_or("not listed")?;
    let t = after(&b, &plan, &add, &s, &cover_words(&b, &[0])).ok_or("another shape")?;
    same(&rt, &t.regs[2].words().ok_or("a span")?, &[0].as_slice());
    is_so(&rt, !t.lower);
    same(
        &rt,
        &reg(&plan, &t, 16).words().ok_or("a span")?,
        &[0].as_slice(),
    );
    Ok(())
}

#[test]
fn keeps_the_smaller_words(rt: HostRuntime) -> Result<(), Fail> {
    let plan = board(&rt, &[])?;
    let b = Bounds::of(&plan, 1);
    let s = with(&b, open(&b), 1, &[64]);

    // jge.u d0, d1, .
    let jump = inst(95, 0, 0, 1, 0, 0).ok_or("not listed")?;
    let t = refine(&b, &plan, &jump, &s, false).ok_or("impossible")?;
    let words = t.regs[0].words().ok_or("a span")?;
    assert!(rt; words.len() == 64);
    same(&rt, &words[0], &0);
    same(&rt, &words[63], &63);
    let none = with(&b, s, 1, &[0]);
    is_so(&rt, refine(&b, &plan, &jump, &none, false).is_none());
    Ok(())
}

#[test]
fn loads_from_an_offset(rt: HostRuntime) -> Result<(), Fail> {
    let plan = board(&rt, &[])?;
    let b = Bounds::of(&plan, 1);
    let s = with(&b, open(&b), 16, &[0xD000_8004]);

    // ld.w.l d1, [a2]-4
    let load = inst(81, 0, 1, 2, 0, 0xfffc).ok_or("not listed")?;
    let at = address(&b, &plan, &load, &s);
    same(&rt, &at.words().ok_or("a span")?, &[0xD000_8000].as_slice());
    let t = after(&b, &plan, &load, &s, &cover_words(&b, &[7])).ok_or("another shape")?;
    same(&rt, &t.regs[1].words().ok_or("a span")?, &[7].as_slice());
    Ok(())
}
