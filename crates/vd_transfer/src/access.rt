// The addresses of loads and stores.
ghost use Rattle.std.specs.Prelude.{◌≡◌};
ghost use Rattle.value_domain.specs.Values.{IsInLattice};
ghost use Rattle.value_domain.specs.State.{AreInLattice};
ghost use Rattle.tc_isa.specs.InBounds.{IsShapeInBounds, IsArgInBounds};
ghost use Rattle.vd_transfer.specs.EffectsOnStates.{address_of_access, address_by_mode};

use crate::operands::{Operation, write_arg};
use crate::operations::evaluate_operation;
use tc_isa::{Arg, Op, Shape};
use tcd_plan::Plan;
use value_domain::{Bounds, State, Val, write_any};

/// How the address of an access is computed: from a base and an offset, or from the base alone,
/// which is increased by the offset afterwards.
#[derive(Clone, Copy)]
pub(crate) struct Addressing {
    pub(crate) base: Arg,
    pub(crate) offset: u32,
    pub(crate) after: bool,
}

impl Addressing {
    /// Returns the addressing mode of a load or store: `base + offset` or, with `after`
    /// (post-increment), `base` alone, which grows by the offset afterwards.
    pub(crate) fn new(base: Arg, offset: u32, after: bool) -> Addressing
        ensures { result ≡ record { base = base; offset = offset; after = after } }
    {
        Addressing {
            base,
            offset,
            after,
        }
    }
}

/// Overwrites `out` with the addresses that a load or store of this shape may access in a state;
/// with any word for other shapes.
#[tactic(auto, unfolding(crate::specs::EffectsOnStates::address_of_access))]
pub fn write_address_by_shape(b: &Bounds, plan: &Plan, shape: Shape, s: &State, out: &mut Val)
    requires shape { IsShapeInBounds shape }
    requires values { AreInLattice b.now s.now.regs }
    ensures address { out.new ≡ address_of_access b.now plan.now shape s.now }
    ensures value { IsInLattice b.now out.new }
{
    let _most_words = b.most_words();
    match shape {
        Shape::Load {
            base,
            offset,
            after,
            ..
        } => write_address_by_mode(b, plan, s, Addressing::new(base, offset, after), out),
        Shape::Store {
            base,
            offset,
            after,
            ..
        } => write_address_by_mode(b, plan, s, Addressing::new(base, offset, after), out),
        _ => write_any(out),
    }
}

/// Returns the addresses that a load or store of this shape may access in a state, as one abstract
/// value; any word for other shapes.
#[inline(always)]
pub fn address_by_shape(b: &Bounds, plan: &Plan, shape: Shape, s: &State) -> Val
    requires shape { IsShapeInBounds shape }
    requires values { AreInLattice b.now s.now.regs }
    ensures address { result ≡ address_of_access b.now plan.now shape s.now }
    ensures value { IsInLattice b.now result }
{
    let mut out = Val::any();
    write_address_by_shape(b, plan, shape, s, &mut out);
    out
}

/// Overwrites `out` with the addresses of an access with the addressing mode `at`: base plus
/// offset, or the base alone with post-increment.
fn write_address_by_mode(b: &Bounds, plan: &Plan, s: &State, at: Addressing, out: &mut Val)
    requires base { IsArgInBounds at.base }
    requires values { AreInLattice b.now s.now.regs }
    ensures access { out.new ≡ address_by_mode b.now plan.now s.now at.base at.offset at.after }
    ensures value { IsInLattice b.now out.new }
{
    if at.after {
        write_arg(b, plan, s, at.base, out);
        return;
    }
    let of = Operation {
        op: Op::Add,
        x: at.base,
        y: Arg::Word(at.offset),
    };
    evaluate_operation(b, plan, s, of, out);
}
