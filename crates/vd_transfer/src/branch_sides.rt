// The change of a state on a side of a branch.
ghost use Rattle.std.specs.Prelude.{◌≡◌, ◌<◌, Some, None};
ghost use Rattle.value_domain.specs.Values.{IsInLattice, word_val};
ghost use Rattle.value_domain.specs.State.{AreInLattice};
ghost use Rattle.tc_isa.specs.InBounds.{IsArgInBounds, IsShapeInBounds};
ghost use Rattle.tc_isa.specs.declared.shapes.Arg.TheVariants.{Word};
ghost use Rattle.vd_transfer.specs.Refinement.{is_side_taken};
ghost use Rattle.vd_transfer.specs.Relations.{operand_relation};
ghost use Rattle.vd_transfer.specs.Branches.{is_side_taken_by_equal_words, narrowed_left_value, refine_of, state_if_possible, state_narrowed_by_values, state_with_narrowed_register, state_on_side, with_decremented_counter, with_decremented_register};
ghost use Rattle.vd_transfer.specs.Registers.{reg_of, arg_of};
ghost use Rattle.vd_transfer.specs.Changes.{state_after};

use crate::change::{Change, set_third_write_slot};
use crate::changed_states::changed_reg;
use crate::operands::{arg_word, build_arg, constant_value, is_same_register, write_constant};
use crate::operations::write_operation_value;
use crate::refinement::{Relation, refine_both_operands, refine_left_operand};
use crate::registers::{reg_in_lattice, reg_in_state, register_slot};
use tc_isa::{Arg, Cond, Op, Shape, taken};
use tcd_plan::Plan;
use value_domain::{Bounds, State, Val};

/// A side of a branch's condition, with the register and the operand that it compares.
#[derive(Clone, Copy)]
pub(crate) struct Comparison {
    pub(crate) cond: Cond,
    pub(crate) side: bool,
    x: u8,
    pub(crate) y: Arg,
}

/// Returns the relation between the operands of a branch that is taken (`side` is true) or isn't.
#[tactic(auto, unfolding(crate::specs::Relations::operand_relation))]
pub(crate) fn operand_relation(cond: Cond, side: bool) -> Relation
    ensures { result ≡ operand_relation cond side }
{
    match cond {
        Cond::Eq => {
            if side {
                Relation::Same
            } else {
                Relation::Other
            }
        }
        Cond::Ne => {
            if side {
                Relation::Other
            } else {
                Relation::Same
            }
        }
        Cond::Lt | Cond::LtU => {
            if side {
                Relation::Less
            } else {
                Relation::AtLeast
            }
        }
        Cond::Ge | Cond::GeU => {
            if side {
                Relation::AtLeast
            } else {
                Relation::Less
            }
        }
    }
}

/// Returns true if a branch that compares a word with itself goes to this side (true: taken).
#[tactic(auto, unfolding(crate::specs::Branches::is_side_taken_by_equal_words))]
fn is_side_taken_by_equal_words(cond: Cond, side: bool) -> bool
    ensures { result ≡ is_side_taken_by_equal_words cond side }
{
    match cond {
        Cond::Eq | Cond::Ge | Cond::GeU => side,
        Cond::Ne | Cond::Lt | Cond::LtU => !side,
    }
}

/// Returns true if a branch that compares `x` and `y` goes to this side: the taken edge if `side`
/// is true, else the fall-through edge.
fn is_side_taken(cond: Cond, side: bool, x: u32, y: u32) -> bool
    ensures { result ≡ is_side_taken cond side x y }
{
    if side {
        taken(cond, x, y)
    } else {
        !taken(cond, x, y)
    }
}

// The functions below write the change of a side into the caller's `Change`, whatever it held.

/// Writes into `c` how a side of a branch changes `s`: the left register keeps only members of `v`
/// that some member of `w` allows. Returns false if there are none.
pub(crate) fn narrow_left_register(
    b: &Bounds,
    test: Comparison,
    s: &State,
    v: &Val,
    w: &Val,
    c: &mut Change,
) -> bool
    requires values { AreInLattice b.now s.now.regs }
    requires left { IsInLattice b.now v.now }
    requires right { IsInLattice b.now w.now }
    ensures one { state_if_possible result (state_after s.now c.new)
        ≡ state_with_narrowed_register s.now test.x
        (narrowed_left_value b.now test.cond test.side v.now w.now) }
    ensures values { AreInLattice b.now (state_after s.now c.new).regs }
    ensures free { (c.new.second.at ≡ None) × (c.new.third.at ≡ None) }
{
    c.set_to_identity(s);
    if !refine_left_operand(b, test, v, w, &mut c.first.value) {
        return false;
    }
    c.first.at = register_slot(test.x);
    true
}

/// Writes into `c` how a branch changes a state, if taken (`side` is true) or if not. Returns false
/// if the side isn't possible or the shape is no branch.
#[tactic(auto, unfolding(crate::specs::Branches::refine_of))]
pub fn write_branch_change(
    b: &Bounds,
    plan: &Plan,
    shape: Shape,
    s: &State,
    side: bool,
    c: &mut Change,
) -> bool
    requires shape { IsShapeInBounds shape }
    requires values { AreInLattice b.now s.now.regs }
    ensures refine { state_if_possible result (state_after s.now c.new)
        ≡ refine_of b.now plan.now shape s.now side }
    ensures values { AreInLattice b.now (state_after s.now c.new).regs }
{
    match shape {
        Shape::Branch {
            cond,
            x,
            y,
            lowers,
            ..
        } => write_comparison_change(b, plan, Comparison { cond, side, x, y }, lowers, s, c),
        _ => {
            c.set_to_identity(s);
            false
        }
    }
}

/// Writes into `c` how a branch with this comparison changes a state on a side. A `loop` (`lowers`)
/// also decrements its counter. Returns false if the side isn't possible.
fn write_comparison_change(
    b: &Bounds,
    plan: &Plan,
    test: Comparison,
    lowers: bool,
    s: &State,
    c: &mut Change,
) -> bool
    requires operands { (test.x < 32) × IsArgInBounds test.y }
    requires values { AreInLattice b.now s.now.regs }
    ensures refine { state_if_possible result (state_after s.now c.new)
        ≡ with_decremented_counter b.now plan.now test.x lowers
        (state_on_side b.now plan.now test.cond test.x test.y s.now test.side) }
    ensures values { AreInLattice b.now (state_after s.now c.new).regs }
{
    if !narrow_operands(b, plan, test, s, c) {
        return false;
    }
    decrement_if_loop(b, plan, test.x, lowers, s, c);
    true
}

/// Writes into `c` how a branch's comparison narrows its operands on a side. Returns false if the
/// side isn't possible. Two operands of one word each stay as they are.
fn narrow_operands(b: &Bounds, plan: &Plan, test: Comparison, s: &State, c: &mut Change) -> bool
    requires operands { (test.x < 32) × IsArgInBounds test.y }
    requires values { AreInLattice b.now s.now.regs }
    ensures refined { state_if_possible result (state_after s.now c.new)
        ≡ state_on_side b.now plan.now test.cond test.x test.y s.now test.side }
    ensures values { AreInLattice b.now (state_after s.now c.new).regs }
    ensures free { c.new.third.at ≡ None }
{
    let _most_words = b.most_words();
    let _globals = &plan.globals;
    if is_same_register(test.x, test.y) {
        c.set_to_identity(s);
        return is_side_taken_by_equal_words(test.cond, test.side);
    }
    match arg_word(b, plan, s, Arg::Reg(test.x)) {
        Some(x) => match arg_word(b, plan, s, test.y) {
            Some(y) => {
                c.set_to_identity(s);
                is_side_taken(test.cond, test.side, x, y)
            }
            None => narrow_by_values(b, plan, test, s, c),
        },
        None => narrow_by_values(b, plan, test, s, c),
    }
}

/// Adds to a branch's change the decrement of its counter register `x` by 1 if the branch is a
/// `loop` instruction, as `lowers` says.
fn decrement_if_loop(b: &Bounds, plan: &Plan, x: u8, lowers: bool, s: &State, c: &mut Change)
    requires register { x < 32 }
    requires values { AreInLattice b.now (state_after s.now c.old).regs }
    requires free { c.old.third.at ≡ None }
    ensures lowered { Some (state_after s.now c.new)
        ≡ with_decremented_counter b.now plan.now x lowers (Some (state_after s.now c.old)) }
    ensures values { AreInLattice b.now (state_after s.now c.new).regs }
{
    if lowers {
        decrement_register(b, plan, x, s, c);
    }
}

/// Writes into `c` how a side of a branch narrows its operands by their abstract values, which
/// aren't copied if the state has them. Returns false if the side isn't possible.
fn narrow_by_values(b: &Bounds, plan: &Plan, test: Comparison, s: &State, c: &mut Change) -> bool
    requires operands { (test.x < 32) × IsArgInBounds test.y }
    requires values { AreInLattice b.now s.now.regs }
    ensures two { state_if_possible result (state_after s.now c.new)
        ≡ state_narrowed_by_values b.now test.cond test.side test.x test.y s.now
        (reg_of plan.now s.now test.x) (arg_of plan.now s.now test.y) }
    ensures values { AreInLattice b.now (state_after s.now c.new).regs }
    ensures free { c.new.third.at ≡ None }
{
    match reg_in_state(b, plan, s, test.x) {
        Some(v) => match test.y {
            Arg::Word(z) => narrow_against_constant(b, test, s, v, z, c),
            Arg::Reg(r) => match reg_in_state(b, plan, s, r) {
                Some(w) => refine_both_operands(b, test, s, v, w, c),
                None => narrow_built_operands(b, plan, test, s, c),
            },
        },
        None => narrow_built_operands(b, plan, test, s, c),
    }
}

/// Writes into `c` how a branch narrows `v`, the value of the register compared with the constant
/// `z`, on a side. Returns false if no member is possible.
fn narrow_against_constant(
    b: &Bounds,
    test: Comparison,
    s: &State,
    v: &Val,
    z: u32,
    c: &mut Change,
) -> bool
    requires values { AreInLattice b.now s.now.regs }
    requires left { IsInLattice b.now v.now }
    ensures two { state_if_possible result (state_after s.now c.new)
        ≡ state_narrowed_by_values b.now test.cond test.side test.x (Word z) s.now v.now
        (word_val z) }
    ensures values { AreInLattice b.now (state_after s.now c.new).regs }
    ensures free { c.new.third.at ≡ None }
{
    c.set_to_identity(s);
    write_constant(b, z, &mut c.second.value);
    if !refine_left_operand(b, test, v, &c.second.value, &mut c.first.value) {
        return false;
    }
    c.first.at = register_slot(test.x);
    true
}

/// Narrows as `narrow_by_values` does, for an operand without a value in the state: both values are
/// built first. Never inlined, as values take room on the stack.
#[inline(never)]
fn narrow_built_operands(
    b: &Bounds,
    plan: &Plan,
    test: Comparison,
    s: &State,
    c: &mut Change,
) -> bool
    requires operands { (test.x < 32) × IsArgInBounds test.y }
    requires values { AreInLattice b.now s.now.regs }
    ensures two { state_if_possible result (state_after s.now c.new)
        ≡ state_narrowed_by_values b.now test.cond test.side test.x test.y s.now
        (reg_of plan.now s.now test.x) (arg_of plan.now s.now test.y) }
    ensures values { AreInLattice b.now (state_after s.now c.new).regs }
    ensures free { c.new.third.at ≡ None }
{
    let v = reg_in_lattice(b, plan, s, test.x);
    refine_both_operands(b, test, s, &v, &build_arg(b, plan, s, test.y), c)
}

/// Adds to `c`, a branch's change of `s`, the decrement of a `loop`'s counter register `x` by 1.
#[inline(never)]
fn decrement_register(b: &Bounds, plan: &Plan, x: u8, s: &State, c: &mut Change)
    requires register { x < 32 }
    requires values { AreInLattice b.now (state_after s.now c.old).regs }
    requires free { c.old.third.at ≡ None }
    ensures lowered { state_after s.now c.new
        ≡ with_decremented_register b.now plan.now x (state_after s.now c.old) }
    ensures values { AreInLattice b.now (state_after s.now c.new).regs }
{
    let v = changed_reg(b, plan, s, c, x);
    write_operation_value(b, Op::Sub, &v, &constant_value(b, 1), &mut c.third.value);
    set_third_write_slot(b, s, c, x);
}
