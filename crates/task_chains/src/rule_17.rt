// K17: the test at a point of a view's certificate.
ghost use Rattle.std.specs.Prelude.{◌↔◌, IsTrue, ◌≡◌, ◌≤◌, ◌<◌, ◌+◌, ◌-◌, ◌*◌, ◌/◌, ◌^◌, ℕ};
ghost use Rattle.value_domain.specs.State.{AreInLattice};
ghost use Rattle.task_chains.specs.Rule17.{KeepsRule17AtPoint, AreAccessesOutside, LoadMissesAreasAndRoutine, ReadsNoContextRegister, IsNoBisr, KeepsRule17ByShape, HasAccessBetween, MayHavePointAt};
ghost use Rattle.tc_isa.specs.InBounds.{IsShapeInBounds};
ghost use Rattle.value_domain.specs.Sets.{Among};
ghost use Rattle.value_domain.specs.Values.{IsWellFormed};
ghost use Rattle.store_ranges.specs.Accesses.{IsAccessSize};

use crate::Tasks;
use crate::routine::{ROUTINE_BYTES, is_routine_instruction};
use cfg_recover::KnownCodes;
use depth_cert::{CALL, Key};
use elf_image::Image;
use tc_isa::{FCX, LCX, PCXI, Shape};
use tcd_plan::Plan;
use value_domain::{Bounds, State, Val};
use vd_transfer::address_by_shape;

/// The number of the rule on tasks: the code of a task keeps apart from what its view hides.
pub const TASKS_RULE: u8 = 17;

/// What K17 is judged by: the image and the plan of a task's view.
#[derive(Drop)]
pub(crate) struct TasksRule<'a> {
    pub(crate) bounds: &'a Bounds,
    pub(crate) view: &'a Image,
    pub(crate) plan: &'a Plan,
    pub(crate) tasks: &'a Tasks,
}

/// Returns whether K17, the rule on what a task must leave alone, holds at address `addr` of the
/// frame `key` with state `s`. `codes` caches decoded instructions.
pub(crate) fn keeps_rule_17(
    rule: &TasksRule,
    codes: &mut KnownCodes,
    key: &Key,
    addr: u32,
    s: &State,
) -> bool
    requires { AreInLattice rule.now.bounds.now s.now.regs }
    ensures { let r = rule.now in
        IsTrue result
        ↔ KeepsRule17AtPoint r.bounds.now r.view.now r.plan.now r.tasks.now key.now
        (record { addr = addr; state = s.now }) }
{
    match codes.decode_cached(rule.view, rule.plan, addr) {
        Some(found) => keeps_rule_17_by_shape(rule, key, addr, s, found.shape),
        None => true,
    }
}

/// Returns whether accesses of `size` bytes at all possible addresses `at` miss the `len` bytes
/// from `from` on, the save areas or the switch routine.
pub(crate) fn are_accesses_outside(at: &Val, size: u8, from: u32, len: u32) -> bool
    requires at { IsWellFormed at.now }
    requires size { IsAccessSize size }
    requires some { 0 < len }
    ensures { IsTrue result ↔ AreAccessesOutside at.now size from len }
{
    let below = u32::from(size) - 1;
    let last = from.saturating_add(len - 1);
    if has_access_between(at, from.saturating_sub(below), last) {
        return false;
    }
    if below <= from {
        return true;
    }
    !has_access_between(at, from.wrapping_sub(below), 0xFFFF_FFFF)
}

/// Returns whether an instruction of this shape keeps K17 (what a task must leave alone) at address
/// `addr` of the frame `key` with state `s`.
pub(crate) fn keeps_rule_17_by_shape(
    rule: &TasksRule,
    key: &Key,
    addr: u32,
    s: &State,
    shape: Shape,
) -> bool
    requires shape { IsShapeInBounds shape }
    requires values { AreInLattice rule.now.bounds.now s.now.regs }
    ensures { let r = rule.now in
        IsTrue result
        ↔ KeepsRule17ByShape r.bounds.now r.plan.now r.tasks.now key.now addr s.now shape }
{
    may_have_point_at(rule.tasks, key, addr)
        && load_misses_areas_and_routine(rule.bounds, rule.plan, rule.tasks, s, shape)
        && reads_no_context_register(shape)
        && (key.prio != 0 || key.is || is_no_bisr(shape))
}

/// Returns whether some word of the abstract value, the possible addresses of an access, is in
/// `low..=high`.
fn has_access_between(v: &Val, low: u32, high: u32) -> bool
    requires { IsWellFormed v.now }
    ensures { IsTrue result ↔ HasAccessBetween v.now low high }
{
    match v {
        Val::Set(words) => has_word_between(words.as_slice(), low, high),
        Val::Span { lo, last, step } => {
            align_up(u64::from(low.max(*lo)), *step) <= u64::from(high.min(*last))
        }
    }
}

/// Returns whether one of the words, the possible addresses of an access, is in `low..=high`.
fn has_word_between(words: &[u32], low: u32, high: u32) -> bool
    ensures { IsTrue result ↔ ((x : ℕ) × Among x words.now × (low ≤ x) × (x ≤ high)) }
{
    for x in words {
        if is_between(*x, low, high) {
            return true;
        }
    }
    false
}

/// Rounds an address up to a multiple of `2 ^ step`.
fn align_up(x: u64, step: u8) -> u64
    requires step { step ≤ 2 }
    requires small { x ≤ 2 ^ 32 }
    ensures { result ≡ (x + (2 ^ step - 1)) / 2 ^ step * 2 ^ step }
{
    let unit = 1u64 << step;
    (x + (unit - 1)) / unit * unit
}

/// Returns whether an address is in `low..=high`.
fn is_between(x: u32, low: u32, high: u32) -> bool
    ensures { IsTrue result ↔ (low ≤ x) × (x ≤ high) }
{
    low <= x && x <= high
}

/// Returns whether the frame `key` may have code at an address. The switch routine's frame has code
/// only at the routine's instructions, other frames only outside the routine.
fn may_have_point_at(tasks: &Tasks, key: &Key, addr: u32) -> bool
    ensures { IsTrue result ↔ MayHavePointAt tasks.now key.now addr }
{
    let switch = Key {
        kind: CALL,
        entry: tasks.switch,
        prio: 0,
        is: false,
    };
    if *key == switch {
        is_routine_instruction(tasks, addr)
    } else {
        addr < tasks.switch || ROUTINE_BYTES <= addr - tasks.switch
    }
}

/// Returns whether the instruction is no load, or all its possible accesses in state `s` miss the
/// save areas and the switch routine.
fn load_misses_areas_and_routine(
    b: &Bounds,
    plan: &Plan,
    tasks: &Tasks,
    s: &State,
    shape: Shape,
) -> bool
    requires shape { IsShapeInBounds shape }
    requires values { AreInLattice b.now s.now.regs }
    ensures { IsTrue result ↔ LoadMissesAreasAndRoutine b.now plan.now tasks.now s.now shape }
{
    match shape {
        Shape::Load { size, .. } => {
            let at = address_by_shape(b, plan, shape, s);
            are_accesses_outside(&at, size, plan.csa_at, 64 * plan.areas)
                && are_accesses_outside(&at, size, tasks.switch, ROUTINE_BYTES)
        }
        _ => true,
    }
}

/// Returns whether the instruction reads none of the context management registers PCXI, FCX and
/// LCX, which tasks mustn't read.
fn reads_no_context_register(shape: Shape) -> bool
    ensures { IsTrue result ↔ ReadsNoContextRegister shape }
{
    match shape {
        Shape::Mfcr { number, .. } => number != PCXI && number != FCX && number != LCX,
        _ => true,
    }
}

/// Returns whether the instruction is no BISR, which tasks mustn't use outside interrupts.
fn is_no_bisr(shape: Shape) -> bool
    ensures { IsTrue result ↔ IsNoBisr shape }
{
    match shape {
        Shape::Bisr { .. } => false,
        _ => true,
    }
}
