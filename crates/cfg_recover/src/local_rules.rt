// The own parts of rules: what each asks of a point's instruction alone, for the shapes of
// instructions at which it can fail; and the least rule that fails at a point.
ghost use Rattle.std.specs.Prelude.{◌≡◌, ◌<◌, ◌≤◌, ◌⊎◌, ◌↔◌, ℕ, true, length, IsTrue, IsSome, IfErr, IfOk, IfSome, None, Some, if◌then◌else◌, MatchResult};
ghost use Rattle.tc_isa.specs.InBounds.{IsArgInBounds, IsShapeInBounds, IsOneTwoOrFour, IsTargetInBounds};
ghost use Rattle.value_domain.specs.Values.{IsWellFormed, word_val};
ghost use Rattle.vd_transfer.specs.Registers.{IncreasesNoFixedRegister, IsNotFixedRegister};
ghost use Rattle.cfg_recover.specs.LocalRules.{targets_of_value, targets_of, StoresInRangeAtValue, IsAccessAllowedAtValue};
ghost use Rattle.store_ranges.specs.Accesses.{are_aligned};
ghost use Rattle.depth_cert.specs.Keys.{call_kind, irq_kind, sys_kind, aln_kind};
ghost use Rattle.cfg_recover.specs.LocalFaults.{IsLocalFault, IsLeastLocalFault, IsAccessFault, IsFaultlessShape, IsFaultlessInst};
ghost use Rattle.elf_image.specs.Images.{ImageData};
ghost use Rattle.tc_isa.specs.Meanings.{shape_of};
ghost use Rattle.value_domain.specs.declared.states.State.{State};
ghost use Rattle.value_domain.specs.State.{AreInLattice};
ghost use Rattle.cfg_recover.specs.Code.{FindsShapeAndSize, HasShapeInBounds};
ghost use Rattle.value_domain.specs.Limits.{Limits};
ghost use Rattle.vd_transfer.specs.EffectsOnStates.{address_by_mode, address_of_access};

use crate::rom_code::code_at;
use depth_cert::{ALN, CALL, IRQ, Key, SYS};
use elf_image::Image;
use store_ranges::{aligned, is_store_in_range, store_ok};
use tc_isa::{Arg, Inst, Op, Shape, Target, alu, shape};
use tcd_plan::Plan;
use value_domain::{Bounds, State, Val};
use vd_transfer::{arg_word, reg, write_address_by_shape};

// The rules that have an own part, by what fails there.

/// K3: there is no instruction.
pub(crate) const NO_CODE: u8 = 3;

/// K5: the targets of a jump or a call are unknown.
pub(crate) const UNKNOWN_TARGETS: u8 = 5;

/// K6: RET may not return.
pub(crate) const BAD_RETURN: u8 = 6;

/// K7: RFE may not return.
pub(crate) const BAD_EXCEPTION_RETURN: u8 = 7;

/// K8: there is no room for a lower context, or none to restore.
pub(crate) const BAD_LOCALS: u8 = 8;

/// K9: a store may be out of range.
const STORE_OUT_OF_RANGE: u8 = 9;

/// K10: an access may be misaligned, and the plan doesn't state its trap.
const MISALIGNED: u8 = 10;

/// K12: the plan doesn't state the trap of system calls.
pub(crate) const NO_SYSTEM_CALLS: u8 = 12;

/// K13: the instruction is MTCR, or writes A0, A1, A8, A9 or A11.
pub(crate) const FIXED_REGISTER: u8 = 13;

/// An instruction that was decoded: its shape, and its size in bytes.
#[derive(Clone, Copy)]
pub struct Located {
    pub shape: Shape,
    pub size: u32,
}

/// Returns the shape and size of the instruction at `addr` if it breaks no certificate rule by
/// itself, in frame `key` and state `s`. An error is the lowest number of a broken rule, 3 if there
/// is no instruction.
pub fn check_local_rules(
    b: &Bounds,
    image: &Image,
    plan: &Plan,
    key: &Key,
    addr: u32,
    s: &State,
) -> Result<Located, u8>
    requires { AreInLattice b.now s.now.regs }
    ensures found { IfOk result (IsFaultlessShape b.now image.now plan.now key.now addr s.now) }
    ensures fault { IfErr result (IsLocalFault b.now image.now plan.now key.now addr s.now) }
{
    let Some(found) = code_at(image, plan, addr) else {
        return Err(NO_CODE);
    };
    let shape = shape(&found.0);
    match local_fault_of_shape(b, plan, key, s, &shape) {
        Some(rule) => Err(rule),
        None => Ok(Located {
            shape,
            size: found.1,
        }),
    }
}

/// Returns the instruction at `addr` and its length in bytes if it breaks no certificate rule by
/// itself, in frame `key` and state `s`. An error is the lowest number of a broken rule, 3 if there
/// is no instruction.
pub(crate) fn check_instruction_at(
    b: &Bounds,
    image: &Image,
    plan: &Plan,
    key: &Key,
    addr: u32,
    s: &State,
) -> Result<(Inst, u32), u8>
    requires { AreInLattice b.now s.now.regs }
    ensures { MatchResult result
        (IsFaultlessInst b.now image.now plan.now key.now addr s.now)
        (IsLocalFault b.now image.now plan.now key.now addr s.now) }
{
    let Some(found) = code_at(image, plan, addr) else {
        return Err(NO_CODE);
    };
    match local_fault(b, plan, key, s, &found.0) {
        Some(rule) => Err(rule),
        None => Ok(found),
    }
}

/// Returns the decoded instruction `located` if it breaks no certificate rule by itself, in frame
/// `key` and state `s`. An error is the lowest number of a broken rule, 3 if `located` is `None`.
pub fn check_decoded_instruction<'a>(
    b: &Bounds,
    plan: &Plan,
    key: &Key,
    s: &State,
    located: &'a Option<Located>,
) -> Result<&'a Located, u8>
    requires values { AreInLattice b.now s.now.regs }
    requires shape { IfSome located.now HasShapeInBounds }
    ensures found { (image : ImageData) (p : ℕ) → FindsShapeAndSize image plan.now p located.now
        → IfOk result (λ found. IsFaultlessShape b.now image plan.now key.now p s.now found.now) }
    ensures fault { (image : ImageData) (p : ℕ) → FindsShapeAndSize image plan.now p located.now
        → IfErr result (IsLocalFault b.now image plan.now key.now p s.now) }
{
    let Some(found) = located else {
        return Err(NO_CODE);
    };
    match local_fault_of_shape(b, plan, key, s, &found.shape) {
        Some(rule) => Err(rule),
        None => Ok(found),
    }
}

/// Returns the lowest number of a certificate rule that an instruction breaks by itself, in frame
/// `key` and state `s`, or `None`.
pub(crate) fn local_fault(b: &Bounds, plan: &Plan, key: &Key, s: &State, inst: &Inst) -> Option<u8>
    requires { AreInLattice b.now s.now.regs }
    ensures { (p : ℕ) → IsLeastLocalFault b.now plan.now key.now p s.now
        (shape_of inst.now) result }
{
    local_fault_of_shape(b, plan, key, s, &shape(inst))
}

/// Returns the lowest number of a certificate rule that an instruction of this shape breaks by
/// itself, in frame `key` and state `s`, or `None`.
pub(crate) fn local_fault_of_shape(
    b: &Bounds,
    plan: &Plan,
    key: &Key,
    s: &State,
    shape: &Shape,
) -> Option<u8>
    requires shape { IsShapeInBounds shape.now }
    requires values { AreInLattice b.now s.now.regs }
    ensures { (p : ℕ) → IsLeastLocalFault b.now plan.now key.now p s.now shape.now result }
{
    match *shape {
        Shape::Compute { dst, .. } => broken_rule_unless(
            is_not_fixed_register(dst),
            FIXED_REGISTER,
        ),
        Shape::Scaled { dst, .. } => broken_rule_unless(is_not_fixed_register(dst), FIXED_REGISTER),
        Shape::Load {
            dst,
            base,
            after,
            ..
        } => {
            let loading = access_fault(b, plan, s, *shape);
            loading.or(broken_rule_unless(
                keeps_fixed_registers_in_load(dst, base, after),
                FIXED_REGISTER,
            ))
        }
        Shape::Store { base, after, .. } => {
            let storing = access_fault(b, plan, s, *shape);
            storing.or(broken_rule_unless(keeps_fixed_base_register(base, after), FIXED_REGISTER))
        }
        Shape::Branch { x, lowers, .. } => broken_rule_unless(
            keeps_fixed_registers_in_branch(x, lowers),
            FIXED_REGISTER,
        ),
        Shape::Jump { to } => broken_rule_unless(has_known_targets(plan, s, to), UNKNOWN_TARGETS),
        Shape::Call { to } => broken_rule_unless(has_known_targets(plan, s, to), UNKNOWN_TARGETS),
        Shape::Ret => broken_rule_unless(is_return_allowed(key, s), BAD_RETURN),
        Shape::Rfe => broken_rule_unless(is_exception_return_allowed(key, s), BAD_EXCEPTION_RETURN),
        Shape::Svlcx => broken_rule_unless(has_room_for_lower_context(b, s), BAD_LOCALS),
        Shape::Rslcx => broken_rule_unless(has_saved_lower_context(s), BAD_LOCALS),
        Shape::Bisr { .. } => broken_rule_unless(has_room_for_lower_context(b, s), BAD_LOCALS),
        Shape::Enable => None,
        Shape::Disable => None,
        Shape::Syscall { .. } => broken_rule_unless(is_system_call_allowed(plan), NO_SYSTEM_CALLS),
        Shape::Mfcr { dst, .. } => broken_rule_unless(is_not_fixed_register(dst), FIXED_REGISTER),
        Shape::Mtcr { .. } => Some(FIXED_REGISTER),
        Shape::Nothing => None,
    }
}

/// Returns the number `rule` of a broken certificate rule, or `None` if the rule's condition
/// `holds`.
#[inline(always)]
pub fn broken_rule_unless(holds: bool, rule: u8) -> Option<u8>
    ensures { result ≡ (if holds then None else Some rule) }
{
    if holds { None } else { Some(rule) }
}

/// Returns the certificate rule that a load or store at the only address `x` breaks: 9, stores in
/// range, or else 10, alignment; or `None`.
pub(crate) fn access_fault_at_word(plan: &Plan, x: u32, shape: Shape) -> Option<u8>
    requires shape { IsShapeInBounds shape }
    ensures { (b : Limits) (s : State) → address_of_access b plan.now shape s ≡ word_val x
        → IsAccessFault b plan.now s shape result }
{
    if !stores_in_range_at_word(plan, x, shape) {
        return Some(STORE_OUT_OF_RANGE);
    }
    if !is_access_allowed_at_word(plan, x, shape) {
        return Some(MISALIGNED);
    }
    None
}

/// Returns the certificate rule that a load or store breaks: 9, stores in range, or else 10,
/// alignment; or `None`. Not inlined, so that accesses with one address need no stack.
#[inline(never)]
pub(crate) fn access_fault_at_value(b: &Bounds, plan: &Plan, s: &State, shape: Shape) -> Option<u8>
    requires shape { IsShapeInBounds shape }
    requires values { AreInLattice b.now s.now.regs }
    ensures { IsAccessFault b.now plan.now s.now shape result }
{
    let mut at = Val::any();
    write_address_by_shape(b, plan, shape, s, &mut at);
    if !stores_in_range_at_value(plan, &at, shape) {
        return Some(STORE_OUT_OF_RANGE);
    }
    if !is_access_allowed_at_value(plan, &at, shape) {
        return Some(MISALIGNED);
    }
    None
}

/// Returns true if a jump's or call's targets are known, as rule K5 asks: fixed in the instruction,
/// or a Set of words in a register.
pub(crate) fn has_known_targets(plan: &Plan, s: &State, to: Target) -> bool
    requires { IsTargetInBounds to }
    ensures { (p : ℕ) → IsTrue result ↔ IsSome (targets_of plan.now s.now p to) }
{
    match to {
        Target::Rel(_) | Target::Abs(_) => true,
        Target::Reg(r) => is_set_of_targets(&reg(plan, s, r)),
    }
}

/// Tests what rule K6 asks of a frame at RET: true if a call entered the frame, and all lower
/// contexts that it saved are restored.
pub(crate) fn is_return_allowed(key: &Key, s: &State) -> bool
    ensures { IsTrue result ↔ ((key.now.kind ≡ call_kind) × (length s.now.locals.items ≡ 0)) }
{
    key.kind == CALL && has_no_saved_lower_context(s)
}

/// Tests what rule K7 asks of a frame at RFE: true for a handler that has restored its lower
/// contexts. All but system call handlers also need their entry's lower registers.
pub(crate) fn is_exception_return_allowed(key: &Key, s: &State) -> bool
    ensures { IsTrue result ↔ ((length s.now.locals.items ≡ 0)
        × ((((key.now.kind ≡ irq_kind) ⊎ (key.now.kind ≡ aln_kind)) × (s.now.lower ≡ true))
        ⊎ (key.now.kind ≡ sys_kind))) }
{
    has_no_saved_lower_context(s) && is_handler_return_allowed(key, s)
}

/// Returns true if the frame may save another lower context, by rule K8: it holds fewer saved ones
/// than the certificate format allows.
pub(crate) fn has_room_for_lower_context(b: &Bounds, s: &State) -> bool
    ensures { IsTrue result ↔ (length s.now.locals.items < b.now.most_locals) }
{
    s.locals.len() < b.most_locals()
}

/// Returns true if the frame holds a saved lower context, as rule K8 asks where one is restored.
pub(crate) fn has_saved_lower_context(s: &State) -> bool
    ensures { IsTrue result ↔ (1 ≤ length s.now.locals.items) }
{
    1 <= s.locals.len()
}

/// Tests rule K9 on stores: true if a store to each address in `at` is wholly in one ram or
/// peripheral range. Other instructions pass.
pub(crate) fn stores_in_range_at_value(plan: &Plan, at: &Val, shape: Shape) -> bool
    requires shape { IsShapeInBounds shape }
    requires well { IsWellFormed at.now }
    ensures { IsTrue result ↔ StoresInRangeAtValue plan.now at.now shape }
{
    match shape {
        Shape::Store { size, .. } => store_ok(plan, at, size),
        _ => true,
    }
}

/// Tests rule K9 on stores: true if a store to the only address `x` is wholly in one ram or
/// peripheral range. Other instructions pass.
pub(crate) fn stores_in_range_at_word(plan: &Plan, x: u32, shape: Shape) -> bool
    ensures { IsTrue result ↔ StoresInRangeAtValue plan.now (word_val x) shape }
{
    match shape {
        Shape::Store { size, .. } => is_store_in_range(plan, x, size),
        _ => true,
    }
}

/// Tests rule K10 on misaligned accesses: true if each address in `at` is a multiple of the size,
/// or the plan states that misaligned accesses trap. Other instructions pass.
pub(crate) fn is_access_allowed_at_value(plan: &Plan, at: &Val, shape: Shape) -> bool
    requires shape { IsShapeInBounds shape }
    requires well { IsWellFormed at.now }
    ensures { IsTrue result ↔ IsAccessAllowedAtValue plan.now at.now shape }
{
    match shape {
        Shape::Load { size, .. } => is_aligned_or_trap_stated(plan, at, size),
        Shape::Store { size, .. } => is_aligned_or_trap_stated(plan, at, size),
        _ => true,
    }
}

/// Tests rule K10 on misaligned accesses: true if the only address `x` is a multiple of the size,
/// or the plan states that misaligned accesses trap. Other instructions pass.
pub(crate) fn is_access_allowed_at_word(plan: &Plan, x: u32, shape: Shape) -> bool
    requires { IsShapeInBounds shape }
    ensures { IsTrue result ↔ IsAccessAllowedAtValue plan.now (word_val x) shape }
{
    match shape {
        Shape::Load { size, .. } => is_word_aligned_or_trap_stated(plan, x, size),
        Shape::Store { size, .. } => is_word_aligned_or_trap_stated(plan, x, size),
        _ => true,
    }
}

/// Returns true if SYSCALL is allowed, as rule K12 asks: the plan states the trap of system calls.
pub(crate) fn is_system_call_allowed(plan: &Plan) -> bool
    ensures { IsTrue result ↔ (plan.now.sys ≡ true) }
{
    plan.sys
}

/// Returns the certificate rule that a load or store breaks in the state `s`: 9, stores in range,
/// or else 10, alignment; or `None`.
fn access_fault(b: &Bounds, plan: &Plan, s: &State, shape: Shape) -> Option<u8>
    requires shape { IsShapeInBounds shape }
    requires values { AreInLattice b.now s.now.regs }
    ensures { IsAccessFault b.now plan.now s.now shape result }
{
    match single_address_by_shape(b, plan, s, shape) {
        Some(x) => access_fault_at_word(plan, x, shape),
        None => access_fault_at_value(b, plan, s, shape),
    }
}

/// Returns the address of a load or store, if the base is a constant or a register with a single
/// known word. Else, and for other instructions, `None`.
#[tactic(auto, unfolding(vd_transfer::specs::EffectsOnStates::address_of_access))]
fn single_address_by_shape(b: &Bounds, plan: &Plan, s: &State, shape: Shape) -> Option<u32>
    requires shape { IsShapeInBounds shape }
    requires values { AreInLattice b.now s.now.regs }
    ensures { IfSome result (λ x. address_of_access b.now plan.now shape s.now ≡ word_val x) }
{
    match shape {
        Shape::Load {
            base,
            offset,
            after,
            ..
        } => single_address_by_base(b, plan, s, base, offset, after),
        Shape::Store {
            base,
            offset,
            after,
            ..
        } => single_address_by_base(b, plan, s, base, offset, after),
        _ => None,
    }
}

/// Returns the address of an access if the value of its base is a single word, else `None`. If
/// `after`, the base is increased after the access, and `offset` doesn't count.
#[inline(always)]
fn single_address_by_base(
    b: &Bounds,
    plan: &Plan,
    s: &State,
    base: Arg,
    offset: u32,
    after: bool,
) -> Option<u32>
    requires base { IsArgInBounds base }
    requires values { AreInLattice b.now s.now.regs }
    ensures { IfSome result (λ x. address_by_mode b.now plan.now s.now base offset after
        ≡ word_val x) }
{
    let _most_words = b.most_words();
    let Some(x) = arg_word(b, plan, s, base) else {
        return None;
    };
    if after {
        return Some(x);
    }
    Some(alu(Op::Add, x, offset))
}

/// Returns true if a jump or call by a register of this value has known targets, as rule K5 asks:
/// the value is a Set.
fn is_set_of_targets(v: &Val) -> bool
    ensures { IsTrue result ↔ IsSome (targets_of_value v.now) }
{
    match v {
        Val::Set(_) => true,
        Val::Span { .. } => false,
    }
}

/// Returns true if a frame has no saved lower context left, as rules K6 (RET) and K7 (RFE) ask.
fn has_no_saved_lower_context(s: &State) -> bool
    ensures { IsTrue result ↔ (length s.now.locals.items ≡ 0) }
{
    s.locals.is_empty()
}

/// Tests what rule K7 asks of a frame's kind and registers at RFE: true for a system call handler,
/// or another with its entry's lower registers.
fn is_handler_return_allowed(key: &Key, s: &State) -> bool
    ensures { IsTrue result
        ↔ ((((key.now.kind ≡ irq_kind) ⊎ (key.now.kind ≡ aln_kind)) × (s.now.lower ≡ true))
        ⊎ (key.now.kind ≡ sys_kind)) }
{
    match key.kind {
        IRQ | ALN => s.lower,
        SYS => true,
        _ => false,
    }
}

/// Returns true if each address in `at` is a multiple of `size`, or the plan states that misaligned
/// accesses trap (rule K10).
fn is_aligned_or_trap_stated(plan: &Plan, at: &Val, size: u8) -> bool
    requires well { IsWellFormed at.now }
    requires size { IsOneTwoOrFour size }
    ensures { IsTrue result ↔ ((are_aligned at.now size ≡ true) ⊎ (plan.now.aln ≡ true)) }
{
    plan.aln || aligned(at, size)
}

/// Returns true if the only address `x` is a multiple of `size`, or the plan states that misaligned
/// accesses trap (rule K10).
fn is_word_aligned_or_trap_stated(plan: &Plan, x: u32, size: u8) -> bool
    requires { IsOneTwoOrFour size }
    ensures { IsTrue result
        ↔ ((are_aligned (word_val x) size ≡ true) ⊎ (plan.now.aln ≡ true)) }
{
    plan.aln || x % u32::from(size) == 0
}

// K13: the instruction isn't MTCR, and writes none of A0, A1, A8, A9 and A11.

/// Returns false if a load writes one of A0, A1, A8, A9 and A11, fixed by rule K13: as `dst`, or as
/// an increased `base` (`after`).
pub(crate) fn keeps_fixed_registers_in_load(dst: u8, base: Arg, after: bool) -> bool
    ensures { IsTrue result ↔ (IsNotFixedRegister dst × IncreasesNoFixedRegister base after) }
{
    is_not_fixed_register(dst) && keeps_fixed_base_register(base, after)
}

/// Returns false if a branch decrements (`lowers`) its register `x`, and `x` is one of A0, A1, A8,
/// A9 and A11, fixed by rule K13.
pub(crate) fn keeps_fixed_registers_in_branch(x: u8, lowers: bool) -> bool
    ensures { IsTrue result ↔ (IsTrue lowers → IsNotFixedRegister x) }
{
    !lowers || is_not_fixed_register(x)
}

/// Returns false if a load or store increases its base (`after`), and the base is one of A0, A1,
/// A8, A9 and A11, fixed by rule K13.
pub(crate) fn keeps_fixed_base_register(base: Arg, after: bool) -> bool
    ensures { IsTrue result ↔ IncreasesNoFixedRegister base after }
{
    match base {
        Arg::Reg(r) => !after || is_not_fixed_register(r),
        Arg::Word(_) => true,
    }
}

/// Returns true if `r` is a register, 0 to 15 for D0 to D15 and 16 to 31 for A0 to A15, but none of
/// the fixed A0, A1, A8, A9 and A11, which K13 forbids to write.
#[tactic(auto, unfolding(vd_transfer::specs::Registers::register_slot))]
pub(crate) fn is_not_fixed_register(r: u8) -> bool
    ensures { IsTrue result ↔ IsNotFixedRegister r }
{
    r < 16 || 18 <= r && r <= 23 || r == 26 || 28 <= r && r <= 31
}
