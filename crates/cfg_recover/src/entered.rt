// The frames that an instruction enters by itself.
ghost use Rattle.std.specs.Prelude.{◌≡◌, ◌++◌, ℕ, OnOk, not};
ghost use Rattle.tc_isa.specs.InBounds.{IsShapeInBounds, IsOneTwoOrFour};
ghost use Rattle.value_domain.specs.State.{AreInLattice};
ghost use Rattle.vd_transfer.specs.EffectsOnStates.{address_of_access};
ghost use Rattle.store_ranges.specs.Accesses.{are_aligned};
ghost use Rattle.cfg_recover.specs.Entries.{call_keys};
ghost use Rattle.cfg_recover.specs.Duties.{entered_keys, entry_duties_of};
ghost use Rattle.cfg_recover.specs.Duties as duties;

use crate::flow_targets::targets;
use crate::keys::{entered_key, sys_key};
use depth_cert::{CALL, Key};
use std::alloc::AllocError;
use store_ranges::aligned;
use tc_isa::Shape;
use tcd_plan::Plan;
use value_domain::{Bounds, State};
use vd_transfer::address_by_shape;

/// Appends to `keys` those of the frames that the frame of `key` may enter by the call or SYSCALL
/// at `addr`, in ascending order of targets. Other instructions append none.
pub fn push_entered_keys(
    keys: &mut Vec<Key>,
    plan: &Plan,
    key: &Key,
    addr: u32,
    s: &State,
    shape: Shape,
) -> Result<(), AllocError>
    requires { IsShapeInBounds shape }
    ensures { (size : ℕ) → OnOk result (keys.new.items
        ≡ keys.old.items ++ entered_keys (entry_duties_of plan.now key.now addr s.now shape size)) }
{
    match shape {
        Shape::Call { to } => {
            let targets = targets(plan, s, addr, to);
            push_called_keys(keys, key, targets.as_slice())
        }
        Shape::Syscall { .. } => {
            keys.push(sys_key(plan, key))?;
            Ok(())
        }
        _ => Ok(()),
    }
}

/// Returns true if a load or store in the state `s` may have a misaligned address, and so may enter
/// the handler of misaligned accesses.
#[inline(always)]
pub fn may_be_misaligned(b: &Bounds, plan: &Plan, s: &State, shape: Shape) -> bool
    requires shape { IsShapeInBounds shape }
    requires values { AreInLattice b.now s.now.regs }
    ensures { result ≡ duties.may_be_misaligned b.now plan.now s.now shape }
{
    match shape {
        Shape::Load { size, .. } => has_misaligned_address(b, plan, s, shape, size),
        Shape::Store { size, .. } => has_misaligned_address(b, plan, s, shape, size),
        _ => false,
    }
}

/// Returns true if some address of a load or store isn't a multiple of `size`. Not inlined, so that
/// other instructions need no stack for a value.
#[inline(never)]
fn has_misaligned_address(b: &Bounds, plan: &Plan, s: &State, shape: Shape, size: u8) -> bool
    requires shape { IsShapeInBounds shape }
    requires values { AreInLattice b.now s.now.regs }
    requires size { IsOneTwoOrFour size }
    ensures { result ≡ not (are_aligned (address_of_access b.now plan.now shape s.now) size) }
{
    let _most_words = b.most_words();
    let at = address_by_shape(b, plan, shape, s);
    !aligned(&at, size)
}

/// Appends to `keys` those of the frames that the frame of `key` enters by calls to the functions
/// at the addresses `targets`.
fn push_called_keys(keys: &mut Vec<Key>, key: &Key, targets: &[u32]) -> Result<(), AllocError>
    ensures { OnOk result (keys.new.items ≡ keys.old.items ++ call_keys key.now targets.now) }
{
    for t in targets {
        keys.push(entered_key(key, CALL, *t))?;
    }
    Ok(())
}
