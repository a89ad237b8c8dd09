// The state at the start.
ghost use Rattle.std.specs.Prelude.{◌≡◌, replicate};
ghost use Rattle.value_domain.specs.Values.{any_val};
ghost use Rattle.cfg_recover.specs.Entries as entries;

use arrayvec::ArrayVec;
use depth_cert::{Key, START};
use elf_image::Image;
use tcd_plan::Plan;
use value_domain::{A10_SLOT, State, Val};

/// Returns the abstract state in which a run starts: only A10, IE and CCPN are known, from the
/// plan.
#[tactic(auto, unfolding(vd_transfer::specs::Registers::register_slot))]
pub fn start_state(plan: &Plan) -> State
    ensures { result ≡ entries.start_state plan.now }
{
    let mut regs = unknown_regs();
    regs[A10_SLOT] = Val::one(plan.sp);
    State {
        regs,
        ie: plan.start_ie,
        ccpn: plan.start_ccpn,
        lower: false,
        locals: ArrayVec::new(),
    }
}

/// Returns 27 register values of which none is known, for the state in which a run starts.
pub(crate) fn unknown_regs() -> [Val; 27]
    ensures { result ≡ replicate 27 any_val }
{
    std::array::from_fn(|_| Val::any())
}

/// Returns the key of the frame in which a run starts: the image's entry, at priority 0, with the
/// plan's PSW.IS (interrupt stack in use).
pub fn start_key(image: &Image, plan: &Plan) -> Key
    ensures { result ≡ entries.start_key image.now plan.now }
{
    Key {
        kind: START,
        entry: image.entry,
        prio: 0,
        is: plan.start_is,
    }
}
