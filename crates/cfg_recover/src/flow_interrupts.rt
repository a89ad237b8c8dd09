// The interrupts that may be taken.
ghost use Rattle.std.specs.Prelude.{◌≡◌, ◌≤◌, nat_lt, filter, length};
ghost use Rattle.cfg_recover.specs.Entries.{possible_irqs_of};

use arrayvec::ArrayVec;
use tcd_plan::Plan;
use value_domain::State;

/// Returns the priorities of the plan's interrupts that may be taken in an abstract state: those
/// above the least CCPN, if IE may be on.
pub fn possible_irqs(plan: &Plan, s: &State) -> ArrayVec<u8, 32>
    ensures { result.items ≡ possible_irqs_of plan.now s.now }
{
    if s.ie {
        irqs_above(plan.irqs.as_slice(), s.ccpn)
    } else {
        ArrayVec::new()
    }
}

/// Returns the priorities of a list that are above `ccpn`, in the list's order.
fn irqs_above(irqs: &[u8], ccpn: u8) -> ArrayVec<u8, 32>
    requires { length irqs.now ≤ 32 }
    ensures { result.items ≡ filter (λ p. nat_lt ccpn p) irqs.now }
{
    let mut higher = ArrayVec::new();
    for p in irqs {
        if ccpn < *p {
            higher.push(*p);
        }
    }
    higher
}
