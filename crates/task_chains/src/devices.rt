// The peripherals of a task's view: the plan's, and the ram that isn't the block.
ghost use Rattle.std.specs.Prelude.{◌≡◌, ◌≤◌, length};
ghost use Rattle.task_chains.specs.Devices.{view_devices_outside_block};

use arrayvec::ArrayVec;
use tcd_plan::{Device, Plan, ranges_outside};

/// Returns the peripherals for the analysis of one task alone: the plan's, then all ram but the
/// switch routine's data, `n` bytes from `x`. Ram answers any word, since other tasks write there.
pub(crate) fn view_devices_outside_block(plan: &Plan, x: u32, n: u32) -> ArrayVec<Device, 16>
    requires { length (view_devices_outside_block plan.now x n) ≤ 16 }
    ensures { result.items ≡ view_devices_outside_block plan.now x n }
{
    let _areas = plan.areas;
    let left = ranges_outside(plan.ram.as_slice(), x, n);
    let mut devices = ArrayVec::new();
    devices
        .try_extend_from_slice(plan.devices.as_slice())
        .unwrap();
    for range in left.as_slice() {
        devices.push(Device {
            range: *range,
            lo: 0,
            hi: 0xFFFF_FFFF,
        });
    }
    devices
}

/// Returns how many peripherals the analysis of one task alone has: the plan's, and parts of ram
/// beside the switch routine's data, `n` bytes from `x`.
pub(crate) fn count_view_devices(plan: &Plan, x: u32, n: u32) -> usize
    ensures { result ≡ length (view_devices_outside_block plan.now x n) }
{
    let _areas = plan.areas;
    plan.devices.len() + ranges_outside(plan.ram.as_slice(), x, n).len()
}
