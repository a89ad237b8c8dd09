// The start of a machine.
ghost use Rattle.std.specs.Prelude.{◌≡◌, IfOk};
ghost use Rattle.tc_machine.specs.Starting.{psw_at_start, IsZeroFilledStart};

use crate::start_memory::{link_of_area_at, start_memory};
use crate::{End, Machine};
use elf_image::Image;
use std::alloc::Global;
use tcd_base::NoMemory;
use tcd_plan::Plan;

/// Returns PSW of a start state: IO is 2, IS is `is`, as the plan says, and the other bits are 0.
fn psw_at_start(is: bool) -> u32
    ensures { result ≡ psw_at_start is }
{
    if is { 0xa00 } else { 0x800 }
}

impl Machine {
    /// Returns a machine in the start state of the image under the plan. Registers that the plan
    /// doesn't give and bytes that no segment holds are 0.
    pub fn start(alloc: Global, image: &Image, plan: &Plan) -> Result<Machine, NoMemory>
        ensures { IfOk result (λ m. IsZeroFilledStart image.now plan.now m) }
    {
        let csa_at = plan.csa_at;
        let areas = plan.areas;
        let mem = start_memory(
            alloc,
            image,
            plan.rom.as_slice(),
            plan.ram.as_slice(),
            csa_at,
            areas,
        )?;
        let first = link_of_area_at(csa_at);
        let globals = plan.globals;
        Ok(Machine {
            pc: image.entry,
            d: [0; 16],
            a: [
                globals[0], globals[1], 0, 0, 0, 0, 0, 0, globals[2], globals[3], plan.sp, 0, 0, 0,
                0, 0,
            ],
            psw: psw_at_start(plan.start_is),
            pcxi: 0,
            fcx: first,
            lcx: first + (areas - plan.reserve),
            ccpn: plan.start_ccpn,
            ie: plan.start_ie,
            biv: plan.biv,
            btv: plan.btv,
            isp: plan.isp,
            mem,
            end: End::Running,
            core: plan.core,
        })
    }
}
