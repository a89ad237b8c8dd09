// The command `gen`.
ghost use Rattle.std.specs.Prelude.{◌≡◌, ◌≤◌};
ghost use Rattle.tcd_report.specs.Generated.{generated_image};
ghost use Rattle.tcd_report.specs.Generated.Planned.{generated_plan};
ghost use Rattle.tcd_driver.specs.Gen.{IsGenReport};
ghost use Rattle.tcd_reading.specs.Outcomes.{IsReportOrNoMemory};

use crate::cert_making::{make_least_cert, report_no_cert};
use elf_image::Image;
use std::alloc::Global;
use tcd_forms::gen_line;
use tcd_plan::{Plan, PlanErr};
use tcd_reading::{Outcome, Report, Status, Stop};
use tcd_report::{generated_image, generated_plan_text};

/// The command `gen`: generates the image with this number of functions and its plan. Reports the
/// size of their certificate, and the CSAs needed.
#[inline(never)]
pub(crate) fn certify_generated_image(alloc: Global, functions: u32) -> Outcome
    requires { (1 ≤ functions) × (functions ≤ 500) }
    ensures { IsReportOrNoMemory (IsGenReport functions (generated_image functions) generated_plan)
        result }
{
    let image = generated_image(alloc, functions)?;
    match Plan::read(alloc, generated_plan_text().as_bytes()) {
        Ok(plan) => report_generated_image(alloc, functions, &image, &plan),
        Err(e) => {
            assert_plan_out_of_memory(e);
            Err(Stop::NoMemory)
        }
    }
}

/// Makes the least certificate of format 1 of the generated image with this number of functions.
/// Reports its nodes and points and the CSAs needed, or why none is accepted.
fn report_generated_image(alloc: Global, functions: u32, image: &Image, plan: &Plan) -> Outcome
    ensures { IsReportOrNoMemory (IsGenReport functions image.now plan.now) result }
{
    match make_least_cert(alloc, image, plan, 1) {
        Ok((cert, need)) => {
            let areas = plan.areas - plan.reserve;
            let line = gen_line(alloc, functions, &cert, need, areas)?;
            Ok(Report::of(alloc, Status::Done, line))
        }
        Err(e) => report_no_cert(alloc, e),
    }
}

/// Asserts that the error of reading the generated plan is `NoMemory`, the only one possible. Does
/// nothing else.
fn assert_plan_out_of_memory(e: PlanErr)
    requires { e ≡ PlanErr.NoMemory }
{
    match e {
        PlanErr::NoMemory => {}
        _ => unreachable!(),
    }
}
