// The command `taskcert`.
ghost use Rattle.std.specs.Prelude.{◌≡◌, ◌<◌, ◌++◌, ◌∷◌, [], length, map, string_bytes, OnOk};
ghost use Rattle.task_chains.specs.Tasks.{count};
ghost use Rattle.task_chains.specs.Views.{TasksFitPlan};
ghost use Rattle.tcd_reading.specs.Outcomes.{IsCommandOutcome, IsReportOrNoMemory};
ghost use Rattle.tcd_driver.specs.Taskcert.{IsTaskcertReport, IsTaskViewCertOrErr, IsTaskCertOrErr, AreTaskCertsOrErr, taskcert_reading};

use crate::cell_and_task_files::TasksFile;
use crate::cert_making::make_least_cert;
use crate::commands::tasks::{counted_task_need, report_wrong_cert_count};
use depth_maker::MakeErr;
use elf_image::Image;
use packed_cert::Cert;
use std::alloc::Global;
use task_chains::{TASKS_RULE, Tasks, routine_fault, task_fault, view_image, view_plan};
use tcd_base::{Files, NoMemory};
use tcd_forms::{
    ElfFile, PlanFile, certified_tasks_line, refused_sum_line, refused_switch_line,
    refused_task_line,
};
use tcd_plan::Plan;
use tcd_reading::{Outcome, Report, Status, Stop, Write, read_input};

/// The command `taskcert`: reads an executable, a plan and its tasks, and returns the outcome with
/// a certificate to write for each task.
#[inline(never)]
pub(crate) fn certify_tasks<F: Files>(
    alloc: Global,
    elf: &str,
    plan: &str,
    tasks: &str,
    certs: &[String],
    files: &mut F,
) -> Outcome
    ensures { IsCommandOutcome
        (taskcert_reading (record {
          elf = elf.now;
          plan = plan.now;
          tasks = tasks.now;
          certs = map string_bytes certs.now;
        }))
        (F.seen files.old) (F.seen files.new) result }
{
    let image = read_input(&ElfFile, alloc, elf, files)?;
    let board = read_input(&PlanFile, alloc, plan, files)?;
    let list = read_input(&TasksFile { plan: &board }, alloc, tasks, files)?;
    if certs.len() == list.list.len() {
        taskcert_report(alloc, &image, &board, &list, certs)
    } else {
        report_wrong_cert_count(alloc)
    }
}

// Makes the certificate of each task for `taskcert`. Reports the files of these names to write, or
// why the tasks are refused.
fn taskcert_report(
    alloc: Global,
    image: &Image,
    plan: &Plan,
    tasks: &Tasks,
    names: &[String],
) -> Outcome
    requires fit { TasksFitPlan plan.now tasks.now }
    requires many { length names.now ≡ count tasks.now }
    ensures { IsReportOrNoMemory
        (IsTaskcertReport (map string_bytes names.now) image.now plan.now tasks.now) result }
{
    let areas = plan.areas - plan.reserve;
    let count = tasks.list.len();
    if let Some(addr) = routine_fault(image, plan, tasks) {
        return Ok(Report::of(alloc, Status::Refused, refused_switch_line(alloc, addr)?));
    }
    match make_each_task_cert(alloc, image, plan, tasks, names) {
        Ok((writes, sum)) => {
            if sum <= u64::from(areas) {
                let line = certified_tasks_line(alloc, sum, areas, count)?;
                Ok(Report {
                    status: Status::Done,
                    text: line,
                    writes,
                })
            } else {
                Ok(Report::of(alloc, Status::Refused, refused_sum_line(alloc, sum, areas)?))
            }
        }
        Err((task, MakeErr::Refused { rule, key, addr })) => {
            let line = refused_task_line(alloc, rule, key, addr, task)?;
            Ok(Report::of(alloc, Status::Refused, line))
        }
        Err((_, MakeErr::NoMemory)) => Err(Stop::NoMemory),
    }
}

// Makes a certificate for each task. Returns the files to write under these names and how many CSAs
// all tasks count for, or the first task without a certificate, and why.
fn make_each_task_cert(
    alloc: Global,
    image: &Image,
    plan: &Plan,
    tasks: &Tasks,
    names: &[String],
) -> Result<(Vec<Write>, u64), (usize, MakeErr)>
    requires fit { TasksFitPlan plan.now tasks.now }
    requires many { length names.now ≡ count tasks.now }
    ensures { AreTaskCertsOrErr (map string_bytes names.now) image.now plan.now tasks.now result }
{
    // What holds of all tasks is known after they are read.
    let _switch = tasks.switch;
    let mut writes = Vec::new(alloc);
    let mut sum = 0u64;
    for u in 0..names.len() {
        match make_task_cert(alloc, image, plan, tasks, u) {
            Ok((cert, need)) => {
                match add_task_cert_file(alloc, &mut writes, names[u].as_str(), cert.into_bytes()) {
                    Ok(()) => sum += u64::from(counted_task_need(u, need)),
                    Err(_) => return Err((u, MakeErr::NoMemory)),
                }
            }
            Err(e) => return Err((u, e)),
        }
    }
    Ok((writes, sum))
}

// Makes the certificate of task `u`, for the image and the plan as this task sees them. Returns the
// certificate and the CSAs that it needs, or why there is none.
fn make_task_cert(
    alloc: Global,
    image: &Image,
    plan: &Plan,
    tasks: &Tasks,
    u: usize,
) -> Result<(Cert, u32), MakeErr>
    requires task { u < count tasks.now }
    requires fit { TasksFitPlan plan.now tasks.now }
    ensures { IsTaskCertOrErr image.now plan.now tasks.now u result }
{
    // What holds of plans and tasks is known after they are read.
    let _areas = plan.areas;
    let _switch = tasks.switch;
    let view = view_image(alloc, image, tasks, u)?;
    make_task_view_cert(alloc, &view, &view_plan(plan, tasks, u), tasks)
}

/// Appends the certificate of a task, under the name `name`, to the files that `taskcert` writes.
fn add_task_cert_file(
    alloc: Global,
    writes: &mut Vec<Write>,
    name: &str,
    bytes: Vec<u8>,
) -> Result<(), NoMemory>
    ensures { OnOk result (writes.new.items
        ≡ writes.old.items ++ record { name = name.now; bytes = bytes.items } ∷ []) }
{
    writes.push(Write::of(alloc, name, bytes)?)?;
    Ok(())
}

/// Makes the least certificate of format 2 for image and plan as one task sees them. Returns the
/// certificate and the CSAs needed, or the rule that fails; K17 keeps tasks apart.
fn make_task_view_cert(
    alloc: Global,
    view: &Image,
    plan: &Plan,
    tasks: &Tasks,
) -> Result<(Cert, u32), MakeErr>
    ensures { IsTaskViewCertOrErr view.now plan.now tasks.now result }
{
    // What holds of every plan is known after it is read.
    let _areas = plan.areas;
    let (cert, need) = make_least_cert(alloc, view, plan, 2)?;
    match task_fault(view, plan, tasks, &cert) {
        Some((key, addr)) => Err(MakeErr::Refused {
            rule: TASKS_RULE,
            key,
            addr,
        }),
        None => Ok((cert, need)),
    }
}
