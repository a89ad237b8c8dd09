// The command `tasks`.
ghost use Rattle.std.specs.Prelude.{◌≡◌, ◌<◌, ◌==◌, max, if◌then◌else◌, length, map, string_bytes, IfOk};
ghost use Rattle.task_chains.specs.Tasks.{count};
ghost use Rattle.task_chains.specs.Views.{TasksFitPlan};
ghost use Rattle.tcd_reading.specs.Outcomes.{IsCommandOutcome, IsReportOrNoMemory};
ghost use Rattle.tcd_driver.specs.Tasks.{IsTasksVerdict, IsVerdictOnTask, IsTallyOfTasks, IsWrongCertCountReport, named_certs_reading, task_certs_reading, tasks_reading};

use crate::cell_and_task_files::TasksFile;
use crate::lines::bad_tasks_line;
use depth_cert::Key;
use depth_check::{Verdict, check};
use elf_image::Image;
use packed_cert::Cert;
use std::alloc::Global;
use task_chains::{TASKS_RULE, Tasks, TasksErr, routine_fault, task_fault, view_image, view_plan};
use tcd_base::{Files, NoMemory};
use tcd_forms::{
    CertFile, ElfFile, PlanFile, certified_tasks_line, refused_sum_line, refused_switch_line,
    refused_task_line,
};
use tcd_plan::Plan;
use tcd_reading::{Outcome, Report, Status, Stop, read_input};

/// The result for all certificates: the sum of the needs, or the first task whose certificate is
/// refused.
#[derive(Clone, Copy)]
pub(crate) enum Tally {
    Sum(u64),
    Against {
        task: usize,
        rule: u8,
        key: Key,
        addr: u32,
    },
}

/// The command `tasks`: reads an executable, a plan, its tasks and a certificate for each, and
/// reports whether all runs of the tasks are certified.
#[inline(never)]
pub(crate) fn check_tasks<F: Files>(
    alloc: Global,
    elf: &str,
    plan: &str,
    tasks: &str,
    certs: &[String],
    files: &mut F,
) -> Outcome
    ensures { IsCommandOutcome
        (tasks_reading (record {
          elf = elf.now;
          plan = plan.now;
          tasks = tasks.now;
          certs = map string_bytes certs.now;
        }))
        (F.seen files.old) (F.seen files.new) result }
{
    let image = read_input(&ElfFile, alloc, elf, files)?;
    let board = read_input(&PlanFile, alloc, plan, files)?;
    let list = read_input(&TasksFile { plan: &board }, alloc, tasks, files)?;
    check_task_cert_files(alloc, &image, &board, &list, certs, files)
}

/// Returns how many CSAs task `u` counts for in the sum over all tasks: `need`, but at least 2 for
/// each task except the first.
pub(crate) fn counted_task_need(u: usize, need: u32) -> u32
    ensures { result ≡ (if u == 0 then need else max need 2) }
{
    if u == 0 { need } else { need.max(2) }
}

/// Reports bad input: `tasks` or `taskcert` names more or fewer certificates than there are tasks.
pub(crate) fn report_wrong_cert_count(alloc: Global) -> Outcome
    ensures { IsReportOrNoMemory IsWrongCertCountReport result }
{
    let line = bad_tasks_line(alloc, TasksErr::Count)?;
    Ok(Report::of(alloc, Status::BadInput, line))
}

// Reports bad input if there are more or fewer names of certificates than tasks. Else reads each
// task's certificate, and reports the verdict of the command `tasks`.
fn check_task_cert_files<F: Files>(
    alloc: Global,
    image: &Image,
    plan: &Plan,
    tasks: &Tasks,
    names: &[String],
    files: &mut F,
) -> Outcome
    requires { TasksFitPlan plan.now tasks.now }
    ensures { IsCommandOutcome
        (task_certs_reading (map string_bytes names.now) image.now plan.now tasks.now)
        (F.seen files.old) (F.seen files.new) result }
{
    if names.len() == tasks.list.len() {
        verdict_on_cert_files(alloc, image, plan, tasks, names, files)
    } else {
        report_wrong_cert_count(alloc)
    }
}

/// Reads these certificates, one for each task, and reports the verdict of the command `tasks`.
fn verdict_on_cert_files<F: Files>(
    alloc: Global,
    image: &Image,
    plan: &Plan,
    tasks: &Tasks,
    names: &[String],
    files: &mut F,
) -> Outcome
    requires fit { TasksFitPlan plan.now tasks.now }
    requires many { length names.now ≡ count tasks.now }
    ensures { IsCommandOutcome
        (named_certs_reading (map string_bytes names.now) image.now plan.now tasks.now)
        (F.seen files.old) (F.seen files.new) result }
{
    let mut certs = Vec::new(alloc);
    for i in 0..names.len() {
        let cert = read_input(&CertFile, alloc, names[i].as_str(), files)?;
        match certs.push(cert) {
            Ok(()) => {}
            Err(_) => return Err(Stop::NoMemory),
        }
    }
    tasks_verdict(alloc, image, plan, tasks, &certs)
}

// Reports the verdict of the command `tasks`: on the code that switches tasks, on each task's
// certificate, and on the sum of the CSAs needed.
fn tasks_verdict(
    alloc: Global,
    image: &Image,
    plan: &Plan,
    tasks: &Tasks,
    certs: &[Cert],
) -> Outcome
    requires fit { TasksFitPlan plan.now tasks.now }
    requires many { length certs.now ≡ count tasks.now }
    ensures { IsReportOrNoMemory (IsTasksVerdict image.now plan.now tasks.now certs.now) result }
{
    let areas = plan.areas - plan.reserve;
    let count = tasks.list.len();
    if let Some(addr) = routine_fault(image, plan, tasks) {
        return Ok(Report::of(alloc, Status::Refused, refused_switch_line(alloc, addr)?));
    }
    match check_each_task_cert(alloc, image, plan, tasks, certs)? {
        Tally::Sum(sum) => {
            if sum <= u64::from(areas) {
                let line = certified_tasks_line(alloc, sum, areas, count)?;
                Ok(Report::of(alloc, Status::Done, line))
            } else {
                Ok(Report::of(alloc, Status::Refused, refused_sum_line(alloc, sum, areas)?))
            }
        }
        Tally::Against {
            task,
            rule,
            key,
            addr,
        } => {
            let line = refused_task_line(alloc, rule, key, addr, task)?;
            Ok(Report::of(alloc, Status::Refused, line))
        }
    }
}

// Checks each task's certificate. Returns how many CSAs all tasks count for, or the first task
// whose certificate is refused, and why.
fn check_each_task_cert(
    alloc: Global,
    image: &Image,
    plan: &Plan,
    tasks: &Tasks,
    certs: &[Cert],
) -> Result<Tally, NoMemory>
    requires fit { TasksFitPlan plan.now tasks.now }
    requires many { length certs.now ≡ count tasks.now }
    ensures { IfOk result (IsTallyOfTasks image.now plan.now tasks.now certs.now) }
{
    // What holds of all tasks is known after they are read.
    let _switch = tasks.switch;
    let mut sum = 0u64;
    for u in 0..certs.len() {
        match check_task_cert(alloc, image, plan, tasks, u, &certs[u])? {
            Verdict::Yes(need) => sum += u64::from(counted_task_need(u, need)),
            Verdict::No { rule, key, addr } => {
                return Ok(Tally::Against {
                    task: u,
                    rule,
                    key,
                    addr,
                });
            }
        }
    }
    Ok(Tally::Sum(sum))
}

// Checks a certificate for the image and the plan as task `u` sees them, and K17, the rule that
// keeps tasks apart. Returns the CSAs needed, or the first rule that fails.
fn check_task_cert(
    alloc: Global,
    image: &Image,
    plan: &Plan,
    tasks: &Tasks,
    u: usize,
    cert: &Cert,
) -> Result<Verdict, NoMemory>
    requires task { u < count tasks.now }
    requires fit { TasksFitPlan plan.now tasks.now }
    ensures { IfOk result (IsVerdictOnTask image.now plan.now tasks.now cert.now u) }
{
    // What holds of plans and tasks is known after they are read, and what holds of certificates
    // after their format is read.
    let _areas = plan.areas;
    let _switch = tasks.switch;
    let _version = cert.version();
    let view = view_image(alloc, image, tasks, u)?;
    let board = view_plan(plan, tasks, u);
    match check(&view, &board, cert) {
        Verdict::Yes(need) => match task_fault(&view, &board, tasks, cert) {
            Some((key, addr)) => Ok(Verdict::No {
                rule: TASKS_RULE,
                key,
                addr,
            }),
            None => Ok(Verdict::Yes(need)),
        },
        Verdict::No { rule, key, addr } => Ok(Verdict::No { rule, key, addr }),
    }
}
