// The lines of a text of tasks, read one after another.
ghost use Rattle.std.specs.Prelude.{◌≡◌, ◌≤◌, ◌^◌, ℕ, length, IfOk, OnOk, IfErr};
ghost use Rattle.tcd_text.specs.Lines.{text_lines};
ghost use Rattle.task_chains.specs.declared.task_lists.TasksErr.TheVariants.{BadLine};
ghost use Rattle.task_chains.specs.TaskListText.{IsFirstBadTaskLine, IsTasksDraftOf, IsTasksDraftAfterLine, IsErrOfTaskLine};

use crate::lines::{Places, number_pair_in_line, switch_addresses_in};
use crate::{Task, TasksErr};
use arrayvec::ArrayVec;
use tcd_text::cut_line;

/// The most tasks.
const MOST_TASKS: usize = 7;

/// What the lines so far say.
#[derive(Drop)]
pub struct TasksDraft {
    /// The addresses of the first line that isn't empty.
    pub places: Option<Places>,
    /// The first seven tasks.
    pub list: ArrayVec<Task, 7>,
    /// The number of the line with an eighth task.
    pub eighth: Option<u32>,
}

/// Reads all lines of a list of tasks into a draft, or returns the error of the first malformed
/// line.
pub(crate) fn read_tasks_draft(bytes: &[u8]) -> Result<TasksDraft, TasksErr>
    requires { length bytes.now ≤ 2 ^ 30 }
    ensures ok { IfOk result (IsTasksDraftOf (text_lines bytes.now)) }
    ensures err { let lines = text_lines bytes.now in
        IfErr result (λ e. (n : ℕ) × (e ≡ BadLine n) × IsFirstBadTaskLine lines n) }
{
    let mut draft = TasksDraft {
        places: None,
        list: ArrayVec::new(),
        eighth: None,
    };
    let mut number = 0u32;
    let mut rest = bytes;
    'lines: while !rest.is_empty() {
        let (line, behind) = cut_line(rest);
        number += 1;
        add_tasks_text_line(&mut draft, number, line)?;
        rest = behind;
    }
    Ok(draft)
}

/// Adds line `number` of a list of tasks to the draft, or returns `BadLine`. The first line that
/// isn't empty has the switch routine's addresses, each later one a task.
fn add_tasks_text_line(draft: &mut TasksDraft, number: u32, line: &[u8]) -> Result<(), TasksErr>
    ensures ok { OnOk result (IsTasksDraftAfterLine draft.old number line.now draft.new) }
    ensures err { IfErr result (IsErrOfTaskLine draft.old number line.now) }
{
    if line.is_empty() {
        return Ok(());
    }
    if draft.places.is_none() {
        let Some(places) = switch_addresses_in(line) else {
            return Err(TasksErr::BadLine(number));
        };
        draft.places = Some(places);
        return Ok(());
    }
    let Some((entry, sp)) = number_pair_in_line(b"task".as_slice(), line) else {
        return Err(TasksErr::BadLine(number));
    };
    if draft.list.len() < MOST_TASKS {
        draft.list.push(Task { entry, sp });
        return Ok(());
    }
    draft.eighth = draft.eighth.or(Some(number));
    Ok(())
}
