// The forms of files of cells and of tasks.
use crate::lines::{bad_cells_line, bad_tasks_line};
use std::alloc::Global;
use task_chains::Tasks;
use tcd_base::NoMemory;
use tcd_forms::{LIMIT, cells_too_long_line, copy_printed_line, tasks_too_long_line};
use tcd_plan::Plan;
use tcd_reading::{Form, Stop, bad_input_stop};
use value_cells::Cells;

/// A file of cells for a plan.
#[derive(Clone, Copy)]
pub(crate) struct CellsFile<'a> {
    /// The plan that the cells belong to.
    pub plan: &'a Plan,
}

impl<'a> Form for CellsFile<'a> {
    ghost use Rattle.value_cells.specs.Cells.{AreCells};
    ghost use Rattle.tcd_driver.specs.CellAndTaskForms.{cells_form};

    type Out = Cells;

    ghost form = { λ f. cells_form f.plan.now };

    ghost Fits = { λ f cells. AreCells f.plan.now cells };

    /// The most bytes of a file of cells.
    fn limit(&self) -> u32 {
        LIMIT
    }

    /// Copies the line that is printed for a file of cells above the size limit.
    fn too_long_line(&self, alloc: Global) -> Result<Vec<u8>, NoMemory> {
        copy_printed_line(alloc, cells_too_long_line())
    }

    /// Reads cells, words of RAM with bounds. `Err` has the line on a fault, or no memory.
    fn parse(&self, alloc: Global, bytes: Vec<u8>) -> Result<Cells, Stop> {
        match Cells::read(&bytes, self.plan) {
            Ok(cells) => Ok(cells),
            Err(e) => Err(bad_input_stop(bad_cells_line(alloc, e))),
        }
    }
}

/// A file of tasks for a plan.
#[derive(Clone, Copy)]
pub(crate) struct TasksFile<'a> {
    /// The plan that the tasks belong to.
    pub plan: &'a Plan,
}

impl<'a> Form for TasksFile<'a> {
    ghost use Rattle.task_chains.specs.Views.{TasksFitPlan};
    ghost use Rattle.tcd_driver.specs.CellAndTaskForms.{tasks_form};

    type Out = Tasks;

    ghost form = { λ f. tasks_form f.plan.now };

    ghost Fits = { λ f tasks. TasksFitPlan f.plan.now tasks };

    /// The most bytes of a file of tasks.
    fn limit(&self) -> u32 {
        LIMIT
    }

    /// Copies the line that is printed for a file of tasks above the size limit.
    fn too_long_line(&self, alloc: Global) -> Result<Vec<u8>, NoMemory> {
        copy_printed_line(alloc, tasks_too_long_line())
    }

    /// Reads the tasks in these bytes. `Err` has the line on a fault, or no memory.
    fn parse(&self, alloc: Global, bytes: Vec<u8>) -> Result<Tasks, Stop> {
        match Tasks::read(&bytes, self.plan) {
            Ok(tasks) => Ok(tasks),
            Err(e) => Err(bad_input_stop(bad_tasks_line(alloc, e))),
        }
    }
}
