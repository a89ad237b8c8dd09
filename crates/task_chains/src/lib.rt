//! Tasks that share one set of save areas. A task gives way by calling a switch routine, and has a
//! certificate of its own.
#![tactic(auto)]

mod devices;
mod drafts;
mod faults;
mod laws;
mod lines;
mod routine;
mod rule_17;
mod task_lists;
mod views;

pub use faults::task_fault;
pub use laws::{
    safe_tasks_definition_guard_laws, safe_tasks_law, task_fault_laws, task_premise_guard_laws,
    task_view_laws,
};
pub use routine::routine_fault;
pub use rule_17::TASKS_RULE;
pub use task_lists::{Task, Tasks, TasksErr};
pub use views::{view_image, view_plan};
