// Laws of the views of tasks, and of all tasks together.
ghost use Rattle.task_chains.specs.Rule17Growth.{Rule17FaultsAreMonotone, BrokenRule17IsNotKept};
ghost use Rattle.task_chains.specs.TaskGuardLaws.{EquationsMakeTaskReady, EquationsMakeTasksFit, EquationsMakeTasksStart};
ghost use Rattle.task_chains.specs.TaskListText.{TaskTextHasOneResult};
ghost use Rattle.task_chains.specs.SafeTasks.{TasksAreSafe};
ghost use Rattle.task_chains.specs.SafeTasksInWords.{SafeTasksHaveParts, PartsMakeTasksSafe};
ghost use Rattle.task_chains.specs.ViewLaws.{ViewStoresAreInRangeAndMissBlock, ViewPlansAreValid, ViewImagesKeepBytes};

/// Laws of a task's view, the plan and image for analysing this task alone. The plan is valid,
/// stores in its ranges miss the switch routine's data, and only the routine's code differs from
/// the real image.
pub fn task_view_laws()
    ensures plans { ViewPlansAreValid }
    ensures stores { ViewStoresAreInRangeAndMissBlock }
    ensures bytes { ViewImagesKeepBytes }
{}

/// All runs of tasks are safe if each certificate is accepted and keeps K17 (what tasks must leave
/// alone), and the needs fit the areas. Then no save area is on two lists, each task stays within
/// its need, and stores are in range.
pub fn safe_tasks_law()
    ensures safe { TasksAreSafe }
{}

/// Proves that plain equations suffice for the premises of `safe_tasks_law`, so that no definition
/// asks for more than is meant. A text of tasks has no two results.
pub fn task_premise_guard_laws()
    ensures ready { EquationsMakeTaskReady }
    ensures fits { EquationsMakeTasksFit }
    ensures starts { EquationsMakeTasksStart }
    ensures one { TaskTextHasOneResult }
{}

/// Proves that `SafeTasks` says neither less nor more than is meant: runs are safe exactly if each
/// state has the parts listed in `HasSafeTaskParts`.
pub fn safe_tasks_definition_guard_laws()
    ensures says { SafeTasksHaveParts }
    ensures parts { PartsMakeTasksSafe }
{}

/// Where an accepted certificate breaks K17 (what a task must leave alone), each accepted
/// certificate that covers this one does too. A certificate with a breach doesn't keep K17.
pub fn task_fault_laws()
    ensures grow { Rule17FaultsAreMonotone }
    ensures refute { BrokenRule17IsNotKept }
{}
