// Laws of the machine for all programs, and laws that pin the definitions under the headline.

ghost use Rattle.tc_machine.specs.MachineLaws.{EquationsImplyEventFits, EquationsImplyRunFits, EquationsImplyStartState, SafeImpliesEquations, StoreInstructionStores, AllAreasFreeAtStart, SpelledCodeIsFetched, MachineSaveSucceeds, MachineRestoreSucceeds, MachineStepExecutes, DeathChangesEndOnly, StepKeepsMachine, RunKeepsMachine};

/// Laws of the machine for all programs: when a fetch, a save, a restore or a step succeeds, and
/// what a death changes. All save areas are free at the start, and runs keep registers within 32
/// bits.
pub fn machine_laws()
    ensures start { AllAreasFreeAtStart }
    ensures fetch { SpelledCodeIsFetched }
    ensures save { MachineSaveSucceeds }
    ensures restore { MachineRestoreSucceeds }
    ensures does { MachineStepExecutes }
    ensures death { DeathChangesEndOnly }
    ensures stays { StepKeepsMachine }
    ensures runs { RunKeepsMachine }
{}

/// Laws that keep the claim of safety from being vacuous: each event, run or start state that meets
/// plain equations is covered by the claim. Safety in turn implies plain equations, and store
/// instructions count as stores at their addresses.
pub fn safety_definition_laws()
    ensures events { EquationsImplyEventFits }
    ensures runs { EquationsImplyRunFits }
    ensures starts { EquationsImplyStartState }
    ensures safe { SafeImpliesEquations }
    ensures stores { StoreInstructionStores }
{}
