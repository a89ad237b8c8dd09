// Public laws of the boot sequence.
ghost use Rattle.tc_boot.specs.Laws.{AllAreAtReset, BootsStayInSequence, EveryBootIsSafe, BootTestHasOneResult, BootReachesStart, SafeImagesBootSafely};

/// States that the boot sequence leads from every state at reset to a start state, in 53
/// instructions and 3 for each CSA. An image that is safe from start states is safe from reset.
pub fn boot_reaches_the_start()
    ensures starts { BootReachesStart }
    ensures safe { SafeImagesBootSafely }
{}

/// Cross-checks this crate's definitions: states in plain equations which machines are at reset,
/// where a booting machine is, and what a safe boot promises. The test of a boot sequence has one
/// answer.
pub fn boot_guard_laws()
    ensures reset { AllAreAtReset }
    ensures inside { BootsStayInSequence }
    ensures safe { EveryBootIsSafe }
    ensures one { BootTestHasOneResult }
{}
