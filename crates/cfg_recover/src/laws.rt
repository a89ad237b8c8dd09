// The laws of points, edges, frames, faults and refusals.
ghost use Rattle.cfg_recover.specs.FirstFaultLaws.{FirstFaultsNameFirstFailures, CertifiedNeedIsOfStart};
ghost use Rattle.cfg_recover.specs.EdgeAndFrameLaws.{EdgesMatchSteps, FramesFollowAllRuns, HeldFramesDescribeMachine, StepsAreOwedByPoints};
ghost use Rattle.cfg_recover.specs.FlowDuties.{FlowDutiesAreOfCode};
ghost use Rattle.cfg_recover.specs.MovesAreOwed.{InterruptsAreOwed, JumpsAreOwed, PointStoresAreInRange, TrapsAreOwed, CallsAreOwed, SystemCallsAreOwed};
ghost use Rattle.cfg_recover.specs.RefusalLaws.{RefusalsHaveReasons};

/// States soundness: a machine in a point's abstract state makes only jumps, calls, traps and
/// interrupts that the rules foresee there. Its stores are in range.
pub fn duty_soundness_laws()
    ensures moves { JumpsAreOwed }
    ensures traps { TrapsAreOwed }
    ensures calls { CallsAreOwed }
    ensures system_calls { SystemCallsAreOwed }
    ensures interrupts { InterruptsAreOwed }
    ensures stores { PointStoresAreInRange }
    ensures flow { FlowDutiesAreOfCode }
{}

/// Cross-checks the definitions of control flow edges and of frames: both follow each step of a
/// machine. Also states what a certificate promises that covers all frames and edges.
pub fn edge_and_frame_laws()
    ensures edges { EdgesMatchSteps }
    ensures frames { FramesFollowAllRuns }
    ensures held { HeldFramesDescribeMachine }
    ensures owed { StepsAreOwedByPoints }
{}

/// Cross-checks what is printed: the first fault is the first place where a certificate rule fails,
/// the certified need that of the frame at the start.
pub fn fault_laws()
    ensures first { FirstFaultsNameFirstFailures }
    ensures need { CertifiedNeedIsOfStart }
{}

/// Cross-checks the definition of a refusal: each refusal to make a certificate has one of five
/// reasons, at the frame and address that are printed.
pub fn refusal_laws()
    ensures { RefusalsHaveReasons }
{}
