// The laws of accepted certificates and of answers.
ghost use Rattle.depth_check.specs.AnswerLaws.{FirstFaultExcludesAcceptance, AnswersSayNeedOrFirstFault};
ghost use Rattle.depth_check.specs.AcceptedPromises.{AcceptedHoldsFrames, AcceptedIsSafe, AcceptedOwesEdges};

/// If the rules accept a certificate, every run of the image under the plan is safe with its need,
/// whatever interrupts, traps and peripherals do.
pub fn accepted_is_safe()
    ensures { AcceptedIsSafe }
{}

/// If a certificate is accepted, every run's newest frame is at one of its points, whose state
/// permits the machine's, and all frames have nodes. Each step is one that the rules ask for at
/// that point, or returns to the frame before.
pub fn accepted_holds_frames()
    ensures frames { AcceptedHoldsFrames }
    ensures edges { AcceptedOwesEdges }
{}

/// The checker's answers mean what is printed: a yes gives the start's need, and no rule fails; a
/// no names the first rule that fails, with its node and address.
pub fn answer_laws()
    ensures { AnswersSayNeedOrFirstFault }
{}

/// The checker's answers are exact both ways: a certificate with a first fault isn't accepted.
pub fn first_fault_laws()
    ensures { FirstFaultExcludesAcceptance }
{}
