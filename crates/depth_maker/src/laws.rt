// Laws: what grows with a state, and what holds of derived assignments and accepted certificates.
ghost use Rattle.depth_maker.specs.DutiesMonotone.{AddressesAreMonotone, ReturnStatesAreMonotone, DutiesAreMonotone, FaultsAreMonotone, BranchSidesAreMonotone, TransfersAreMonotone};
ghost use Rattle.depth_maker.specs.WellFormedAssignments.{ReturnStatesAreWellFormed, DutiesAreWellFormed};
ghost use Rattle.depth_maker.specs.MakerLaws.{MakeErrExcludesCerts, AcceptedIsClosed, DerivedIsBelowClosed, ClosedExcludesFaults, AcceptedExcludesRefusals, SolutionIsAccepted, RefusalMeansNoCertAccepted, LeastFixpointIsLeastCert, LeastCertIsLeastAccepted};

/// Laws behind the least certificate: with a greater state, a point has no fewer faults and asks no
/// less of successors, entered frames and exit. What the point asks is well-formed.
pub fn duty_monotonicity_laws()
    ensures faults { FaultsAreMonotone }
    ensures duties { DutiesAreMonotone }
    ensures well_formed { DutiesAreWellFormed }
{}

/// Laws on which the least certificate rests: the state after a return grows with the caller's
/// state and with the exit, and is well-formed.
pub fn return_state_laws()
    ensures grows { ReturnStatesAreMonotone }
    ensures well_formed { ReturnStatesAreWellFormed }
{}

/// Laws on which the least certificate rests: effects of instructions, addresses of accesses and
/// states on the sides of branches grow with the state before.
pub fn effect_monotonicity_laws()
    ensures transfers { TransfersAreMonotone }
    ensures addresses { AddressesAreMonotone }
    ensures sides { BranchSidesAreMonotone }
{}

/// Laws of the maker: states that the worklist derives are below each post-fixpoint without faults.
/// So if there is such a post-fixpoint within the limits, no derived state has a fault.
pub fn derived_assignment_laws()
    ensures below { DerivedIsBelowClosed }
    ensures faults { ClosedExcludesFaults }
{}

/// Laws of the maker: an accepted certificate is a post-fixpoint without faults, and excludes all
/// refusals. A certificate of such a post-fixpoint within the limits, with entry points and
/// sufficient needs, is accepted.
pub fn accepted_cert_laws()
    ensures closed { AcceptedIsClosed }
    ensures refusals { AcceptedExcludesRefusals }
    ensures solutions { SolutionIsAccepted }
{}

/// Laws of the maker: a made certificate is accepted, and none of its format is less. If a refusal
/// holds, none is accepted.
pub fn least_cert_laws()
    ensures made { LeastFixpointIsLeastCert }
    ensures refused { RefusalMeansNoCertAccepted }
    ensures least { LeastCertIsLeastAccepted }
    ensures none { MakeErrExcludesCerts }
{}
