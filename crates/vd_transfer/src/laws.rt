// Laws of operations, refinement and effects.
ghost use Rattle.vd_transfer.specs.Soundness.{AddressIsSound, BranchIsSound, RestoreIsSound, TransferIsSound};
ghost use Rattle.vd_transfer.specs.OperationLaws.{OperationsAreSound, OperationsAreMonotone};
ghost use Rattle.vd_transfer.specs.Refinement.{RefinementIsSoundAndMonotone};

/// Laws of operations on abstract values. Sound: each result on members is a member of the
/// operation's value. Monotone: smaller operands give a smaller value.
pub fn operation_laws()
    ensures sound { OperationsAreSound }
    ensures monotone { OperationsAreMonotone }
{}

/// Laws of refinement by signed and unsigned comparisons. Sound: each word for which the relation
/// holds is kept. Monotone: fewer words before give fewer after.
pub fn refinement_laws()
    ensures { RefinementIsSoundAndMonotone }
{}

/// Laws of soundness: if a state holds the machine's registers, so does the state after an
/// instruction or on a branch's taken side. Addresses of accesses are members of their values.
pub fn soundness_laws()
    ensures transfer { TransferIsSound }
    ensures restore { RestoreIsSound }
    ensures branch { BranchIsSound }
    ensures address { AddressIsSound }
{}
