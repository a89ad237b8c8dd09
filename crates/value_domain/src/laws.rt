// Laws of values and states.
ghost use Rattle.value_domain.specs.Laws.{JoinIsLeast, MembersAreListed, CoverIsLeast};
ghost use Rattle.value_domain.specs.Thresholds.{ThresholdsAreNearest};
ghost use Rattle.value_domain.specs.StateLaws.{StateJoinIsLeast};

/// States the lattice laws of abstract values: all members are listed, `cover` gives the least
/// value that holds a set, `join` the least above two. The ends of a Span are the nearest
/// thresholds.
pub fn value_laws()
    ensures members { MembersAreListed }
    ensures closure { CoverIsLeast }
    ensures joins { JoinIsLeast }
    ensures thresholds { ThresholdsAreNearest }
{}

/// States the law of states: the join of two states is the least state that covers both.
pub fn state_laws()
    ensures { StateJoinIsLeast }
{}
