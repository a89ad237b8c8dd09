// The laws of chains, of contexts and of memory.
ghost use Rattle.csa_chain.specs.ChainLaws.{SaveMovesLink, RestoreMovesLink, StoreBesideKeepsChains, ChangeOutsideKeepsChain};
ghost use Rattle.csa_chain.specs.SeveralChains.{OwnerSaveMovesLink, OwnerRestoreMovesLink};
ghost use Rattle.csa_chain.specs.MemoryLaws.{WordsRoundTrip, BytesStayInBounds};
ghost use Rattle.csa_chain.specs.ContextWordLaws.{ContextWordsStayInBounds, UpperContextRoundTrips, LowerContextRoundTrips, PcxiFieldsRoundTrip};

/// States the laws of the free and the used list of context save areas. A save moves the first free
/// area to the used list, a restore moves the first used one back; stores elsewhere change neither.
pub fn chain_laws()
    ensures save { SaveMovesLink }
    ensures restore { RestoreMovesLink }
    ensures misses { StoreBesideKeepsChains }
    ensures store { ChangeOutsideKeepsChain }
{}

/// States the laws of several used lists over the same context save areas. A save or restore moves
/// one area between its owner's list and the free list; other lists stay.
pub fn several_chains_laws()
    ensures saves { OwnerSaveMovesLink }
    ensures restores { OwnerRestoreMovesLink }
{}

/// States the laws of contexts: fields of PCXI and registers that are written to the words of a
/// context are read back.
pub fn context_laws()
    ensures fields { PcxiFieldsRoundTrip }
    ensures upper { UpperContextRoundTrips }
    ensures lower { LowerContextRoundTrips }
{}

/// States the laws of memory: words that are written are read back, bytes stay below 2^8 and words
/// below 2^32.
pub fn memory_laws()
    ensures written { WordsRoundTrip }
    ensures bytes { BytesStayInBounds }
    ensures words { ContextWordsStayInBounds }
{}
