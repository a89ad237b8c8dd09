// Public laws of sources and of the images that are linked from their objects.
ghost use Rattle.tc_program.specs.PlacementLaws.{PlacesBecomeSegments, EntryIsSymbolAddress, SymbolsAreOfWholeSource, UnresolvedFieldsAreFillable, ShortJumpsReachTargets, LinkedImagesArePlaced};

/// Laws of an image linked from valid sources. Its segments are places of the layout, and its entry
/// is a global label's address. Statements are at their addresses, other bytes are 0, and 16-bit
/// jumps reach their targets.
pub fn placing_laws()
    ensures segments { PlacesBecomeSegments }
    ensures entry { EntryIsSymbolAddress }
    ensures symbols { SymbolsAreOfWholeSource }
    ensures fields { UnresolvedFieldsAreFillable }
    ensures jumps { ShortJumpsReachTargets }
    ensures placed { LinkedImagesArePlaced }
{}
