// The law of loads.
ghost use Rattle.store_ranges.specs.Laws.{LoadsAreMonotone};

/// The law of loads: a load is monotone, so an abstract value with fewer addresses gives a loaded
/// value with fewer words.
pub fn load_laws()
    ensures { LoadsAreMonotone }
{}
