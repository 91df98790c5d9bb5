//! Laws over the definitions, each the contract of a function with nothing to do.

ghost use Rattle.missing_ranges.specs.Laws.{MissingIsMaximal};
ghost use Rattle.missing_ranges.specs.Worked.{MissingIsWorked};

/// The missing ranges are all maximal ranges of ids up to the last one of which the packet neither was
/// kept nor is gone.
pub fn missing_is_maximal()
    ensures { MissingIsMaximal }
{}

/// Some lists of missing ranges as they were worked out by hand.
pub fn missing_is_worked()
    ensures { MissingIsWorked }
{}
