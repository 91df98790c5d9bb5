//! What the definitions promise: the function does nothing, and its contract is a law.

ghost use Rattle.gev_apply.specs.History.{ApplicationsPartStays};
ghost use Rattle.gev_apply.specs.Kinds.{TurnsAreOfTheirKind};

/// The application's turns look, take, give back and queue, and do nothing else: they claim and fill nothing,
/// and close, start and stop nothing.
pub fn turns_are_of_their_kind()
    ensures { TurnsAreOfTheirKind }
{}

/// In the history of a whole run, which begins with what the application has seen, its entries are those of its
/// turns and, where it stopped the run, of its stop, and what it took are the turns' buffers.
pub fn the_applications_part_stays()
    ensures { ApplicationsPartStays }
{}
