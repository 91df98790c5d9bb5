//! Laws of the reader's turns. Each function only carries its statement.

ghost use Rattle.gev_acq.specs.Laws.{ServedFillsAreRetired, TurnsFillTheRetired, ReadersFillTheRetired, ClientGoesThroughTurns};
ghost use Rattle.gev_acq.specs.Moments.{OwnTellsMoments, PacedTellsItsClock, PacedCutsSteps};

/// What serves inputs fills just the blocks that retire with a buffer, in order.
pub fn served_fills_are_retired()
    ensures { ServedFillsAreRetired }
{}

/// The same of turns.
pub fn turns_fill_the_retired()
    ensures { TurnsFillTheRetired }
{}

/// A new receiver's turns and its stop at the end fill just what their inputs retire, in order.
pub fn readers_fill_the_retired()
    ensures { ReadersFillTheRetired }
{}

/// The client goes through its events in the turns, one after the other, and through nothing else.
pub fn client_goes_through_turns()
    ensures { ClientGoesThroughTurns }
{}

/// Where each turn's own moment is told, the moments told in a run are those of its turns.
pub fn own_tells_moments()
    ensures { OwnTellsMoments }
{}

/// In a run with the receiver's clock the moments told are those of that clock, by the moments of the turns.
pub fn paced_tells_its_clock()
    ensures { PacedTellsItsClock }
{}

/// The receiver's clock takes the host's steps, each one above 10 ms cut to 10 ms, where the host's clock never falls.
pub fn paced_cuts_steps()
    ensures { PacedCutsSteps }
{}
