//! Laws of the reader's part in the whole history. Each function only carries its statement.

ghost use Rattle.gev_acq.specs.History.{ReadersPartStays, ReadersFillsAreRetired, ReadersLayNothing, ReadersClaimOneSize};

/// What the reader did is its part of each history that goes on from what it had seen.
pub fn readers_part_stays()
    ensures { ReadersPartStays }
{}

/// The reader fills just what its turns' inputs and the stop retire, in order.
pub fn readers_fills_are_retired()
    ensures { ReadersFillsAreRetired }
{}

/// Where no fill was refused the reader laid nothing.
pub fn readers_lay_nothing()
    ensures { ReadersLayNothing }
{}

/// Where all buffers have one size the reader's claims got buffers of that size.
pub fn readers_claim_one_size()
    ensures { ReadersClaimOneSize }
{}
