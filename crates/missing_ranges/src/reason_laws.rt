//! Laws over the definitions, each the contract of a function with nothing to do.

ghost use Rattle.missing_ranges.specs.ReasonLaws.{LostIdsHaveNoPacket, ReasonsAreReasons, ShortOnesSpoil};
ghost use Rattle.missing_ranges.specs.WorkedReasons.{ReasonsAreWorked};

/// A reason holds exactly where the image isn't whole.
pub fn reasons_are_reasons()
    ensures { ReasonsAreReasons }
{}

/// The payloads of an image are as they have to be exactly where each was kept and none is short.
pub fn short_ones_spoil()
    ensures { ShortOnesSpoil }
{}

/// The lost ranges are all maximal ranges of ids up to the last one of which no packet was kept, and
/// what they have together is how many such ids there are.
pub fn lost_ids_have_no_packet()
    ensures { LostIdsHaveNoPacket }
{}

/// Some reasons and lost ranges as they were worked out by hand.
pub fn reasons_are_worked()
    ensures { ReasonsAreWorked }
{}
