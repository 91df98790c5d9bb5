//! Laws over the definitions, each the contract of a function with nothing to do.

ghost use Rattle.missing_ranges.specs.RangeLaws.{HolesAreMaximal, HolesAskWithin, HolesBeginWithFirst};
ghost use Rattle.missing_ranges.specs.WorkedRanges.{HolesAreWorked};

/// The list of holes has each maximal range of clear ids, lowest first, and nothing else.
pub fn holes_are_maximal()
    ensures { HolesAreMaximal }
{}

/// The first hole heads the list, and behind it come the holes of the ids behind it.
pub fn holes_begin_with_first()
    ensures { HolesBeginWithFirst }
{}

/// The list of holes asks the test of the ids in question alone.
pub fn holes_ask_within()
    ensures { HolesAskWithin }
{}

/// Some lists of holes as they were worked out by hand.
pub fn holes_are_worked()
    ensures { HolesAreWorked }
{}
