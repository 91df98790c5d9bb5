//! A law of the lanes' parts in the whole history. The function only carries its statement.

ghost use Rattle.lane_crew.specs.Laws.{LanesPartsStay};

/// What the lanes did is so in each history that goes on.
pub fn lanes_parts_stay()
    ensures { LanesPartsStay }
{}
