//! Each function only carries its statement.

ghost use Rattle.lane_reader.specs.Laws.{LanesTakeTurns, TurnsBring, LanesTakeAll, OnlyMissesLeaveOut, FirstCellsAreBrought};

/// What the turns do on all lanes they do at each.
pub fn lanes_take_turns()
    ensures { LanesTakeTurns }
{}

/// A lane is brought some of what came for it and of the turns' moments, in order, and nothing else.
pub fn turns_bring_what_came()
    ensures { TurnsBring }
{}

/// A lane that took cells up to the end took all that the reader gave it.
pub fn a_lane_takes_all()
    ensures { LanesTakeAll }
{}

/// A lane is brought each datagram that came for it, where no try for a free cell found none.
pub fn only_misses_leave_out()
    ensures { OnlyMissesLeaveOut }
{}

/// No datagram is shed before 64 cells of its lane were taken.
pub fn first_cells_are_brought()
    ensures { FirstCellsAreBrought }
{}
