//! The end on its way to the lanes.

ghost use Rattle.std.specs.Prelude.{◌≡◌};
ghost use Rattle.gev_lanes.specs.Sides.{AreReadersOf, AreKept};
ghost use Rattle.lane_reader.specs.LanesTurns.{EndsEach};

use gev_lanes::{Lanes, ReaderEnds};
use std::sync::Wait;

/// Tells each lane that the reader has ended, in the cell that was kept for it, so that it waits for no lane, also for
/// none that hasn't begun. The cells' moment is 0.
pub fn end_lanes<R: Wait>(rt: &R, lanes: &Lanes, reader: &mut ReaderEnds)
    requires reader { AreReadersOf lanes.now reader.old }
    requires kept { AreKept reader.old }
    ensures reader { AreReadersOf lanes.now reader.new }
    ensures ends { EndsEach reader.old reader.new }
{
    'lanes: for lane in 0..lanes.count() {
        lanes.end(rt, reader, lane, 0);
    }
}
