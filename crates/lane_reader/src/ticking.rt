//! The moment of a turn on its way to the lanes.

ghost use Rattle.std.specs.Prelude.{◌≡◌};
ghost use Rattle.gev_lanes.specs.Sides.{AreReadersOf};
ghost use Rattle.gev_lanes.specs.Acts.{Ticks};
ghost use Rattle.lane_reader.specs.LanesTurns.{Each};

use gev_lanes::{Lanes, ReaderEnds};
use std::sync::Wait;

/// Brings a moment, in milliseconds, to each lane whose last cell had a lower one, where a free cell is there.
pub fn tick_lanes<R: Wait>(rt: &R, lanes: &Lanes, reader: &mut ReaderEnds, moment: u64)
    requires reader { AreReadersOf lanes.now reader.old }
    ensures reader { AreReadersOf lanes.now reader.new }
    ensures ticks { Each (λ k. Ticks moment) 0 reader.old reader.new }
{
    'lanes: for lane in 0..lanes.count() {
        lanes.tick(rt, reader, lane, moment);
    }
}
