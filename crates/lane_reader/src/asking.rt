//! The lanes' requests on their way to the camera.

ghost use Rattle.std.specs.Prelude.{◌≡◌, ◌<◌, length};
ghost use Rattle.gev_lanes.specs.Sides.{AreReadersOf};
ghost use Rattle.gev_control.specs.Sends.{Fails};
ghost use Rattle.lane_reader.specs.LanesTurns.{AsksAndSends};
ghost use Rattle.lane_reader.specs.Asking.{AsksAt};

use gev_control::send_unless;
use gev_lanes::{Lanes, ReaderEnds};
use gev_links::Link;
use gev_types::Peer;
use std::sync::Wait;

// How many requests of a lane are taken in a turn at most.
const MOST: usize = 64;

// Takes the requests of one lane, and sends each, unless something failed before: whether something has failed
// by now.
fn ask_lane<R: Wait, M: Link>(
    rt: &R,
    lanes: &Lanes,
    reader: &mut ReaderEnds,
    lane: usize,
    control: &mut M,
    camera: Peer,
    failed: bool,
) -> bool
    requires reader { AreReadersOf lanes.now reader.old }
    requires lane { lane < length lanes.now }
    ensures reader { AreReadersOf lanes.now reader.new }
    ensures asks { AsksAt lane camera failed result (M.sent control.old) (M.sent control.new) reader.old reader.new }
    ensures fails { Fails failed result (M.faults control.old) (M.faults control.new) }
    ensures received { M.received control.new ≡ M.received control.old }
{
    let mut failed = failed;
    'requests: for _request in 0..MOST {
        match lanes.ask(rt, reader, lane) {
            Some(request) => failed = send_unless(control, camera, &request, failed),
            None => return failed,
        }
    }
    failed
}

/// Takes the requests of each lane, by rising lane, until a lane has none or 64 of it were taken, and sends them in
/// order to the peer `camera`, unless something failed before: whether something has failed by now. What was taken
/// after a failure stays unsent.
pub fn ask_lanes<R: Wait, M: Link>(
    rt: &R,
    lanes: &Lanes,
    reader: &mut ReaderEnds,
    control: &mut M,
    camera: Peer,
    failed: bool,
) -> bool
    requires reader { AreReadersOf lanes.now reader.old }
    ensures reader { AreReadersOf lanes.now reader.new }
    ensures asks { AsksAndSends camera failed result (M.sent control.old) (M.sent control.new) reader.old reader.new }
    ensures fails { Fails failed result (M.faults control.old) (M.faults control.new) }
    ensures received { M.received control.new ≡ M.received control.old }
{
    let mut failed = failed;
    'lanes: for lane in 0..lanes.count() {
        failed = ask_lane(rt, lanes, reader, lane, control, camera, failed);
    }
    failed
}
