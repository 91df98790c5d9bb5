//! A lane's requests on their way to the reader.

ghost use Rattle.std.specs.Prelude.{◌≡◌, []};
ghost use Rattle.acq_core.specs.Receiver.{KeepsBlocks};
ghost use Rattle.acq_core.specs.Waiting.{waiting_fills, waiting_requests};
ghost use Rattle.gev_lanes.specs.Sides.{IsLaneAt};
ghost use Rattle.lane_crew.specs.Lane.{PutsRequests};

use acq_core::Acq;
use gev_lanes::{LaneEnds, Lanes};
use std::sync::Wait;

/// Takes the requests that wait out of the receiver, and gives them to the reader in order. One that finds their
/// queue full is left out.
pub(crate) fn put_requests<R: Wait>(rt: &R, lanes: &Lanes, ends: &mut LaneEnds, acq: &mut Acq)
    requires lane { IsLaneAt lanes.now ends.old }
    ensures lane { IsLaneAt lanes.now ends.new }
    ensures puts { PutsRequests (waiting_requests acq.old) ends.old ends.new }
    ensures fills { waiting_fills acq.new ≡ waiting_fills acq.old }
    ensures requests { waiting_requests acq.new ≡ [] }
    ensures rest { KeepsBlocks acq.old acq.new }
{
    'requests: while let Some(request) = acq.next_request() {
        lanes.put_request(rt, ends, request);
    }
}
