//! The requests of a turn.

ghost use Rattle.std.specs.Prelude.{◌≡◌, [], map};
ghost use Rattle.acq_core.specs.Receiver.{KeepsBlocks};
ghost use Rattle.acq_core.specs.Waiting.{waiting_fills, waiting_requests};
ghost use Rattle.gev_control.specs.Sends.{SendsOn, Fails};
ghost use Rattle.packet_requests.specs.Requests.{control_request};

use acq_core::Acq;
use gev_links::Link;
use gev_types::Peer;
use packet_requests::{IdMode, send_control_request};

/// Takes the requests that wait out of the receiver, and sends them in order in the form of the stream's identifiers,
/// unless something failed before: whether something has failed by now.
pub(crate) fn send_requests<M: Link>(
    acq: &mut Acq,
    control: &mut M,
    camera: Peer,
    ids: IdMode,
    failed: bool,
) -> bool
    ensures sends { SendsOn camera (map (control_request ids) (waiting_requests acq.old)) failed result (M.sent control.old) (M.sent control.new) }
    ensures fails { Fails failed result (M.faults control.old) (M.faults control.new) }
    ensures received { M.received control.new ≡ M.received control.old }
    ensures fills { waiting_fills acq.new ≡ waiting_fills acq.old }
    ensures requests { waiting_requests acq.new ≡ [] }
    ensures rest { KeepsBlocks acq.old acq.new }
{
    let mut failed = failed;
    'requests: while let Some(bytes) = acq.next_request() {
        failed = send_control_request(control, camera, &bytes, ids, failed);
    }
    failed
}
