//! Requests that are sent.

ghost use Rattle.std.specs.Prelude.{◌≡◌, [], ◌∷◌};
ghost use Rattle.gev_control.specs.Sends.{SendsOn, Fails};
ghost use Rattle.packet_requests.specs.Requests.{control_request};

use crate::id_mode::IdMode;
use crate::writing::write_control_request;
use gev_control::send_unless;
use gev_links::Link;
use gev_types::Peer;

/// Sends what a receiver's request is on the control link, unless something failed before: whether something has failed by
/// now.
pub fn send_control_request<M: Link>(
    control: &mut M,
    camera: Peer,
    request: &[u8; 28],
    ids: IdMode,
    failed: bool,
) -> bool
    ensures sends { SendsOn camera (control_request ids request.now ∷ []) failed result (M.sent control.old) (M.sent control.new) }
    ensures fails { Fails failed result (M.faults control.old) (M.faults control.new) }
    ensures received { M.received control.new ≡ M.received control.old }
{
    let mut out = [0; 28];
    let count = write_control_request(&mut out, request, ids);
    send_unless(control, camera, &out[..count], failed)
}
