//! What is sent on the control link.

ghost use Rattle.std.specs.Prelude.{◌≡◌, [], ◌∷◌, false};
ghost use Rattle.client_machine.specs.Machine.{taken, to_send};
ghost use Rattle.gev_links.specs.Links.{Adds};
ghost use Rattle.gev_control.specs.Sends.{addressed, SendsOn, Fails};
ghost use Rattle.gev_control.specs.Controlled.{sent_by, is_fault, HadToSend, IsPlainEnd};

use crate::turn_end::TurnEnd;
use control_client::Client;
use gev_links::Link;
use gev_types::Peer;

/// Sends a datagram unless something failed before: whether something has failed by now.
pub fn send_unless<M: Link>(control: &mut M, camera: Peer, bytes: &[u8], failed: bool) -> bool
    ensures sends { SendsOn camera (bytes.now ∷ []) failed result (M.sent control.old) (M.sent control.new) }
    ensures fails { Fails failed result (M.faults control.old) (M.faults control.new) }
    ensures received { M.received control.new ≡ M.received control.old }
{
    if failed {
        return true;
    }
    match control.send(camera, bytes) {
        Ok(()) => false,
        Err(_) => true,
    }
}

/// Sends what the client has to send.
pub(crate) fn send_waiting<M: Link>(client: &mut Client, control: &mut M, camera: Peer) -> TurnEnd
    ensures state { client.new ≡ taken client.old }
    ensures plain { IsPlainEnd result }
    ensures had { HadToSend result (to_send client.old.asked) }
    ensures sent { Adds (M.sent control.old) (M.sent control.new) (addressed camera (sent_by result (to_send client.old.asked))) }
    ensures fails { Fails false (is_fault result) (M.faults control.old) (M.faults control.new) }
    ensures received { M.received control.new ≡ M.received control.old }
{
    match client.to_send() {
        Some(bytes) => match control.send(camera, bytes) {
            Ok(()) => TurnEnd::GoesOn,
            Err(_) => TurnEnd::Fault,
        },
        None => TurnEnd::GoesOn,
    }
}
