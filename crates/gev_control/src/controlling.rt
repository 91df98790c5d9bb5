//! The control part of a turn.

ghost use Rattle.std.specs.Prelude.{◌≡◌, [], length, false};
ghost use Rattle.gev_links.specs.Links.{receive_room};
ghost use Rattle.gev_control.specs.Sends.{Fails};
ghost use Rattle.gev_control.specs.Controlled.{is_fault, ticks_turn, hears_turn, Does, HadToSend, ClientTurn};

use crate::sending::send_waiting;
use crate::turn_end::TurnEnd;
use control_client::{Client, Outcome};
use gev_links::Link;
use gev_types::Peer;

/// The client ticks, and sends what it has to send.
pub(crate) fn tick_client<M: Link>(
    client: &mut Client,
    control: &mut M,
    camera: Peer,
    moment: u64,
) -> TurnEnd
    ensures does { Does (ticks_turn [] client.old moment) camera result client.new (M.sent control.old) (M.sent control.new) }
    ensures had { HadToSend result (ticks_turn [] client.old moment).send }
    ensures fails { Fails false (is_fault result) (M.faults control.old) (M.faults control.new) }
    ensures received { M.received control.new ≡ M.received control.old }
{
    match client.tick(moment) {
        Outcome::NoAnswer(req) => TurnEnd::NoAnswer(req),
        Outcome::Waiting(_) => send_waiting(client, control, camera),
        Outcome::Idle => send_waiting(client, control, camera),
        Outcome::Acked => send_waiting(client, control, camera),
        Outcome::Refused(_) => send_waiting(client, control, camera),
    }
}

/// The client takes in what came, and then ticks.
fn hear_client<M: Link>(
    client: &mut Client,
    control: &mut M,
    camera: Peer,
    bytes: &[u8],
    moment: u64,
) -> TurnEnd
    ensures does { Does (hears_turn client.old bytes.now moment) camera result client.new (M.sent control.old) (M.sent control.new) }
    ensures fails { Fails false (is_fault result) (M.faults control.old) (M.faults control.new) }
    ensures received { M.received control.new ≡ M.received control.old }
{
    match client.receive(bytes, moment) {
        Outcome::Refused(status) => TurnEnd::Refused(status),
        Outcome::Waiting(_) => tick_client(client, control, camera, moment),
        Outcome::Idle => tick_client(client, control, camera, moment),
        Outcome::Acked => tick_client(client, control, camera, moment),
        Outcome::NoAnswer(_) => tick_client(client, control, camera, moment),
    }
}

/// The control part of a turn: one receive on the control link into `out`, which has 9,000 bytes, and what the
/// client makes of it; nothing where something failed before.
pub fn client_turn<M: Link>(
    client: &mut Client,
    control: &mut M,
    camera: Peer,
    moment: u64,
    failed: bool,
    out: &mut [u8],
) -> TurnEnd
    requires room { length out.old ≡ receive_room }
    ensures turn { ClientTurn camera client.old moment failed result client.new (M.received control.old) (M.received control.new)
        (M.sent control.old) (M.sent control.new) }
    ensures fails { Fails failed (is_fault result) (M.faults control.old) (M.faults control.new) }
{
    if failed {
        return TurnEnd::Fault;
    }
    match control.recv(out) {
        Ok(came) => match came {
            Some((count, _)) => hear_client(client, control, camera, &out[..count], moment),
            None => tick_client(client, control, camera, moment),
        },
        Err(_) => TurnEnd::Fault,
    }
}
