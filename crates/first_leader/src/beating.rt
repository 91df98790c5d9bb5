//! Control that is kept: the control part of a turn.

ghost use Rattle.std.specs.Prelude.{◌≡◌, ◌≤◌, false, true, length};
ghost use Rattle.gev_links.specs.Links.{receive_room};
ghost use Rattle.gev_control.specs.Controlled.{is_fault as is_turn_fault};
ghost use Rattle.gev_control.specs.Sends.{Fails};
ghost use Rattle.camera_control.specs.Steps.{lost_cause};
ghost use Rattle.first_leader.specs.Waiting.{beat_cause, Beats, cause_faults};

use bootstrap_regs::addresses::CCP;
use camera_control::{ControlEnd, is_held};
use control_client::Client;
use gev_control::{TurnEnd, client_turn, heartbeat_value};
use gev_links::Link;
use gev_types::Peer;

// Whether control was lost, by what a heartbeat told.
fn lost_cause(told: Option<u32>) -> Option<ControlEnd>
    ensures { result ≡ lost_cause true told }
{
    match told {
        Some(privilege) => {
            if is_held(privilege) {
                None
            } else {
                Some(ControlEnd::ControlLost)
            }
        }
        None => None,
    }
}

/// How a turn ends control, if it does, by how its control part ended and by what a heartbeat told in it.
pub fn beat_cause(end: TurnEnd, told: Option<u32>) -> Option<ControlEnd>
    ensures { result ≡ beat_cause end told }
{
    match end {
        TurnEnd::GoesOn => lost_cause(told),
        TurnEnd::Fault => Some(ControlEnd::LinkFault),
        TurnEnd::NoAnswer(req) => Some(ControlEnd::NoAnswer(req)),
        TurnEnd::Refused(status) => Some(ControlEnd::RefusedAt {
            register: CCP,
            status,
        }),
    }
}

/// The control part of a turn: how it ends the wait, if it does.
pub(crate) fn keep_control<M: Link>(
    client: &mut Client,
    control: &mut M,
    camera: Peer,
    moment: u64,
    out: &mut [u8],
) -> Option<ControlEnd>
    requires room { length out.old ≡ receive_room }
    ensures beats { Beats camera client.old moment client.new (M.received control.old) (M.received control.new)
        (M.sent control.old) (M.sent control.new) result }
    ensures fails { Fails false (cause_faults result) (M.faults control.old) (M.faults control.new) }
{
    let waited = !client.is_idle();
    let end = client_turn(client, control, camera, moment, false, out);
    beat_cause(end, heartbeat_value(client, waited))
}
