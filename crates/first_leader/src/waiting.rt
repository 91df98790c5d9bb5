//! The wait.

ghost use Rattle.std.specs.Prelude.{◌≡◌, ◌≤◌, false, length};
ghost use Rattle.std.specs.Bool.{OnTrue};
ghost use Rattle.gev_links.specs.Links.{receive_room};
ghost use Rattle.gev_links.specs.Told.{IsSpent};
ghost use Rattle.gev_control.specs.Sends.{Fails};
ghost use Rattle.first_leader.specs.Waiting.{AwaitsLeader, MakesTurn, PassesTime, IsInputSpent, none_in_fault, FaultsOf, InputOf, is_fault, ends_in_fault};

use crate::beating::keep_control;
use crate::leading::FirstLeader;
use crate::looking::look;
use crate::no_leader::NoLeader;
use crate::patience::Patience;
use crate::silence::{Pace, is_over, next_pace};
use camera_control::ControlEnd;
use control_client::Client;
use gev_far::PeekLink;
use gev_links::{Clock, Link, Source};
use gev_types::Peer;
use std::sync::Wait;

// The room of a receive, in bytes.
const RECEIVE_ROOM: usize = 9000;

// How many milliseconds at least lie between two looks whether the input has ended.
const INPUT_PAUSE: u64 = 100;

// A wait for a leader.
#[derive(Clone, Copy)]
struct LeaderWait {
    // the camera's control port
    camera: Peer,
    patience: Patience,
    // the moment at which it began, in milliseconds
    begin: u64,
}

// The part of a turn behind its look: how the wait ended, if it did.
fn pass_time<M: Link, C: Clock>(
    client: &mut Client,
    control: &mut M,
    clock: &mut C,
    wait: LeaderWait,
    pace: &mut Pace,
    out: &mut [u8],
) -> Option<NoLeader>
    requires room { length out.old ≡ receive_room }
    ensures passes { PassesTime wait.camera wait.patience wait.begin pace.old pace.new
        (C.told clock.old) (C.told clock.new) client.old client.new (M.received control.old) (M.received control.new)
        (M.sent control.old) (M.sent control.new) result }
    ensures fails { Fails false (none_in_fault result) (M.faults control.old) (M.faults control.new) }
{
    let moment = clock.now();
    match keep_control(client, control, wait.camera, moment, out) {
        Some(cause) => Some(NoLeader::Ended(cause)),
        None => {
            if is_over(wait.patience.silence, wait.begin, *pace, moment) {
                return Some(NoLeader::Silent);
            }
            *pace = next_pace(wait.patience.silence, *pace, moment);
            None
        }
    }
}

// One turn: how the wait ended, if it did.
fn wait_once<L: PeekLink, M: Link, C: Clock>(
    client: &mut Client,
    stream: &mut L,
    control: &mut M,
    clock: &mut C,
    wait: LeaderWait,
    pace: &mut Pace,
    out: &mut [u8],
) -> Option<Result<FirstLeader, NoLeader>>
    requires room { length out.old ≡ receive_room }
    ensures makes { MakesTurn wait.camera wait.patience wait.begin pace.old pace.new
        (record { received = L.received stream.old; heard = M.received control.old; sent = M.sent control.old; told = C.told clock.old; client = client.old })
        (record { received = L.received stream.new; heard = M.received control.new; sent = M.sent control.new; told = C.told clock.new; client = client.new })
        result }
    ensures faults { FaultsOf (ends_in_fault result) (L.faults stream.old) (L.faults stream.new) (M.faults control.old) (M.faults control.new) }
{
    match look(stream, wait.camera, wait.patience.packet_size, out) {
        Ok(Some(leader)) => Some(Ok(leader)),
        Ok(None) => match pass_time(client, control, clock, wait, pace, out) {
            Some(why) => Some(Err(why)),
            None => None,
        },
        Err(_) => Some(Err(NoLeader::Ended(ControlEnd::LinkFault))),
    }
}

// Whether the input has ended, where it's time to look: at most every 100 milliseconds.
fn look_at_input<S: Source>(input: &mut S, until_input: bool, moment: u64, looked: &mut u64) -> bool
    ensures { OnTrue result (IsInputSpent until_input (S.left input.new)) }
{
    if !until_input || moment < looked.saturating_add(INPUT_PAUSE) {
        return false;
    }
    *looked = moment;
    input.has_ended()
}

/// Waits for the first leader of a stream that fits, which stays in the stream's link for the next receive, and keeps the
/// control of the camera: it sends to the peer `camera` what the client has to send, heartbeats alone.
///
/// A turn looks at what waits on `stream`: a leader of the camera's address ends the wait, everything else is received and
/// dropped. Then it reads the clock, receives once on `control`, gives the client what came, lets it tick and sends what
/// it has to send. The wait ends where control does, where a call of a link failed, where no leader came for as long as is
/// waited, and where the input has ended, if it's looked at. A turn whose moment is further behind the one before it than
/// is waited ends nothing by that, and the next one decides.
///
/// It doesn't rest: `stream` waits a little where nothing came.
pub fn await_leader<R: Wait, L: PeekLink, M: Link, C: Clock, S: Source>(
    rt: &R,
    client: &mut Client,
    stream: &mut L,
    control: &mut M,
    clock: &mut C,
    input: &mut S,
    camera: Peer,
    patience: Patience,
) -> Result<FirstLeader, NoLeader>
    ensures awaits { AwaitsLeader camera patience
        (record { received = L.received stream.old; heard = M.received control.old; sent = M.sent control.old; told = C.told clock.old; client = client.old })
        (record { received = L.received stream.new; heard = M.received control.new; sent = M.sent control.new; told = C.told clock.new; client = client.new })
        result }
    ensures input { InputOf result (S.left input.new) }
    ensures faults { FaultsOf (is_fault result) (L.faults stream.old) (L.faults stream.new) (M.faults control.old) (M.faults control.new) }
{
    let mut out = [0; RECEIVE_ROOM];
    let begin = clock.now();
    let mut pace = Pace {
        last: begin,
        spared: false,
    };
    let mut looked = begin;
    let wait = LeaderWait {
        camera,
        patience,
        begin,
    };
    'turns: for _ in rt.forever() {
        match wait_once(client, stream, control, clock, wait, &mut pace, &mut out) {
            Some(end) => return end,
            None => {}
        }
        if look_at_input(input, patience.until_input, pace.last, &mut looked) {
            return Err(NoLeader::InputEnded);
        }
    }
    unreachable!()
}
