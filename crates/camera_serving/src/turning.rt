//! Turns over a link.

ghost use Rattle.std.specs.Prelude.{◌≡◌, ◌≢◌, ◌+◌, ◌-◌, ◌^◌, ◌<◌, ◌≤◌, false, length, IfSome};
ghost use Rattle.gev_links.specs.Faults.{Rose};
ghost use Rattle.gev_serve.specs.Wires.{wire, Sends};
ghost use Rattle.gev_serve.specs.Turns.{arrived};
ghost use Rattle.gev_serve.specs.Serving.{sends_end, IfGoesOn, IsBlock};
ghost use Rattle.camera_serving.specs.Turns.{sent_by, camera_after, block_by, one_if, one_if_framing};
ghost use Rattle.camera_serving.specs.Turning.{TakesTurn, EndsTurns};

use crate::ends::TurnsEnd;
use crate::kinds::{Cut, Made, TurnKind};
use crate::pacing::{Pace, has_ended};
use camera_sim::Camera;
use camera_words::SimulateWords;
use gev_far::TimedLink;
use gev_links::{Clock, Link, Source};
use gev_serve::{RECEIVE_ROOM, Rooms, ServeTurn, hear_and_send, serve_once};
use gev_types::Peer;
use std::alloc::Global;
use std::sync::Wait;

/// So many frames, with that of a turn if it made one.
fn with_frame(frames: u64, block: Option<u64>) -> u64
    requires { frames < 2 ^ 64 - 1 }
    ensures { result ≡ frames + one_if block }
{
    match block {
        Some(_) => frames + 1,
        None => frames,
    }
}

/// So many frame turns, with a turn of this kind.
fn with_turn(turns: u64, kind: TurnKind) -> u64
    requires { turns < 2 ^ 64 - 1 }
    ensures { result ≡ turns + one_if_framing kind }
{
    match kind {
        TurnKind::Serving => turns,
        TurnKind::Framing => turns + 1,
    }
}

/// Makes the camera's turn of this kind with what came: so many of `bytes`. The moment is in milliseconds.
fn serve_as<L: Link>(
    alloc: Global,
    kind: TurnKind,
    camera: &mut Camera,
    link: &mut L,
    came: Option<(usize, Peer)>,
    bytes: &[u8],
    moment: u64,
    rooms: &mut Rooms,
) -> ServeTurn
    requires fits { IfSome came (λ datagram. datagram.0 ≤ length bytes.now) }
    requires count { camera.old.shelf.count < 2 ^ 64 - 1 }
    ensures sends { Sends (sent_by kind camera.old (record { arrived = arrived came bytes.now; moment = moment })) (sends_end result)
        (wire (L.received link.old) (L.sent link.old) (L.faults link.old)) (wire (L.received link.new) (L.sent link.new) (L.faults link.new)) }
    ensures state { IfGoesOn result (camera.new ≡ camera_after kind camera.old (record { arrived = arrived came bytes.now; moment = moment })) }
    ensures block { IsBlock result (block_by kind camera.old (record { arrived = arrived came bytes.now; moment = moment })) }
{
    match kind {
        TurnKind::Serving => match hear_and_send(camera, link, came, bytes, moment, rooms) {
            Ok(()) => ServeTurn::GoesOn(None),
            Err(_failed) => ServeTurn::Fault,
        },
        TurnKind::Framing => serve_once(alloc, camera, link, came, bytes, moment, rooms),
    }
}

/// Receives once, for so many milliseconds at most where nothing is there, reads the clock once, and makes the camera's turn
/// of this kind with what came.
fn make_turn<L: TimedLink, C: Clock>(
    alloc: Global,
    kind: TurnKind,
    wait: u32,
    camera: &mut Camera,
    link: &mut L,
    clock: &mut C,
    room: &mut [u8; RECEIVE_ROOM],
    rooms: &mut Rooms,
) -> Result<Made, Cut>
    requires { camera.old.shelf.count < 2 ^ 64 - 1 }
    ensures { TakesTurn kind result camera.old camera.new
        (wire (L.received link.old) (L.sent link.old) (L.faults link.old)) (wire (L.received link.new) (L.sent link.new) (L.faults link.new))
        (C.told clock.old) (C.told clock.new) }
{
    let Ok(came) = link.recv_within(room, wait) else {
        return Err(Cut::Fault);
    };
    let moment = clock.now();
    match serve_as(alloc, kind, camera, link, came, room, moment, rooms) {
        ServeTurn::GoesOn(block) => Ok(Made {
            moment,
            is_quiet: came.is_none(),
            block,
        }),
        ServeTurn::Fault => Err(Cut::Fault),
        ServeTurn::NoMemory => Err(Cut::NoMemory),
    }
}

/// Makes a camera's turns over its link: in each it receives once, reads the clock once, and serves what came. So many of
/// them also make a frame, so many a second; between two of these what comes is served at once. Where the words say so it
/// looks at standard input before the first turn, and then every 100 milliseconds: where that has ended the turns end too.
pub fn serve_turns<R: Wait, S: Source, L: TimedLink, C: Clock>(
    rt: &R,
    alloc: Global,
    words: &SimulateWords,
    source: &mut S,
    camera: &mut Camera,
    link: &mut L,
    clock: &mut C,
) -> TurnsEnd
    requires count { camera.old.shelf.count + words.now.turns ≤ 2 ^ 64 - 1 }
    ensures ends { EndsTurns result words.now.rate words.now.turns words.now.with_input (S.left source.old) (S.left source.new) camera.old camera.new
        (wire (L.received link.old) (L.sent link.old) (L.faults link.old)) (wire (L.received link.new) (L.sent link.new) (L.faults link.new))
        (C.told clock.old) (C.told clock.new) }
    ensures unread { words.now.with_input ≡ false → S.left source.new ≡ S.left source.old }
    ensures reads_steady { S.faults source.new ≡ S.faults source.old }
    ensures link_steady { result ≢ TurnsEnd.Fault → L.faults link.new ≡ L.faults link.old }
    ensures link_failed { result ≡ TurnsEnd.Fault → Rose (L.faults link.old) (L.faults link.new) }
{
    let mut room = [0; RECEIVE_ROOM];
    let mut rooms = Rooms::new();
    let mut pace = Pace::new(words.rate);
    let mut turns = 0;
    let mut frames = 0;
    'turns: for _ in rt.forever() {
        if turns >= words.turns {
            return TurnsEnd::Over { turns, frames };
        }
        if has_ended(words.with_input, source, &pace) {
            return TurnsEnd::Over { turns, frames };
        }
        let kind = pace.next_kind();
        let wait = pace.wait();
        match make_turn(
            alloc, kind, wait, camera, link, clock, &mut room, &mut rooms,
        ) {
            Ok(made) => {
                pace.pass(kind, made);
                frames = with_frame(frames, made.block);
                turns = with_turn(turns, kind);
            }
            Err(Cut::Fault) => return TurnsEnd::Fault,
            Err(Cut::NoMemory) => return TurnsEnd::NoMemory,
        }
    }
    unreachable!()
}
