//! One turn of the camera's worker.

ghost use Rattle.std.specs.Prelude.{◌≡◌, ◌-◌, ◌^◌, ◌<◌, ◌≤◌, ◌++◌, [], length, IfSome, OnOk, Some};
ghost use Rattle.camera_machine.specs.Camera.{stream_peer};
ghost use Rattle.camera_machine.specs.Commands.{commanded};
ghost use Rattle.camera_machine.specs.Events.{frame_turn};
ghost use Rattle.gev_serve.specs.Wires.{wire, end_of_sends, Sends};
ghost use Rattle.gev_serve.specs.Turns.{arrived, heard_camera, heard_ack, hears, framed_turn, packets_to, ack_to, sent_in, frame_block, block_in};
ghost use Rattle.gev_serve.specs.Serving.{sends_end, IfGoesOn, IsBlock};

use crate::ends::ServeTurn;
use crate::rooms::Rooms;
use crate::sending::send_waiting;
use camera_sim::{Camera, MESSAGE_SIZE, PACKET_ROOM};
use gev_links::{Failed, Link};
use gev_types::Peer;
use std::alloc::Global;

/// Gives the camera a command, and sends its acknowledge to who sent the command.
fn obey<L: Link>(
    camera: &mut Camera,
    link: &mut L,
    peer: Peer,
    bytes: &[u8],
    moment: u64,
    answer: &mut [u8; MESSAGE_SIZE],
) -> Result<(), Failed>
    ensures sends { Sends (ack_to (Some (record { bytes = bytes.now; sender = peer })) (commanded camera.old peer bytes.now moment).ack) (end_of_sends result)
        (wire (L.received link.old) (L.sent link.old) (L.faults link.old)) (wire (L.received link.new) (L.sent link.new) (L.faults link.new)) }
    ensures state { camera.new ≡ (commanded camera.old peer bytes.now moment).camera }
{
    match camera.command(peer, bytes, moment, answer) {
        Some(len) => match link.send(peer, &answer[..len]) {
            Ok(()) => Ok(()),
            Err(failed) => Err(failed),
        },
        None => Ok(()),
    }
}

/// Gives the camera what came, or the moment where nothing came.
fn hear<L: Link>(
    camera: &mut Camera,
    link: &mut L,
    came: Option<(usize, Peer)>,
    bytes: &[u8],
    moment: u64,
    answer: &mut [u8; MESSAGE_SIZE],
) -> Result<(), Failed>
    requires { IfSome came (λ datagram. datagram.0 ≤ length bytes.now) }
    ensures sends { Sends (ack_to (arrived came bytes.now) (heard_ack camera.old (arrived came bytes.now) moment)) (end_of_sends result)
        (wire (L.received link.old) (L.sent link.old) (L.faults link.old)) (wire (L.received link.new) (L.sent link.new) (L.faults link.new)) }
    ensures state { camera.new ≡ heard_camera camera.old (arrived came bytes.now) moment }
{
    match came {
        Some((len, peer)) => obey(camera, link, peer, &bytes[..len], moment, answer),
        None => {
            camera.tick(moment);
            Ok(())
        }
    }
}

/// A turn that makes no frame: the camera obeys the command that came, or looks at its heartbeat where none came, and its
/// acknowledge and what waits are sent. The datagram is so many of `bytes`; the moment is in milliseconds.
pub fn hear_and_send<L: Link>(
    camera: &mut Camera,
    link: &mut L,
    came: Option<(usize, Peer)>,
    bytes: &[u8],
    moment: u64,
    rooms: &mut Rooms,
) -> Result<(), Failed>
    requires { IfSome came (λ datagram. datagram.0 ≤ length bytes.now) }
    ensures sends { let turn = hears camera.old (arrived came bytes.now) moment in
        Sends (ack_to (arrived came bytes.now) turn.ack ++ packets_to (stream_peer turn.camera) turn.packets) (end_of_sends result)
        (wire (L.received link.old) (L.sent link.old) (L.faults link.old)) (wire (L.received link.new) (L.sent link.new) (L.faults link.new)) }
    ensures state { OnOk result (camera.new ≡ (hears camera.old (arrived came bytes.now) moment).camera) }
{
    match hear(camera, link, came, bytes, moment, &mut rooms.answer) {
        Ok(()) => match send_waiting(camera, link, &mut rooms.packet) {
            Ok(()) => Ok(()),
            Err(failed) => Err(failed),
        },
        Err(failed) => Err(failed),
    }
}

/// Makes the next frame, where the channel is open, and sends all packets that wait.
fn frame_and_send<L: Link>(
    alloc: Global,
    camera: &mut Camera,
    link: &mut L,
    room: &mut [u8; PACKET_ROOM],
) -> ServeTurn
    requires idle { camera.old.waiting ≡ [] }
    requires count { camera.old.shelf.count < 2 ^ 64 - 1 }
    ensures sends { Sends (packets_to (stream_peer (frame_turn camera.old).camera) (frame_turn camera.old).packets) (sends_end result)
        (wire (L.received link.old) (L.sent link.old) (L.faults link.old)) (wire (L.received link.new) (L.sent link.new) (L.faults link.new)) }
    ensures state { IfGoesOn result (camera.new ≡ (frame_turn camera.old).camera) }
    ensures block { IsBlock result (frame_block camera.old) }
{
    match camera.frame(alloc) {
        Ok(block) => match send_waiting(camera, link, room) {
            Ok(()) => ServeTurn::GoesOn(block),
            Err(_failed) => ServeTurn::Fault,
        },
        Err(_no_memory) => ServeTurn::NoMemory,
    }
}

/// One turn: the camera obeys the command that came, or looks at its heartbeat where none came, and its
/// acknowledge and what waits are sent; then it makes its next frame, where the channel is open, and what
/// waits is sent. The datagram is so many of `bytes`; the moment is in milliseconds.
pub fn serve_once<L: Link>(
    alloc: Global,
    camera: &mut Camera,
    link: &mut L,
    came: Option<(usize, Peer)>,
    bytes: &[u8],
    moment: u64,
    rooms: &mut Rooms,
) -> ServeTurn
    requires fits { IfSome came (λ datagram. datagram.0 ≤ length bytes.now) }
    requires count { camera.old.shelf.count < 2 ^ 64 - 1 }
    ensures sends { Sends (sent_in camera.old (record { arrived = arrived came bytes.now; moment = moment })) (sends_end result)
        (wire (L.received link.old) (L.sent link.old) (L.faults link.old)) (wire (L.received link.new) (L.sent link.new) (L.faults link.new)) }
    ensures state { IfGoesOn result (camera.new ≡ (framed_turn camera.old (record { arrived = arrived came bytes.now; moment = moment })).camera) }
    ensures block { IsBlock result (block_in camera.old (record { arrived = arrived came bytes.now; moment = moment })) }
{
    match hear_and_send(camera, link, came, bytes, moment, rooms) {
        Ok(()) => frame_and_send(alloc, camera, link, &mut rooms.packet),
        Err(_failed) => ServeTurn::Fault,
    }
}
