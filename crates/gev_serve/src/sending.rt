//! What the camera has to send, on a link.

ghost use Rattle.std.specs.Prelude.{◌≡◌, OnOk};
ghost use Rattle.camera_machine.specs.Camera.{stream_peer};
ghost use Rattle.camera_machine.specs.Stream.{all_waiting, emptied};
ghost use Rattle.gev_serve.specs.Wires.{wire, end_of_sends, Sends};
ghost use Rattle.gev_serve.specs.Turns.{packets_to};
ghost use Rattle.gev_serve.specs.Sending.{SendsNext};

use camera_sim::{Camera, PACKET_ROOM};
use gev_links::{Failed, Link};

/// Sends the packet that waits first, and tells whether one waited.
fn send_next<L: Link>(
    camera: &mut Camera,
    link: &mut L,
    room: &mut [u8; PACKET_ROOM],
) -> Result<bool, Failed>
    ensures { SendsNext result camera.old camera.new
        (wire (L.received link.old) (L.sent link.old) (L.faults link.old)) (wire (L.received link.new) (L.sent link.new) (L.faults link.new)) }
{
    match camera.fetch(room) {
        Some((peer, len)) => match link.send(peer, &room[..len]) {
            Ok(()) => Ok(true),
            Err(failed) => Err(failed),
        },
        None => Ok(false),
    }
}

/// Sends all packets that wait, in order, up to the first send that fails.
pub(crate) fn send_waiting<L: Link>(
    camera: &mut Camera,
    link: &mut L,
    room: &mut [u8; PACKET_ROOM],
) -> Result<(), Failed>
    ensures sends { Sends (packets_to (stream_peer camera.old) (all_waiting camera.old.waiting)) (end_of_sends result)
        (wire (L.received link.old) (L.sent link.old) (L.faults link.old)) (wire (L.received link.new) (L.sent link.new) (L.faults link.new)) }
    ensures emptied { OnOk result (camera.new ≡ emptied camera.old) }
{
    'packets: loop {
        match send_next(camera, link, room) {
            Ok(true) => continue 'packets,
            Ok(false) => return Ok(()),
            Err(failed) => return Err(failed),
        }
    }
}
