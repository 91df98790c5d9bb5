//! Lines of stream packets.

ghost use Rattle.std.specs.Prelude.{◌≡◌, ◌++◌, OnOk, IfOk};
ghost use Rattle.camera_machine.specs.Camera.{stream_peer};
ghost use Rattle.camera_machine.specs.Stream.{all_waiting, emptied};
ghost use Rattle.camera_replay.specs.Serving.{packets_text};
ghost use Rattle.camera_replay.specs.Packets.{Gave};

use camera_sim::{Camera, PACKET_ROOM};
use gev_report::line_stream;
use gev_types::NoMemory;
use std::alloc::Global;

/// Adds the line of the packet that waits first, as the camera gives it, and tells whether one waited.
fn write_next(
    alloc: Global,
    camera: &mut Camera,
    packet: &mut [u8; PACKET_ROOM],
    out: &mut Vec<u8>,
) -> Result<bool, NoMemory>
    ensures { IfOk result (λ one. Gave one camera.old out.old.items out.new.items camera.new) }
{
    match camera.next_packet(packet) {
        Some((peer, len)) => {
            line_stream(alloc, peer.port, &packet[..len], out)?;
            Ok(true)
        }
        None => Ok(false),
    }
}

/// Adds a line for each packet that waits, in order, as the camera gives it.
pub(crate) fn write_waiting(
    alloc: Global,
    camera: &mut Camera,
    packet: &mut [u8; PACKET_ROOM],
    out: &mut Vec<u8>,
) -> Result<(), NoMemory>
    ensures sent { OnOk result (out.new.items ≡ out.old.items ++ packets_text (stream_peer camera.old).port (all_waiting camera.old.waiting)) }
    ensures emptied { OnOk result (camera.new ≡ emptied camera.old) }
{
    'packets: loop {
        match write_next(alloc, camera, packet, out) {
            Ok(true) => continue 'packets,
            Ok(false) => return Ok(()),
            Err(NoMemory) => return Err(NoMemory),
        }
    }
}
