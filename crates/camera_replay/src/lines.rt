//! What each line of a camera script has the camera do.

ghost use Rattle.std.specs.Prelude.{◌≡◌, ◌*◌, [], length, IsOk, OnOk, option_map};
ghost use Rattle.hex.specs.Hex.{decode_of};
ghost use Rattle.gev_script.specs.Lines as line;
ghost use Rattle.gev_script.specs.Spelling.{IsCommand};
ghost use Rattle.gev_report.specs.CameraLines.{frame_line};
ghost use Rattle.camera_machine.specs.Commands.{commanded};
ghost use Rattle.camera_machine.specs.Stream.{framed};
ghost use Rattle.camera_replay.specs.Serving.{local_peer, ack_text, next_numbers};
ghost use Rattle.camera_replay.specs.Running.{IsAtRest, Answers, Goes};

use crate::packets::write_waiting;
use crate::rooms::{MOST_COMMAND_BYTES, Rooms};
use crate::running::Running;
use camera_sim::{Camera, MESSAGE_SIZE};
use gev_report::{line_ack, line_frame};
use gev_types::{NoMemory, Peer};
use std::alloc::Global;

/// The address of this machine itself, 127.0.0.1.
const LOCAL_ADDRESS: u32 = 0x7F00_0001;

/// Runs `t`: raises the moment, and lets the camera look at the heartbeat.
pub(crate) fn tick(running: &mut Running, moment: u64)
    requires rests { IsAtRest running.old }
    ensures { Goes (line.tick moment) running.old [] running.new }
{
    let raised = running.moment.max(moment);
    running.moment = raised;
    running.camera.tick(raised);
}

/// Writes the bytes that the hex digits spell.
fn decode(digits: &[u8], bytes: &mut [u8])
    requires spelled { IsOk (decode_of digits.now) }
    requires room { length digits.now ≡ 2 * length bytes.old }
    ensures { decode_of digits.now ≡ Ok bytes.new }
{
    let _decoded = hex::decode_to_slice(digits, bytes);
}

/// Gives the camera a command, and adds the line of its acknowledge, where there is one.
fn answer(
    alloc: Global,
    camera: &mut Camera,
    moment: u64,
    port: u16,
    bytes: &[u8],
    ack: &mut [u8; MESSAGE_SIZE],
    out: &mut Vec<u8>,
) -> Result<(), NoMemory>
    requires empty { out.old.items ≡ [] }
    ensures camera { camera.new ≡ (commanded camera.old (local_peer port) bytes.now moment).camera }
    ensures text { OnOk result (out.new.items ≡ ack_text port (commanded camera.old (local_peer port) bytes.now moment).ack) }
{
    let peer = Peer {
        address: LOCAL_ADDRESS,
        port,
    };
    match camera.command(peer, bytes, moment, ack) {
        Some(len) => line_ack(alloc, port, &ack[..len], out),
        None => Ok(()),
    }
}

/// Gives the camera the command that the digits spell.
fn answer_digits(
    alloc: Global,
    camera: &mut Camera,
    moment: u64,
    port: u16,
    digits: &[u8],
    room: &mut [u8; MOST_COMMAND_BYTES],
    ack: &mut [u8; MESSAGE_SIZE],
    out: &mut Vec<u8>,
) -> Result<(), NoMemory>
    requires is_command { IsCommand port digits.now }
    requires empty { out.old.items ≡ [] }
    ensures { OnOk result (Answers camera.old moment port digits.now out.new.items camera.new) }
{
    let bytes = &mut room[..digits.len() / 2];
    decode(digits, bytes);
    answer(alloc, camera, moment, port, bytes, ack, out)
}

/// Runs `c`: a command from this port at the moment that stands, in hex digits; then all that waits is sent.
pub(crate) fn command(
    alloc: Global,
    running: &mut Running,
    port: u16,
    digits: &[u8],
    rooms: &mut Rooms,
    out: &mut Vec<u8>,
) -> Result<(), NoMemory>
    requires is_command { IsCommand port digits.now }
    requires empty { out.old.items ≡ [] }
    ensures { OnOk result (Goes (line.command port digits.now) running.old out.new.items running.new) }
{
    let moment = running.moment;
    let camera = &mut running.camera;
    answer_digits(
        alloc,
        camera,
        moment,
        port,
        digits,
        &mut rooms.command,
        &mut rooms.ack,
        out,
    )?;
    write_waiting(alloc, camera, &mut rooms.packet, out)
}

/// The numbers that a frame's line tells.
fn numbers(block: Option<u64>, packets: u32) -> Option<(u64, u32)>
    ensures { result ≡ option_map (λ b. (b, packets)) block }
{
    match block {
        Some(block) => Some((block, packets)),
        None => None,
    }
}

/// Lets the camera make its next frame where the channel is open, and adds the line of its numbers.
fn make_frame(alloc: Global, camera: &mut Camera, out: &mut Vec<u8>) -> Result<(), NoMemory>
    requires rests { camera.old.waiting ≡ [] }
    requires empty { out.old.items ≡ [] }
    ensures camera { OnOk result (camera.new ≡ framed camera.old) }
    ensures text { OnOk result (out.new.items ≡ frame_line (next_numbers camera.old)) }
{
    // A script has fewer than 2 ^ 32 lines, so that block ids never come to their type's end; and a frame
    // of its camera has some ten packets.
    if camera.frame_count() == u64::MAX {
        return Err(NoMemory);
    }
    let block = camera.frame(alloc)?;
    let Ok(packets) = u32::try_from(camera.waiting_count()) else {
        return Err(NoMemory);
    };
    line_frame(alloc, numbers(block, packets), out)
}

/// Runs `frame`: the next frame, and then all that waits is sent.
pub(crate) fn frame(
    alloc: Global,
    running: &mut Running,
    rooms: &mut Rooms,
    out: &mut Vec<u8>,
) -> Result<(), NoMemory>
    requires rests { IsAtRest running.old }
    requires empty { out.old.items ≡ [] }
    ensures { OnOk result (Goes line.frame running.old out.new.items running.new) }
{
    make_frame(alloc, &mut running.camera, out)?;
    write_waiting(alloc, &mut running.camera, &mut rooms.packet, out)
}
