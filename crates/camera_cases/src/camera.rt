//! The camera as a whole, with seed 0: what no camera script reaches, which are short images and more commands than may wait.
//! Commands come from ports of this machine.

use crate::fault::Fault;
use crate::frames::SHAPE;
use crate::row::{bytes, number, small_number, word};
use crate::shown::{shown, told};
use camera_sim::{Camera, MESSAGE_SIZE, PACKET_ROOM};
use gev_types::{NoMemory, Peer};
use std::alloc::Global;

/// This machine itself, 127.0.0.1.
const HOST: u32 = 0x7F00_0001;

/// A camera that can send the packets of its last four frames again.
pub fn new_camera(alloc: Global) -> Result<Camera, NoMemory> {
    Camera::new(alloc, 0, SHAPE, 4)
}

/// A camera that was set to make short frames, and then so or back.
fn set_camera(alloc: Global, short: bool) -> Result<Camera, NoMemory> {
    let mut camera = Camera::new(alloc, 0, SHAPE, 4)?;
    camera.set_short(true);
    camera.set_short(short);
    Ok(camera)
}

/// The answer to a row of the camera.
pub fn answer(alloc: Global, camera: &mut Camera, row: &str) -> Result<String, Fault> {
    match word(row, 1) {
        "state" => told(alloc, state(camera)),
        "frame" => frame(alloc, camera),
        "next" => next(alloc, camera),
        _ => answer_new(alloc, camera, row),
    }
}

/// The answer to a row of a new camera, or to a command.
fn answer_new(alloc: Global, camera: &mut Camera, row: &str) -> Result<String, Fault> {
    match word(row, 1) {
        "new" => renew(alloc, camera, new_camera(alloc)),
        "short" => renew(alloc, camera, set_camera(alloc, true)),
        "whole" => renew(alloc, camera, set_camera(alloc, false)),
        _ => command(alloc, camera, row),
    }
}

/// Puts a new camera in place of the one before.
fn renew(
    alloc: Global,
    camera: &mut Camera,
    made: Result<Camera, NoMemory>,
) -> Result<String, Fault> {
    *camera = made?;
    told(alloc, state(camera))
}

/// How many commands were executed, how many packets wait, whether none does, and how many frames were made.
fn state(camera: &Camera) -> (u64, usize, bool, u64) {
    (
        camera.executed(),
        camera.waiting_count(),
        camera.is_idle(),
        camera.frame_count(),
    )
}

/// Makes a frame, and tells its block id.
fn frame(alloc: Global, camera: &mut Camera) -> Result<String, Fault> {
    if !camera.is_idle() || camera.frame_count() == u64::MAX {
        return Err(Fault::NotNow);
    }
    told(alloc, camera.frame(alloc)?)
}

/// The packet that waits first, and the port that it goes to.
fn next(alloc: Global, camera: &mut Camera) -> Result<String, Fault> {
    let mut out = [0; PACKET_ROOM];
    match camera.next_packet(&mut out) {
        Some((peer, len)) => {
            let packet = shown(alloc, &out[..len])?;
            Ok(format!(in alloc; "{} {packet}", peer.port)?)
        }
        None => told(alloc, ()),
    }
}

/// A command at a moment from a port: its acknowledge.
fn command(alloc: Global, camera: &mut Camera, row: &str) -> Result<String, Fault> {
    let moment = number(row, 1)?;
    let peer = Peer {
        address: HOST,
        port: small_number(row, 2)?,
    };
    let sent = bytes(alloc, row, 3)?;
    execute(alloc, camera, peer, sent.as_slice(), moment)
}

/// Has the camera execute a command: its acknowledge.
fn execute(
    alloc: Global,
    camera: &mut Camera,
    peer: Peer,
    sent: &[u8],
    moment: u64,
) -> Result<String, Fault> {
    let mut out = [0; MESSAGE_SIZE];
    match camera.command(peer, sent, moment, &mut out) {
        Some(len) => Ok(hex::encode(alloc, &out[..len])?),
        None => told(alloc, ()),
    }
}
