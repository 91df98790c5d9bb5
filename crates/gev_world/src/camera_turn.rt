//! The camera's turn of a round: what reached it, and its next frame.

ghost use Rattle.std.specs.Prelude.{◌≡◌, ◌≤◌, ◌<◌, [], OnOk, IfOk};
ghost use Rattle.lossy_queue.specs.declared.datagram.Datagram.{Datagram};
ghost use Rattle.camera_machine.specs.Stream.{all_waiting};
ghost use Rattle.world_machine.specs.CameraTurn.{obeys, obeys_all, looks, camera_turn, makes};
ghost use Rattle.gev_world.specs.Seen.{Does};
ghost use Rattle.gev_world.specs.Turns.{drains, commanded_by, Carries};

use crate::network::{put_ack, put_packet};
use crate::stage::Stage;
use camera_sim::{MESSAGE_SIZE, PACKET_ROOM};
use control_client::SETUP_SIZE;
use gev_types::{NoMemory, Peer};
use lossy_queue::{Datagram, LossyQueue};
use std::alloc::Global;

/// The client, as the camera sees it.
const CLIENT: Peer = Peer {
    address: 0x7F00_0001,
    port: 1,
};

/// Where the camera writes an acknowledge and a packet.
#[derive(Drop)]
pub(crate) struct Rooms {
    pub answer: [u8; MESSAGE_SIZE],
    pub packet: [u8; PACKET_ROOM],
}

/// Puts the packet that waits first into the host's queue, and tells whether one waited.
fn carry_next(stage: &mut Stage, packet: &mut [u8; PACKET_ROOM]) -> Result<bool, NoMemory>
    ensures { IfOk result (λ one. Carries one stage.old stage.new) }
{
    match stage.camera.fetch(packet) {
        Some((_peer, len)) => {
            put_packet(stage, &packet[..len])?;
            Ok(true)
        }
        None => Ok(false),
    }
}

/// Puts all packets that wait into the host's queue.
fn put_waiting(stage: &mut Stage, packet: &mut [u8; PACKET_ROOM]) -> Result<(), NoMemory>
    ensures { OnOk result (Does stage.old drains stage.new) }
{
    'packets: loop {
        match carry_next(stage, packet) {
            Ok(true) => continue 'packets,
            Ok(false) => return Ok(()),
            Err(NoMemory) => return Err(NoMemory),
        }
    }
}

/// A datagram reaches the camera, and its acknowledge is put into the host's queue.
fn hear(stage: &mut Stage, answer: &mut [u8; MESSAGE_SIZE], bytes: &[u8]) -> Result<(), NoMemory>
    ensures { OnOk result (Does stage.old (λ run w. commanded_by run bytes.now w) stage.new) }
{
    match stage.camera.command(CLIENT, bytes, stage.moment, answer) {
        Some(len) => put_ack(stage, &answer[..len]),
        None => Ok(()),
    }
}

/// A datagram reaches the camera, and what it sends then is put into the host's queue.
fn obey(stage: &mut Stage, rooms: &mut Rooms, datagram: &Datagram) -> Result<(), NoMemory>
    ensures { OnOk result (Does stage.old (λ run w. obeys run w datagram.now) stage.new) }
{
    hear(stage, &mut rooms.answer, datagram.bytes.as_slice())?;
    put_waiting(stage, &mut rooms.packet)
}

/// What is on its way to the camera reaches it, in order.
fn obey_all(stage: &mut Stage, rooms: &mut Rooms, arriving: &mut LossyQueue) -> Result<(), NoMemory>
    ensures does { OnOk result (Does stage.old (λ run w. obeys_all run w arriving.old) stage.new) }
    ensures emptied { OnOk result (arriving.new ≡ []) }
{
    while let Some(datagram) = arriving.pop() {
        obey(stage, rooms, &datagram)?;
    }
    Ok(())
}

/// The camera ticks.
fn look(stage: &mut Stage, rooms: &mut Rooms) -> Result<(), NoMemory>
    ensures does { OnOk result (Does stage.old (λ run w. looks run w) stage.new) }
{
    stage.camera.tick(stage.moment);
    put_waiting(stage, &mut rooms.packet)
}

/// The camera's turn. What is on its way to it goes through the empty queue `arriving`.
pub(crate) fn camera_turn(
    stage: &mut Stage,
    rooms: &mut Rooms,
    arriving: &mut LossyQueue,
) -> Result<(), NoMemory>
    requires empty { arriving.old ≡ [] }
    ensures does { OnOk result (Does stage.old camera_turn stage.new) }
    ensures emptied { OnOk result (arriving.new ≡ []) }
{
    std::mem::swap(&mut stage.to_camera, arriving);
    look(stage, rooms)?;
    obey_all(stage, rooms, arriving)
}

/// The camera's next frame, if one is due. A closed channel ends the sending of frames for good.
pub(crate) fn make(alloc: Global, stage: &mut Stage, rooms: &mut Rooms) -> Result<(), NoMemory>
    requires idle { stage.old.camera.waiting ≡ [] }
    requires count { stage.old.camera.shelf.count ≤ stage.old.made }
    ensures does { OnOk result (Does stage.old makes stage.new) }
{
    if stage.done != SETUP_SIZE || stage.is_over || stage.frames <= stage.made {
        return Ok(());
    }
    match stage.camera.frame(alloc)? {
        Some(_block) => {
            stage.made += 1;
            put_waiting(stage, &mut rooms.packet)
        }
        None => {
            stage.is_over = true;
            Ok(())
        }
    }
}
