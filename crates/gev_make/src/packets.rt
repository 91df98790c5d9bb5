ghost use Rattle.std.specs.Prelude.{◌≡◌, ◌≤◌, ◌<◌, ◌*◌, ◌-◌, length, OnOk};
ghost use Rattle.gev_types.specs.FrameSize.{IsFrame};
ghost use Rattle.stream_packets.specs.Packets.{leader, payload, trailer};
ghost use Rattle.stream_packets.specs.FramePackets.{sent_head, leader_info, payload_count, payload_start, payload_bytes, packets_of};
ghost use Rattle.gvsp_wire.specs.Plain.{plain};
ghost use Rattle.gev_make.specs.MakeText.{payload_size};
ghost use Rattle.gev_make.specs.Network.{carried, all_carried};

use crate::network::{Network, carry};
use gev_types::{Frame, NoMemory};
use gvsp_wire::{write_leader, write_payload, write_trailer};
use stream_packets::{Head, leader_info};

/// The bytes of a payload, where a packet has 1500 with all its headers.
pub(crate) const PAYLOAD_SIZE: usize = 1452;

/// The bytes of a payload packet, its header included.
pub(crate) const PACKET_SIZE: usize = PAYLOAD_SIZE + 20;

/// The bytes of a leader.
const LEADER_SIZE: usize = 56;

/// The bytes of a trailer.
const TRAILER_SIZE: usize = 28;

fn head(block: u64, id: u32) -> Head
    ensures { result ≡ record { status = 0; flags = 0; block = block; id = id } }
{
    Head {
        status: 0,
        flags: 0,
        block,
        id,
    }
}

fn carry_leader(network: &mut Network, frame: &Frame) -> Result<(), NoMemory>
    requires valid { IsFrame frame.now }
    requires block { 1 ≤ frame.now.block }
    ensures { OnOk result (network.new ≡ carried network.old (plain (leader (sent_head frame.now 0) (leader_info frame.now)))) }
{
    let mut packet = [0; LEADER_SIZE];
    let len = write_leader(&mut packet, head(frame.block, 0), leader_info(frame));
    carry(network, &packet[..len])
}

fn carry_trailer(network: &mut Network, block: u64, id: u32, lines: u32) -> Result<(), NoMemory>
    requires block { 1 ≤ block }
    requires id { 1 ≤ id }
    ensures { OnOk result (network.new ≡ carried network.old (plain (trailer (record { status = 0; flags = 0; block = block; id = id }) lines))) }
{
    let mut packet = [0; TRAILER_SIZE];
    let len = write_trailer(&mut packet, head(block, id), lines);
    carry(network, &packet[..len])
}

fn carry_payload(network: &mut Network, block: u64, id: u32, bytes: &[u8]) -> Result<(), NoMemory>
    requires block { 1 ≤ block }
    requires id { 1 ≤ id }
    requires some { 1 ≤ length bytes.now }
    requires few { length bytes.now ≤ payload_size }
    ensures { OnOk result (network.new ≡ carried network.old (plain (payload (record { status = 0; flags = 0; block = block; id = id }) bytes.now))) }
{
    let mut packet = [0; PACKET_SIZE];
    let len = write_payload(&mut packet, head(block, id), bytes);
    carry(network, &packet[..len])
}

/// The bytes of payload k.
fn payload_at(pixels: &[u8], k: u32) -> &[u8]
    requires first { 1 ≤ k }
    requires inside { payload_start payload_size k < length pixels.now }
    ensures bytes { result.now ≡ payload_bytes payload_size pixels.now k }
    ensures some { 1 ≤ length result.now }
    ensures few { length result.now ≤ payload_size }
{
    let rest = &pixels[(k as usize - 1) * PAYLOAD_SIZE..];
    &rest[..rest.len().min(PAYLOAD_SIZE)]
}

/// How many payloads carry the image.
fn payload_count(frame: &Frame) -> u32
    requires { IsFrame frame.now }
    ensures counted { result ≡ payload_count payload_size (length frame.now.pixels) }
    ensures few { result < 65536 }
{
    frame.pixels.as_slice().len().div_ceil(PAYLOAD_SIZE) as u32
}

/// Puts the packets of a frame into the network, in order of their ids.
pub(crate) fn carry_frame(network: &mut Network, frame: &Frame) -> Result<(), NoMemory>
    requires valid { IsFrame frame.now }
    requires block { 1 ≤ frame.now.block }
    ensures { OnOk result (network.new ≡ all_carried network.old (packets_of frame.now payload_size)) }
{
    let payloads = payload_count(frame);
    carry_leader(network, frame)?;
    for count in 0..payloads {
        let id = count + 1;
        carry_payload(
            network,
            frame.block,
            id,
            payload_at(frame.pixels.as_slice(), id),
        )?;
    }
    carry_trailer(network, frame.block, payloads + 1, frame.rows)
}
