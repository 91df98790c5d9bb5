//! Datagrams by name: frames of 640 x 480 pixels and seed 1 by their block, and bytes in hexadecimal.

use crate::setting::Wrong;
use gev_frames::frame_of;
use gev_types::{NoMemory, Shape};
use std::alloc::Global;

const SHAPE: Shape = Shape {
    pixel: 0x0108_0001,
    size_x: 640,
    size_y: 480,
};

/// The bytes of a payload, where a packet has 1500 with all its headers.
const PAYLOAD_SIZE: usize = 1452;

/// How many payloads carry a frame: the last one has 828 bytes.
const PAYLOADS: u32 = 212;

/// The acknowledges of the setup's four commands.
pub const ACKS: &str =
    "x000000830004000100000001,x000000830004000200000001,x000000830004000300000001,x000000830004000400000001";

/// What a link hears in one receive: nothing, or bytes from the camera or from another address.
#[derive(Drop)]
pub enum Heard {
    Nothing,
    Camera(Vec<u8>),
    Stranger(Vec<u8>),
}

/// Puts what this names: `xBYTES` a datagram, `sxBYTES` one of another address, `-TIMES` so many receives that get
/// nothing, `tBLOCK` a frame's trailer, `BLOCK` its packets, and `BLOCK.LOST` these without a payload.
pub fn put_datagram(alloc: Global, packets: &mut Vec<Heard>, name: &str) -> Result<(), Wrong> {
    if let Some(heard) = one_datagram(alloc, name)? {
        packets.push(heard)?;
        return Ok(());
    }
    if let Some(times) = name.strip_prefix("-") {
        return put_nothing(packets, times);
    }
    let (block, lost) = name.split_once(".").unwrap_or((name, "0"));
    put_frame(alloc, packets, block_of(block)?, block_of(lost)?)?;
    Ok(())
}

/// The datagram that this names, if it names a single one.
fn one_datagram(alloc: Global, name: &str) -> Result<Option<Heard>, Wrong> {
    if let Some(digits) = name.strip_prefix("x") {
        return Ok(Some(Heard::Camera(bytes_of(alloc, digits)?)));
    }
    if let Some(digits) = name.strip_prefix("sx") {
        return Ok(Some(Heard::Stranger(bytes_of(alloc, digits)?)));
    }
    match name.strip_prefix("t") {
        Some(block) => Ok(Some(Heard::Camera(trailer(alloc, block_of(block)?)?))),
        None => Ok(None),
    }
}

/// Puts so many receives that get nothing.
fn put_nothing(packets: &mut Vec<Heard>, times: &str) -> Result<(), Wrong> {
    for _ in 0..block_of(times)? {
        packets.push(Heard::Nothing)?;
    }
    Ok(())
}

/// The bytes of hexadecimal digits.
fn bytes_of(alloc: Global, digits: &str) -> Result<Vec<u8>, Wrong> {
    hex::decode(alloc, digits.as_bytes()).map_err(|_| Wrong::NotUnderstood)
}

/// The number of a block, of a payload or of receives.
fn block_of(text: &str) -> Result<u64, Wrong> {
    text.parse::<u64>().map_err(|_| Wrong::NotUnderstood)
}

/// Puts the header of a packet (GigE Vision 2.0, GVSP extended header), whose format is 1 for a leader, 2 for a
/// trailer and 3 for a payload.
fn put_header(packet: &mut Vec<u8>, format: u8, block: u64, id: u32) -> Result<(), NoMemory> {
    packet.extend_from_slice(b"\0\0\0\0")?;
    packet.push(0x80 | format)?;
    packet.extend_from_slice(b"\0\0\0")?;
    packet.extend_from_slice(block.to_be_bytes().as_slice())?;
    packet.extend_from_slice(id.to_be_bytes().as_slice())?;
    Ok(())
}

/// The leader of a frame, whose timestamp is its block id.
fn leader(alloc: Global, block: u64) -> Result<Vec<u8>, NoMemory> {
    let mut packet = Vec::new(alloc);
    put_header(&mut packet, 1, block, 0)?;
    packet.extend_from_slice(b"\0\0\0\x01")?;
    packet.extend_from_slice(block.to_be_bytes().as_slice())?;
    packet.extend_from_slice(b"\x01\x08\0\x01\0\0\x02\x80\0\0\x01\xe0")?;
    packet.extend_from_slice(b"\0\0\0\0\0\0\0\0\0\0\0\0")?;
    Ok(packet)
}

/// The trailer of a frame.
fn trailer(alloc: Global, block: u64) -> Result<Vec<u8>, NoMemory> {
    let mut packet = Vec::new(alloc);
    put_header(&mut packet, 2, block, PAYLOADS + 1)?;
    packet.extend_from_slice(b"\0\0\0\x01\0\0\x01\xe0")?;
    Ok(packet)
}

/// A payload of a frame.
fn payload(alloc: Global, block: u64, id: u32, bytes: &[u8]) -> Result<Vec<u8>, NoMemory> {
    let mut packet = Vec::new(alloc);
    put_header(&mut packet, 3, block, id)?;
    packet.extend_from_slice(bytes)?;
    Ok(packet)
}

/// Puts the payloads of a frame with these bytes, without the payload `lost`; number 0 leaves none out.
fn put_payloads(
    alloc: Global,
    packets: &mut Vec<Heard>,
    block: u64,
    lost: u64,
    pixels: &[u8],
) -> Result<(), NoMemory> {
    let mut id = 0u32;
    for bytes in pixels.chunks(PAYLOAD_SIZE) {
        id = id.saturating_add(1);
        if u64::from(id) != lost {
            packets.push(Heard::Camera(payload(alloc, block, id, bytes)?))?;
        }
    }
    Ok(())
}

/// Puts the packets of a frame of seed 1, without its payload `lost`; number 0 leaves none out.
fn put_frame(
    alloc: Global,
    packets: &mut Vec<Heard>,
    block: u64,
    lost: u64,
) -> Result<(), NoMemory> {
    let frame = frame_of(alloc, 1, block, SHAPE)?;
    packets.push(Heard::Camera(leader(alloc, block)?))?;
    put_payloads(alloc, packets, block, lost, frame.pixels.as_slice())?;
    packets.push(Heard::Camera(trailer(alloc, block)?))?;
    Ok(())
}
