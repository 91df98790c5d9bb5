//! The packets of an image stream, read and written.

ghost use Rattle.std.specs.Prelude.{◌≡◌, ◌≤◌, IfSome};
ghost use Rattle.gvsp_wire.specs.Wire.{is_notice_status};

use crate::words::{bytes, number, number16, number32};
use bitflags::Flags;
use gev_types::frame_size;
use gvsp_wire::{
    Head, HeadFlags, LeaderInfo, Packet, parse, write_leader, write_notice, write_payload,
    write_trailer,
};
use std::alloc::Global;
use std::fmt::Write;
use std::str::SplitWhitespace;

/// The room for a packet that is written.
const ROOM: usize = 60;

/// A datagram: the packet that it is, or the refusal and its text.
pub fn packet(alloc: Global, words: &mut SplitWhitespace<'_>) -> Option<String> {
    let bytes = bytes(alloc, words)?;
    match parse(bytes.as_slice()) {
        Ok(packet) => format!(in alloc; "{packet:?}").ok(),
        Err(refusal) => format!(in alloc; "{refusal:?}: {refusal}").ok(),
    }
}

/// A datagram of a packet: its id, the bytes of the image of a leader and of a payload, the lines of a
/// trailer, and whether it is a trailer and whether a notice.
pub fn parts(alloc: Global, words: &mut SplitWhitespace<'_>) -> Option<String> {
    let bytes = bytes(alloc, words)?;
    let packet = parse(bytes.as_slice()).ok()?;
    parts_of(alloc, &packet)
}

/// The bytes of the image of a leader.
fn image_size(packet: &Packet<'_>) -> u32 {
    match packet.leader_info() {
        Some(info) => info.size,
        None => 0,
    }
}

/// The bytes of the image of a payload.
fn payload_len(packet: &Packet<'_>) -> usize {
    match packet.payload() {
        Some(bytes) => bytes.len(),
        None => 0,
    }
}

/// The parts of a packet.
fn parts_of(alloc: Global, packet: &Packet<'_>) -> Option<String> {
    let id = packet.head().id;
    let size = image_size(packet);
    let len = payload_len(packet);
    let mut text = format!(in alloc; "id {id}, image {size}, payload {len}").ok()?;
    add_form(packet, &mut text)?;
    Some(text)
}

/// Adds the lines of a trailer, and of which form a packet is.
fn add_form(packet: &Packet<'_>, text: &mut String) -> Option<()> {
    let lines = packet.lines();
    let is_trailer = packet.is_trailer();
    let is_notice = packet.is_notice();
    write!(text, ", {lines:?}, {is_trailer} {is_notice}").ok()
}

/// A datagram of a packet: what the writer of its form writes of the packet.
pub fn rewritten(alloc: Global, words: &mut SplitWhitespace<'_>) -> Option<String> {
    let bytes = bytes(alloc, words)?;
    let packet = parse(bytes.as_slice()).ok()?;
    let mut out = [0xEE; ROOM];
    let len = write(&mut out, packet)?;
    hex::encode(alloc, &out[..len]).ok()
}

/// A status, flags, a block and a packet id: the notice.
pub fn notice(alloc: Global, words: &mut SplitWhitespace<'_>) -> Option<String> {
    let status = number16(words)?;
    let flags = number16(words)?;
    let block = number(words)?;
    let id = number32(words)?;
    let mut out = [0xEE; ROOM];
    let head = Head {
        status,
        flags,
        block,
        id,
    };
    let len = write(&mut out, Packet::Notice(head))?;
    hex::encode(alloc, &out[..len]).ok()
}

/// A header's flags by their names.
pub fn flags(alloc: Global, words: &mut SplitWhitespace<'_>) -> Option<String> {
    let flags = HeadFlags::from_bits_retain(number16(words)?);
    let resent = flags.contains(HeadFlags::PACKET_RESENT);
    let dropped = flags.contains(HeadFlags::PREVIOUS_BLOCK_DROPPED);
    let range = flags.contains(HeadFlags::RESEND_RANGE_ERROR);
    format!(in alloc; "resent {resent}, previous dropped {dropped}, range error {range}").ok()
}

/// Whether a status is a notice's.
fn is_notice(status: u16) -> bool
    ensures { result ≡ is_notice_status status }
{
    status == 0x800C || status == 0x8010 || status == 0x8011 || status == 0x8012
}

/// Writes a packet, where its writer takes it.
fn write(out: &mut [u8; ROOM], packet: Packet<'_>) -> Option<usize>
    ensures { IfSome result (λ len. len ≤ 60) }
{
    match packet {
        Packet::Leader(head, info) => leader(out, head, info),
        Packet::Payload(head, bytes) => payload(out, head, bytes),
        Packet::Trailer(head, lines) => {
            if head.block == 0 || head.id == 0 || is_notice(head.status) {
                return None;
            }
            Some(write_trailer(out, head, lines))
        }
        Packet::Notice(head) => {
            if !is_notice(head.status) {
                return None;
            }
            Some(write_notice(out, head))
        }
    }
}

/// Writes a leader whose image has the size that its other fields say.
fn leader(out: &mut [u8; ROOM], head: Head, told: LeaderInfo) -> Option<usize>
    ensures { IfSome result (λ len. len ≤ 60) }
{
    if head.block == 0 || head.id != 0 || is_notice(head.status) {
        return None;
    }
    let size = frame_size(
        told.pixel,
        told.size_x,
        told.size_y,
        told.padding_x,
        told.padding_y,
    )?;
    Some(write_leader(out, head, LeaderInfo { size, ..told }))
}

/// Writes a payload of at most 40 bytes.
fn payload(out: &mut [u8; ROOM], head: Head, bytes: &[u8]) -> Option<usize>
    ensures { IfSome result (λ len. len ≤ 60) }
{
    if head.block == 0 || head.id == 0 || is_notice(head.status) {
        return None;
    }
    if bytes.is_empty() || bytes.len() > 40 {
        return None;
    }
    Some(write_payload(out, head, bytes))
}
