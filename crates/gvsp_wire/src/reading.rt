ghost use Rattle.std.specs.Prelude.{◌≡◌, ◌≤◌, ◌↔◌, length};
ghost use Rattle.stream_packets.specs.Packets.{StreamPacket};
ghost use Rattle.gvsp_wire.specs.Wire.{Stream, Refused};
ghost use Rattle.gvsp_wire.specs.Reading.{reading, sized_info, leader_of, trailer_of, payload_of};
ghost use Rattle.gvsp_wire.specs.View.{seen};
ghost use Rattle.gvsp_wire.specs.declared.wire_error.WireError.{WireError};

use crate::form::Form;
use crate::header::{HEADER_SIZE, header, is_notice, short};
use crate::packet::Packet;
use crate::wire_error::WireError;
use gev_types::frame_size;
use stream_packets::{Head, LeaderInfo};
use wire_fields::{u16_at, u32_at, u64_at};

/// The payload type of an image.
pub(crate) const IMAGE: u16 = 0x0001;

/// The bytes of a leader, to the end of its fields.
pub(crate) const LEADER_SIZE: usize = HEADER_SIZE + 36;

/// The bytes of a trailer, to the end of its fields.
pub(crate) const TRAILER_SIZE: usize = HEADER_SIZE + 8;

/// The packet that a datagram is (GigE Vision 2.0, GVSP with extended identifiers).
///
/// Any length of `bytes` is fine. Bytes after a leader's, a trailer's or a notice's fields are
/// ignored, as are reserved fields. A payload is what follows its header, lent.
#[tactic(auto, using(crate::proofs::Whole::answers_packet, crate::proofs::Whole::answers_refusal))]
pub fn parse(bytes: &[u8]) -> Result<Packet<'_>, WireError>
    // The answer is the packet that the bytes are by the format,
    ensures packet { (x : StreamPacket) → (seen result ≡ Ok x) ↔ Stream bytes.now x }
    // or the first reason for which they are none.
    ensures refusal { (e : WireError) → (seen result ≡ Err e) ↔ Refused bytes.now e }
    ensures reading { seen result ≡ reading bytes.now }
{
    read_packet(bytes)
}

/// The packet that a datagram is, or the first refusal, as `reading` computes it.
#[tactic(auto, unfolding(crate::specs::Reading::reading))]
fn read_packet(bytes: &[u8]) -> Result<Packet<'_>, WireError>
    ensures { seen result ≡ reading bytes.now }
{
    let (form, head) = header(bytes)?;
    if is_notice(head.status) {
        return Ok(Packet::Notice(head));
    }
    match form {
        Form::Leader => leader(head, bytes),
        Form::Trailer => trailer(head, bytes),
        Form::Payload => payload(head, bytes),
    }
}

/// What the fields of a leader say, each at its position in the datagram, if its image has a size that a frame may have.
fn leader_info(bytes: &[u8]) -> Option<LeaderInfo>
    requires { LEADER_SIZE ≤ length bytes.now }
    ensures { result ≡ sized_info bytes.now }
{
    let pixel = u32_at(bytes, 32);
    let size_x = u32_at(bytes, 36);
    let size_y = u32_at(bytes, 40);
    let padding_x = u16_at(bytes, 52);
    let padding_y = u16_at(bytes, 54);
    let size = frame_size(pixel, size_x, size_y, padding_x, padding_y)?;
    Some(LeaderInfo {
        timestamp: u64_at(bytes, 24),
        pixel,
        size_x,
        size_y,
        offset_x: u32_at(bytes, 44),
        offset_y: u32_at(bytes, 48),
        padding_x,
        padding_y,
        size,
    })
}

/// The leader whose header this is.
#[tactic(auto, using(crate::proofs::Steps::leader_found, crate::proofs::Steps::leader_outside), unfolding(crate::specs::Reading::leader_of))]
fn leader(head: Head, bytes: &[u8]) -> Result<Packet<'_>, WireError>
    ensures { seen result ≡ leader_of head bytes.now }
{
    if head.id != 0 {
        return Err(WireError::BadId(head.id));
    }
    if bytes.len() < LEADER_SIZE {
        return Err(short(bytes));
    }
    let payload_type = u16_at(bytes, 22);
    if payload_type != IMAGE {
        return Err(WireError::PayloadType(payload_type));
    }
    match leader_info(bytes) {
        Some(info) => Ok(Packet::Leader(head, info)),
        None => Err(WireError::FrameSize),
    }
}

/// The trailer whose header this is.
#[tactic(auto, unfolding(crate::specs::Reading::trailer_of))]
fn trailer(head: Head, bytes: &[u8]) -> Result<Packet<'_>, WireError>
    ensures { seen result ≡ trailer_of head bytes.now }
{
    if head.id == 0 {
        return Err(WireError::BadId(head.id));
    }
    if bytes.len() < TRAILER_SIZE {
        return Err(short(bytes));
    }
    let payload_type = u16_at(bytes, 22);
    if payload_type != IMAGE {
        return Err(WireError::PayloadType(payload_type));
    }
    Ok(Packet::Trailer(head, u32_at(bytes, 24)))
}

/// The payload whose header this is.
#[tactic(auto, unfolding(crate::specs::Reading::payload_of))]
fn payload(head: Head, bytes: &[u8]) -> Result<Packet<'_>, WireError>
    ensures { seen result ≡ payload_of head bytes.now }
{
    if head.id == 0 {
        return Err(WireError::BadId(head.id));
    }
    if bytes.len() <= HEADER_SIZE {
        return Err(short(bytes));
    }
    Ok(Packet::Payload(head, &bytes[HEADER_SIZE..]))
}
