ghost use Rattle.std.specs.Prelude.{◌≡◌, ◌<◌, ◌≤◌, length};
ghost use Rattle.gvsp_wire.specs.Wire.{is_notice_status};
ghost use Rattle.gvsp_wire.specs.Reading.{form_of, is_extended, head_at, header_of};

use crate::flags::FormatByte;
use crate::form::Form;
use crate::wire_error::WireError;
use bitflags::Flags;
use stream_packets::Head;
use wire_fields::{u16_at, u32_at, u64_at};

/// The bytes up to the end of those that tell the two kinds of header apart.
const SHORTEST_HEADER: usize = 8;

/// The bytes of a header with extended identifiers.
pub(crate) const HEADER_SIZE: usize = 20;

/// The packet format of a leader.
pub(crate) const LEADER_FORMAT: u8 = 1;

/// The packet format of a trailer.
pub(crate) const TRAILER_FORMAT: u8 = 2;

/// The packet format of a payload.
pub(crate) const PAYLOAD_FORMAT: u8 = 3;

/// The refusal of a datagram that ends too early.
pub(crate) fn short(bytes: &[u8]) -> WireError
    requires { length bytes.now < 56 }
    ensures { result ≡ WireError.Short (length bytes.now) }
{
    WireError::Short(bytes.len() as u32)
}

/// Whether the status says that the camera can't send a packet again: unavailable, not yet
/// available, removed from memory with the ones before it, or removed from memory.
pub(crate) fn is_notice(status: u16) -> bool
    ensures { result ≡ is_notice_status status }
{
    status == 0x800C || status == 0x8010 || status == 0x8011 || status == 0x8012
}

/// The form of a packet with this packet format, if it is one of the three.
fn known_form(format: u8) -> Option<Form>
    ensures { result ≡ form_of format }
{
    match format {
        LEADER_FORMAT => Some(Form::Leader),
        TRAILER_FORMAT => Some(Form::Trailer),
        PAYLOAD_FORMAT => Some(Form::Payload),
        _ => None,
    }
}

/// Whether a format byte says extended identifiers.
fn has_extended_ids(format_byte: u8) -> bool
    ensures { result ≡ is_extended format_byte }
{
    FormatByte::from_bits_retain(format_byte).contains(FormatByte::EXTENDED)
}

/// The fields of a header.
fn head(bytes: &[u8]) -> Head
    requires { HEADER_SIZE ≤ length bytes.now }
    ensures { result ≡ head_at bytes.now }
{
    Head {
        status: u16_at(bytes, 0),
        flags: u16_at(bytes, 2),
        block: u64_at(bytes, 8),
        id: u32_at(bytes, 16),
    }
}

/// The header of a packet of the stream, with its form.
#[tactic(auto, unfolding(crate::specs::Reading::header_of))]
pub(crate) fn header(bytes: &[u8]) -> Result<(Form, Head), WireError>
    ensures { result ≡ header_of bytes.now }
{
    if bytes.len() < SHORTEST_HEADER {
        return Err(short(bytes));
    }
    if !has_extended_ids(bytes[4]) {
        return Err(WireError::Standard);
    }
    if bytes.len() < HEADER_SIZE {
        return Err(short(bytes));
    }
    let format = bytes[4] % 16;
    let Some(form) = known_form(format) else {
        return Err(WireError::Format(format));
    };
    let head = head(bytes);
    if head.block == 0 {
        return Err(WireError::ZeroBlock);
    }
    Ok((form, head))
}
