ghost use Rattle.std.specs.Prelude.{◌≡◌, ◌≤◌, ◌<◌, ◌^◌, ◌+◌, ◌++◌, length, drop};
ghost use Rattle.wire_fields.specs.Fields.{number_at};
ghost use Rattle.gvsp_std.specs.Widening.{wide_header, head_in, wide_in};

use byteorder::{BigEndian, ByteOrder};
use stream_packets::Head;
use wire_fields::u16_at;

/// The bytes of a header with standard identifiers.
pub(crate) const STANDARD_SIZE: usize = 8;

/// The bytes of a header with extended identifiers.
const EXTENDED_SIZE: usize = 20;

/// The bit of a format byte that says extended identifiers.
pub(crate) const EXTENDED_ID: u8 = 0x80;

/// The three bytes from a place on, as a number.
#[tactic(auto, unfolding(wire_fields::specs::Fields::number_at))]
fn u24_at(bytes: &[u8], place: usize) -> u32
    requires { place + 3 ≤ length bytes.now }
    ensures { result ≡ number_at place 3 bytes.now }
{
    BigEndian::read_u24(&bytes[place..])
}

/// Writes a header with extended identifiers. Of the format byte only the packet format is kept, and
/// reserved bytes are 0.
#[tactic(auto, unfolding(crate::specs::Widening::wide_header))]
fn write_header(out: &mut [u8], head: Head, format_byte: u8)
    requires { 20 ≤ length out.old }
    ensures { out.new ≡ wide_header head format_byte ++ drop 20 out.old }
{
    BigEndian::write_u16(out, head.status);
    BigEndian::write_u16(&mut out[2..], head.flags);
    out[4] = EXTENDED_ID + format_byte % 16;
    BigEndian::write_u24(&mut out[5..], 0);
    BigEndian::write_u64(&mut out[8..], head.block);
    BigEndian::write_u32(&mut out[16..], head.id);
}

/// The header of a datagram with standard identifiers, in this block.
fn head_in(block: u64, bytes: &[u8]) -> Head
    requires { 8 ≤ length bytes.now }
    ensures { result ≡ head_in block bytes.now }
{
    Head {
        status: u16_at(bytes, 0),
        flags: 0,
        block,
        id: u24_at(bytes, 5),
    }
}

/// Writes a header with extended identifiers, and a body after it.
#[tactic(auto, unfolding(crate::specs::Widening::wide_header))]
fn write_parts(out: &mut [u8], head: Head, format_byte: u8, body: &[u8])
    requires { 20 + length body.now ≤ length out.old }
    ensures { out.new ≡ wide_header head format_byte ++ body.now ++ drop (20 + length body.now) out.old }
{
    write_header(out, head, format_byte);
    out[EXTENDED_SIZE..EXTENDED_SIZE + body.len()].copy_from_slice(body);
}

/// Writes the datagram with extended identifiers, in this block. The answer is its length.
pub(crate) fn write_wide(out: &mut [u8], block: u64, bytes: &[u8]) -> usize
    requires header { 8 ≤ length bytes.now }
    requires room { length bytes.now + 12 ≤ length out.old }
    ensures written { out.new ≡ wide_in block bytes.now ++ drop (length bytes.now + 12) out.old }
    ensures len { result ≡ length bytes.now + 12 }
{
    write_parts(
        out,
        head_in(block, bytes),
        bytes[4],
        &bytes[STANDARD_SIZE..],
    );
    bytes.len() + EXTENDED_SIZE - STANDARD_SIZE
}
