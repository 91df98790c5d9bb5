ghost use Rattle.std.specs.Prelude.{◌≡◌, ◌≤◌, ◌<◌, ◌^◌, ◌++◌, length, drop};
ghost use Rattle.stream_packets.specs.Packets.{leader, payload, trailer, notice};
ghost use Rattle.wire_fields.specs.Fields.{spelled};
ghost use Rattle.gvsp_wire.specs.Wire.{IsNotice, image_payload, trailer_fields, Stream};
ghost use Rattle.gvsp_wire.specs.Writing.{kind_fields, region_fields, KindFits, RegionFits};
ghost use Rattle.gvsp_wire.specs.Plain.{plain_header, plain, HeadFits, HasLeaderForm, HasPayloadForm, HasTrailerForm};

use crate::flags::FormatByte;
use crate::header::{HEADER_SIZE, LEADER_FORMAT, PAYLOAD_FORMAT, TRAILER_FORMAT};
use crate::reading::{IMAGE, LEADER_SIZE, TRAILER_SIZE};
use bitflags::Flags;
use byteorder::{BigEndian, ByteOrder};
use stream_packets::{Head, LeaderInfo};

/// The bytes of a leader's fields up to the pixel format.
const KIND_SIZE: usize = 16;

/// The bytes of a notice, which has nothing after its header.
const NOTICE_SIZE: usize = HEADER_SIZE;

/// Writes a header whose packet format is this. Reserved fields are 0.
fn write_header(out: &mut [u8], head: Head, format: u8)
    requires room { 20 ≤ length out.old }
    requires format { format < 16 }
    ensures written { out.new ≡ plain_header head format ++ drop 20 out.old }
    ensures fits { HeadFits head }
{
    BigEndian::write_u16(out, head.status);
    BigEndian::write_u16(&mut out[2..], head.flags);
    out[4] = FormatByte::EXTENDED.bits() + format;
    BigEndian::write_u24(&mut out[5..], 0);
    BigEndian::write_u64(&mut out[8..], head.block);
    BigEndian::write_u32(&mut out[16..], head.id);
}

/// Writes what a leader says of the kind of image: its payload type, time and pixel format. Field
/// information and the reserved byte are 0.
fn write_kind(out: &mut [u8], info: LeaderInfo)
    requires { 16 ≤ length out.old }
    ensures written { out.new ≡ spelled (kind_fields info) ++ drop 16 out.old }
    ensures fits { KindFits info }
{
    out[0] = 0;
    out[1] = 0;
    BigEndian::write_u16(&mut out[2..], IMAGE);
    BigEndian::write_u64(&mut out[4..], info.timestamp);
    BigEndian::write_u32(&mut out[12..], info.pixel);
}

/// Writes what a leader says of the image's size and place on the sensor.
fn write_region(out: &mut [u8], info: LeaderInfo)
    requires { 20 ≤ length out.old }
    ensures written { out.new ≡ spelled (region_fields info) ++ drop 20 out.old }
    ensures fits { RegionFits info }
{
    BigEndian::write_u32(out, info.size_x);
    BigEndian::write_u32(&mut out[4..], info.size_y);
    BigEndian::write_u32(&mut out[8..], info.offset_x);
    BigEndian::write_u32(&mut out[12..], info.offset_y);
    BigEndian::write_u16(&mut out[16..], info.padding_x);
    BigEndian::write_u16(&mut out[18..], info.padding_y);
}

/// Writes the body of a trailer. The reserved field is 0.
fn write_lines(out: &mut [u8], size_y: u32)
    requires { 8 ≤ length out.old }
    ensures { out.new ≡ spelled (trailer_fields 0 image_payload size_y) ++ drop 8 out.old }
{
    BigEndian::write_u16(out, 0);
    BigEndian::write_u16(&mut out[2..], IMAGE);
    BigEndian::write_u32(&mut out[4..], size_y);
}

/// Writes a leader (GigE Vision 2.0, GVSP image leader) to the front of a slice, and leaves the rest
/// of it. The answer is the number of bytes written, 56. Reserved fields are written as 0.
pub fn write_leader(out: &mut [u8], head: Head, info: LeaderInfo) -> usize
    requires form { HasLeaderForm head info }
    requires room { length (plain (leader head info)) ≤ length out.old }
    ensures written { out.new ≡ plain (leader head info) ++ drop (length (plain (leader head info))) out.old }
    ensures len { result ≡ length (plain (leader head info)) }
    // What was written is read again.
    ensures read_again { Stream (plain (leader head info)) (leader head info) }
{
    write_header(out, head, LEADER_FORMAT);
    write_kind(&mut out[HEADER_SIZE..], info);
    write_region(&mut out[HEADER_SIZE + KIND_SIZE..], info);
    LEADER_SIZE
}

/// Writes a payload packet (GigE Vision 2.0, GVSP image payload) to the front of a slice, and leaves
/// the rest of it. The answer is the number of bytes written, 20 more than the payload has.
pub fn write_payload(out: &mut [u8], head: Head, bytes: &[u8]) -> usize
    requires form { HasPayloadForm head bytes.now }
    requires room { length (plain (payload head bytes.now)) ≤ length out.old }
    ensures written { out.new ≡ plain (payload head bytes.now) ++ drop (length (plain (payload head bytes.now))) out.old }
    ensures len { result ≡ length (plain (payload head bytes.now)) }
    // What was written is read again.
    ensures read_again { Stream (plain (payload head bytes.now)) (payload head bytes.now) }
{
    write_header(out, head, PAYLOAD_FORMAT);
    out[HEADER_SIZE..HEADER_SIZE + bytes.len()].copy_from_slice(bytes);
    HEADER_SIZE + bytes.len()
}

/// Writes a trailer (GigE Vision 2.0, GVSP image trailer) to the front of a slice, and leaves the
/// rest of it. `size_y` is the number of lines. The answer is the number of bytes written, 28.
pub fn write_trailer(out: &mut [u8], head: Head, size_y: u32) -> usize
    requires form { HasTrailerForm head }
    requires room { length (plain (trailer head size_y)) ≤ length out.old }
    ensures written { out.new ≡ plain (trailer head size_y) ++ drop (length (plain (trailer head size_y))) out.old }
    ensures len { result ≡ length (plain (trailer head size_y)) }
    // What was written is read again.
    ensures read_again { Stream (plain (trailer head size_y)) (trailer head size_y) }
{
    write_header(out, head, TRAILER_FORMAT);
    write_lines(&mut out[HEADER_SIZE..], size_y);
    TRAILER_SIZE
}

/// Writes a notice, by which a camera says that it can't send a packet again, to the front of a
/// slice, and leaves the rest of it. Its block id may be 0, as in the notice that answers a resend
/// command for block 0. The answer is the number of bytes written, 20.
pub fn write_notice(out: &mut [u8], head: Head) -> usize
    requires status { IsNotice head }
    requires room { length (plain (notice head)) ≤ length out.old }
    ensures written { out.new ≡ plain (notice head) ++ drop (length (plain (notice head))) out.old }
    ensures len { result ≡ length (plain (notice head)) }
    // What was written is read again, a notice of block 0 aside.
    ensures read_again { 1 ≤ head.block → Stream (plain (notice head)) (notice head) }
{
    write_header(out, head, PAYLOAD_FORMAT);
    NOTICE_SIZE
}
