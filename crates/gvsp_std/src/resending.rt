ghost use Rattle.std.specs.Prelude.{◌≡◌, ◌≤◌, ◌<◌, ◌^◌, ◌++◌, length, drop};
ghost use Rattle.gvcp_wire.specs.Control.{header_fields};
ghost use Rattle.wire_fields.specs.Fields.{spelled};
ghost use Rattle.gvsp_std.specs.Asking.{std_resend_head, std_resend_body_fields, std_resend_fields, IsStandardResend};

use crate::blocks::narrow;
use byteorder::{BigEndian, ByteOrder};
use gvcp_wire::Resend;
use gvcp_wire::codes::PACKETRESEND_CMD;

/// The first byte of each command.
const KEY: u8 = 0x42;

/// The bytes of the body.
const BODY_SIZE: u16 = 12;

/// The bytes of a command's header.
const HEAD_SIZE: usize = 8;

/// Writes the header of the command.
fn write_head(out: &mut [u8], req: u16)
    requires { 8 ≤ length out.old }
    ensures { out.new ≡ spelled (header_fields 0x42 (std_resend_head req) 12) ++ drop 8 out.old }
{
    out[0] = KEY;
    out[1] = 0;
    BigEndian::write_u16(&mut out[2..], PACKETRESEND_CMD);
    BigEndian::write_u16(&mut out[4..], BODY_SIZE);
    BigEndian::write_u16(&mut out[6..], req);
}

/// Writes the body of the command.
fn write_body(out: &mut [u8], resend: Resend)
    requires room { 12 ≤ length out.old }
    requires block { 1 ≤ resend.block }
    ensures written { out.new ≡ spelled (std_resend_body_fields resend) ++ drop 12 out.old }
    ensures channel { resend.channel < 2 ^ 16 }
    ensures first { resend.first < 2 ^ 32 }
    ensures last { resend.last < 2 ^ 32 }
{
    BigEndian::write_u16(out, resend.channel);
    BigEndian::write_u16(&mut out[2..], narrow(resend.block));
    BigEndian::write_u32(&mut out[4..], resend.first);
    BigEndian::write_u32(&mut out[8..], resend.last);
}

/// Writes PACKETRESEND with standard identifiers (GigE Vision 1.x, PACKETRESEND command), which asks
/// for packets again and for no acknowledge. The block id is the block's of 16 bits.
pub fn write_resend_std(out: &mut [u8; 20], req: u16, resend: Resend)
    requires first { resend.first < 2 ^ 24 }
    requires last { resend.last < 2 ^ 24 }
    requires block { 1 ≤ resend.block }
    ensures written { out.new ≡ spelled (std_resend_fields req resend) }
    // What was written is read again.
    ensures read_again { IsStandardResend out.new req resend }
{
    write_head(out, req);
    write_body(&mut out[HEAD_SIZE..], resend);
}
