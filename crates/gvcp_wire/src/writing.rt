ghost use Rattle.std.specs.Prelude.{◌≡◌, ◌≤◌, ◌^◌, ◌<◌, ◌++◌, length, drop};
ghost use Rattle.gvcp_wire.specs.Messages.{view, ack_view};
ghost use Rattle.gvcp_wire.specs.Control.{Control, header_fields, plain_body, plain, IsCommand, HasWidths};
ghost use Rattle.gvcp_wire.specs.Answer.{Answer, plain_ack};
ghost use Rattle.wire_fields.specs.Fields.{spelled};

use crate::codes::*;
use crate::message::{Ack, Command, CommandHead};
use byteorder::{BigEndian, ByteOrder};

fn write_header(out: &mut [u8], head: CommandHead, len: u16)
    requires { 8 ≤ length out.old }
    ensures written { out.new ≡ spelled (header_fields KEY head len) ++ drop 8 out.old }
    ensures flags { head.flags < 2 ^ 8 }
    ensures code { head.code < 2 ^ 16 }
    ensures request { head.req < 2 ^ 16 }
{
    out[0] = KEY;
    out[1] = head.flags;
    BigEndian::write_u16(&mut out[2..], head.code);
    BigEndian::write_u16(&mut out[4..], len);
    BigEndian::write_u16(&mut out[6..], head.req);
}

fn write_body(out: &mut [u8], command: &Command<'_>) -> usize
    requires { length (plain_body (view command.now)) ≤ length out.old }
    ensures written { out.new ≡ plain_body (view command.now) ++ drop (length (plain_body (view command.now))) out.old }
    ensures len { result ≡ length (plain_body (view command.now)) }
    ensures widths { HasWidths (view command.now) }
{
    match *command {
        Command::ReadReg(bytes) | Command::WriteReg(bytes) | Command::Other { body: bytes, .. } => {
            out[..bytes.len()].copy_from_slice(bytes);
            bytes.len()
        }
        Command::ReadMem { address, count } => {
            BigEndian::write_u32(out, address);
            BigEndian::write_u16(&mut out[4..], 0);
            BigEndian::write_u16(&mut out[6..], count);
            READMEM_BODY_SIZE
        }
        Command::WriteMem { address, bytes } => {
            BigEndian::write_u32(out, address);
            out[WORD_SIZE..WORD_SIZE + bytes.len()].copy_from_slice(bytes);
            WORD_SIZE + bytes.len()
        }
    }
}

/// Writes a command (GigE Vision 2.0, GVCP command header) to the front of a slice, and leaves the
/// rest of it. The answer is the number of bytes written. Reserved fields are written as 0.
pub fn write_command(out: &mut [u8], head: CommandHead, command: &Command<'_>) -> usize
    requires command { IsCommand head (view command.now) }
    requires room { length (plain head (view command.now)) ≤ length out.old }
    ensures written { out.new ≡ plain head (view command.now) ++ drop (length (plain head (view command.now))) out.old }
    ensures len { result ≡ length (plain head (view command.now)) }
    // What was written is read again.
    ensures read_again { Control (plain head (view command.now)) head (view command.now) }
{
    let len = write_body(&mut out[HEADER_SIZE..], command);
    write_header(out, head, len as u16);
    HEADER_SIZE + len
}

/// Writes an acknowledge (GigE Vision 2.0, GVCP acknowledge header) to the front of a slice, and
/// leaves the rest of it. The answer is the number of bytes written.
pub fn write_ack(out: &mut [u8], ack: &Ack<'_>) -> usize
    requires request { 1 ≤ (ack_view ack.now).req }
    requires fits { length (ack_view ack.now).body ≤ 540 }
    requires room { length (plain_ack (ack_view ack.now)) ≤ length out.old }
    ensures written { out.new ≡ plain_ack (ack_view ack.now) ++ drop (length (plain_ack (ack_view ack.now))) out.old }
    ensures len { result ≡ length (plain_ack (ack_view ack.now)) }
    // What was written is read again.
    ensures read_again { Answer (plain_ack (ack_view ack.now)) (ack_view ack.now) }
{
    let len = ack.body.len();
    BigEndian::write_u16(out, ack.status);
    BigEndian::write_u16(&mut out[2..], ack.code);
    BigEndian::write_u16(&mut out[4..], len as u16);
    BigEndian::write_u16(&mut out[6..], ack.req);
    out[HEADER_SIZE..HEADER_SIZE + len].copy_from_slice(ack.body);
    HEADER_SIZE + len
}
