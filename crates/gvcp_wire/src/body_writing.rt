ghost use Rattle.std.specs.Prelude.{◌≡◌, ◌≤◌};
ghost use Rattle.gvcp_wire.specs.Control.{Control, plain};
ghost use Rattle.gvcp_wire.specs.Bodies.{resend_body, resend_head, resend_command, IsWithin, discovery_head, discovery_command};
ghost use Rattle.gvcp_wire.specs.BodyLaws.{IsWrittenResend};

use crate::codes::{DISCOVERY_CMD, PACKETRESEND_BODY_SIZE, PACKETRESEND_CMD};
use crate::resend::Resend;
use crate::{Command, CommandFlags, CommandHead, write_command};
use bitflags::Flags;
use byteorder::{BigEndian, ByteOrder};

// The body of PACKETRESEND.
fn body_of(resend: Resend) -> [u8; PACKETRESEND_BODY_SIZE]
    ensures bytes { result ≡ resend_body resend }
    ensures fits { IsWithin resend }
{
    let mut body = [0; PACKETRESEND_BODY_SIZE];
    BigEndian::write_u16(&mut body, resend.channel);
    BigEndian::write_u32(&mut body[4..], resend.first);
    BigEndian::write_u32(&mut body[8..], resend.last);
    BigEndian::write_u64(&mut body[12..], resend.block);
    body
}

/// Writes PACKETRESEND with extended identifiers (GigE Vision 2.0, PACKETRESEND command), which asks
/// for packets again and for no acknowledge.
pub fn write_resend(out: &mut [u8; 28], req: u16, resend: Resend)
    requires { 1 ≤ req }
    ensures written { out.new ≡ plain (resend_head req) (resend_command resend) }
    // What was written is read again.
    ensures read_again { IsWrittenResend req resend }
{
    let body = body_of(resend);
    let head = CommandHead {
        flags: CommandFlags::EXTENDED_ID.bits(),
        code: PACKETRESEND_CMD,
        req,
    };
    write_command(
        out,
        head,
        &Command::Other {
            code: PACKETRESEND_CMD,
            body: &body,
        },
    );
}

/// Writes DISCOVERY (GigE Vision 2.0, DISCOVERY command), which finds cameras. It asks for an
/// acknowledge, and allows that it is broadcast.
pub fn write_discovery(out: &mut [u8; 8], req: u16)
    requires { 1 ≤ req }
    ensures written { out.new ≡ plain (discovery_head req) discovery_command }
    // What was written is read again.
    ensures read_again { Control out.new (discovery_head req) discovery_command }
{
    let flags = CommandFlags::ACKNOWLEDGE.bits() | CommandFlags::ALLOW_BROADCAST_ACK.bits();
    let head = CommandHead {
        flags,
        code: DISCOVERY_CMD,
        req,
    };
    write_command(
        out,
        head,
        &Command::Other {
            code: DISCOVERY_CMD,
            body: &[],
        },
    );
}
