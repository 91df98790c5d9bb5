//! What a datagram is to an image stream, by its bytes.

ghost use Rattle.std.specs.Prelude.{◌≡◌, ◌≤◌, ◌+◌, length, false, true};
ghost use Rattle.gvsp_wire.specs.View.{seen};
ghost use Rattle.gvsp_wire.specs.Reading.{ok_of, packet_of};
ghost use Rattle.gvsp_std.specs.Widening.{widened};
ghost use Rattle.capture_streams.specs.Signs.{kind_in, is_resent, sign_in, sign};

use crate::sign::{Kind, Sign};
use gvsp_std::Widener;
use gvsp_wire::{Packet, WireError, parse};

/// The status of a packet that is sent again.
const RESEND_STATUS: u16 = 0x0100;

/// What a packet with extended identifiers or with standard ones tells, if it is one.
fn kind_in(extended: bool, packet: Result<Packet<'_>, WireError>) -> Kind
    ensures { result ≡ kind_in extended (ok_of (seen packet.entry)) }
{
    match packet {
        Ok(Packet::Leader(head, info)) => Kind::Leader(extended, head.block, info),
        Ok(Packet::Payload(_, bytes)) => Kind::Payload(bytes.len() as u64),
        Ok(Packet::Trailer(_, _)) => Kind::Other,
        Ok(Packet::Notice(_)) => Kind::Other,
        Err(_) => Kind::Other,
    }
}

/// Whether it's a packet that was sent again.
fn is_resent(packet: Result<Packet<'_>, WireError>) -> bool
    ensures { result ≡ is_resent (ok_of (seen packet.entry)) }
{
    match packet {
        Ok(Packet::Leader(head, _)) => head.status == RESEND_STATUS,
        Ok(Packet::Payload(head, _)) => head.status == RESEND_STATUS,
        Ok(Packet::Trailer(head, _)) => head.status == RESEND_STATUS,
        Ok(Packet::Notice(head)) => head.status == RESEND_STATUS,
        Err(_) => false,
    }
}

/// What a packet with extended identifiers or with standard ones is, if it is one.
fn sign_in(extended: bool, packet: Result<Packet<'_>, WireError>) -> Sign
    ensures { result ≡ sign_in extended (ok_of (seen packet.entry)) }
{
    Sign {
        kind: kind_in(extended, packet),
        resent: is_resent(packet),
    }
}

/// What a datagram is to a stream. One with standard identifiers is widened into the room, in the block of its
/// own id.
pub(crate) fn sign(bytes: &[u8], room: &mut [u8]) -> Sign
    requires { length bytes.now + 12 ≤ length room.old }
    ensures { result ≡ sign bytes.now }
{
    let mut widener = Widener::new();
    match widener.widen(bytes, room) {
        Ok(count) => sign_in(false, parse(&room[..count])),
        Err(_) => sign_in(true, parse(bytes)),
    }
}
