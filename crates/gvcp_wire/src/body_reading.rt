ghost use Rattle.std.specs.Prelude.{◌≡◌, ◌↔◌, ℕ, Some, None};
ghost use Rattle.gvcp_wire.specs.Messages.{ack_view};
ghost use Rattle.gvcp_wire.specs.declared.resend.Resend.{Resend};
ghost use Rattle.gvcp_wire.specs.Bodies.{IsResend, IsNoResend, IsPending, IsNoPending};
ghost use Rattle.gvcp_wire.specs.BodyReading.{resend_reading, pending_reading};

use crate::codes::{PACKETRESEND_BODY_SIZE, PACKETRESEND_CMD, PENDING_ACK};
use crate::resend::Resend;
use crate::{Ack, CommandHead, has_extended_ids};
use wire_fields::{u16_at, u32_at, u64_at};

// The bytes in the body of PENDING.
const PENDING_BODY_SIZE: usize = 4;

fn resend_of(head: CommandHead, body: &[u8]) -> Option<Resend>
    ensures { result ≡ resend_reading head body.now }
{
    let is_resend = head.code == PACKETRESEND_CMD && has_extended_ids(head.flags);
    if !is_resend || body.len() != PACKETRESEND_BODY_SIZE {
        return None;
    }
    Some(Resend {
        channel: u16_at(body, 0),
        first: u32_at(body, 4),
        last: u32_at(body, 8),
        block: u64_at(body, 12),
    })
}

fn pending_of(ack: &Ack<'_>) -> Option<u16>
    ensures { result ≡ pending_reading (ack_view ack.now) }
{
    if ack.code != PENDING_ACK || ack.body.len() != PENDING_BODY_SIZE {
        return None;
    }
    Some(u16_at(ack.body, 2))
}

/// The packets that PACKETRESEND with extended identifiers asks for (GigE Vision 2.0, PACKETRESEND
/// command): the header and the body of a command, as a parser gave them.
pub fn read_resend(head: CommandHead, body: &[u8]) -> Option<Resend>
    ensures given { (resend : Resend) → (result ≡ Some resend) ↔ IsResend head body.now resend }
    // The code is another one, the identifiers aren't extended, or the body isn't 20 bytes.
    ensures none { (result ≡ None) ↔ IsNoResend head body.now }
    // The same, computed.
    ensures reading { result ≡ resend_reading head body.now }
{
    resend_of(head, body)
}

/// How much longer a command takes, in milliseconds, as a PENDING acknowledge says (GigE Vision 2.0,
/// PENDING acknowledge).
pub fn read_pending(ack: &Ack<'_>) -> Option<u16>
    ensures given { (time : ℕ) → (result ≡ Some time) ↔ IsPending (ack_view ack.now) time }
    // The code is another one, or the body isn't 4 bytes.
    ensures none { (result ≡ None) ↔ IsNoPending (ack_view ack.now) }
    // The same, computed.
    ensures reading { result ≡ pending_reading (ack_view ack.now) }
{
    pending_of(ack)
}
