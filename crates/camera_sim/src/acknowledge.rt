//! Acknowledges of commands (GigE Vision 2.0, GVCP acknowledge header).

ghost use Rattle.std.specs.Prelude.{◌≡◌, ◌≤◌, length, take, option_map, IfSome};
ghost use Rattle.gvcp_wire.specs.Flags.{has_flag};
ghost use Rattle.camera_machine.specs.Commands.{ack_code, ack_for};

use bitflags::Flags;
use gvcp_wire::codes::{HEADER_SIZE, MAX_BODY_SIZE};
use gvcp_wire::{Ack, CommandFlags, CommandHead, Status, write_ack};

/// The most bytes of a command and of an acknowledge.
pub const MESSAGE_SIZE: usize = HEADER_SIZE + MAX_BODY_SIZE;

// Whether an acknowledge is asked for.
fn is_asked_for(flags: u8) -> bool
    ensures { result ≡ has_flag 0x01 flags }
{
    CommandFlags::from_bits_retain(flags).contains(CommandFlags::ACKNOWLEDGE)
}

/// Writes the acknowledge of a command with this header to the front of `out`, where one was asked
/// for. The answer is how many bytes it has.
pub(crate) fn acknowledge(
    head: CommandHead,
    status: Status,
    body: &[u8],
    out: &mut [u8; MESSAGE_SIZE],
) -> Option<usize>
    requires request { 1 ≤ head.req }
    requires body { length body.now ≤ MAX_BODY_SIZE }
    ensures sent { option_map (λ len. take len out.new) result ≡ ack_for head status body.now }
    ensures fits { IfSome result (λ len. len ≤ MESSAGE_SIZE) }
{
    if !is_asked_for(head.flags) {
        return None;
    }
    let ack = Ack {
        status: status.code(),
        code: head.code.saturating_add(1),
        req: head.req,
        body,
    };
    Some(write_ack(out, &ack))
}
