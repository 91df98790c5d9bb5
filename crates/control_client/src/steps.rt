//! The tests and changes of which the client's steps are made.

ghost use Rattle.std.specs.Prelude.{◌≡◌, ◌+◌, ◌^◌, ◌≤◌, ◌<◌, ◌&&◌, ◌==◌, nat_le, min, true};
ghost use Rattle.gvcp_wire.specs.Messages.{view, ack_view};
ghost use Rattle.client_machine.specs.Commands.{code_of, next_req, is_match};
ghost use Rattle.client_machine.specs.Machine.{is_heartbeat_due, ack_outcome};
ghost use Rattle.control_client.specs.Seen.{IsSending};

use crate::sending::Sending;
use client_machine::Outcome;
use client_machine::numbers::HEARTBEAT_TIME;
use gvcp_wire::codes::{
    MAX_BODY_SIZE, READMEM_CMD, READREG_ACK, READREG_CMD, WRITEMEM_CMD, WRITEREG_CMD,
};
use gvcp_wire::{Ack, Command, Status};

// 2^64 milliseconds, a moment that never comes.
const NEVER: u128 = 1 << 64;

pub(crate) fn code_of(command: &Command<'_>) -> u16
    ensures { result ≡ code_of (view command.now) }
{
    match *command {
        Command::ReadReg(_) => READREG_CMD,
        Command::WriteReg(_) => WRITEREG_CMD,
        Command::ReadMem { .. } => READMEM_CMD,
        Command::WriteMem { .. } => WRITEMEM_CMD,
        Command::Other { code, .. } => code,
    }
}

// Whether the answer to a read of one register tells 0.
pub(crate) fn tells_zero(ack: &Ack<'_>) -> bool {
    ack.code == READREG_ACK && ack.status == 0 && ack.body == [0; 4].as_slice()
}

// The request number after this one.
pub(crate) fn next_req(req: u16) -> u16
    ensures { result ≡ next_req req }
{
    if req == u16::MAX { 1 } else { req + 1 }
}

pub(crate) fn is_heartbeat_due(ended: Option<u64>, moment: u64) -> bool
    ensures { result ≡ is_heartbeat_due ended moment }
{
    match ended {
        Some(ended) => u128::from(ended) + u128::from(HEARTBEAT_TIME) <= u128::from(moment),
        None => false,
    }
}

// Whether the limit of the last send has passed.
pub(crate) fn is_late(asked: &Sending, moment: u64) -> bool
    requires { IsSending asked.now }
    ensures { result ≡ nat_le (asked.now.sent + asked.now.limit) moment }
{
    u128::from(asked.sent) + asked.limit <= u128::from(moment)
}

// The command with a further send, which waits and has this limit.
pub(crate) fn sent_again(limit: u64, asked: Sending, moment: u64) -> Sending
    requires { asked.sends < 255 }
    ensures { result ≡ record asked { sends = asked.sends + 1; sent = moment; limit = limit; waits = true } }
{
    Sending {
        sends: asked.sends + 1,
        sent: moment,
        limit: u128::from(limit),
        waits: true,
        ..asked
    }
}

// The command with a longer limit for its last send.
pub(crate) fn longer(asked: Sending, time: u16) -> Sending
    requires { IsSending asked }
    ensures { result ≡ record asked { limit = min (asked.limit + time) (2 ^ 64) } }
{
    Sending {
        limit: (asked.limit + u128::from(time)).min(NEVER),
        ..asked
    }
}

// Whether the acknowledge answers the command.
pub(crate) fn is_match(asked: &Sending, ack: &Ack<'_>) -> bool
    ensures { result ≡ is_match asked.now.code asked.now.req (ack_view ack.now) }
{
    ack.req == asked.req
        && u32::from(ack.code) == u32::from(asked.code) + 1
        && ack.body.len() <= MAX_BODY_SIZE
}

// The outcome that an acknowledge with this status gives.
pub(crate) fn ack_outcome(status: u16) -> Outcome
    ensures { result ≡ ack_outcome status }
{
    if status == Status::Success.code() {
        return Outcome::Acked;
    }
    Outcome::Refused(status)
}
