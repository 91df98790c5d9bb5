//! The messages of the control channel, read and written.

use crate::words::{bytes, number, number16, number32};
use gvcp_wire::codes::{READMEM_CMD, READREG_CMD};
use gvcp_wire::{
    Ack, Command, CommandHead, Resend, Status, has_extended_ids, parse_ack, parse_command,
    read_pending, read_resend, write_ack, write_command, write_discovery, write_resend,
};
use std::alloc::Global;
use std::str::SplitWhitespace;

/// The statuses of the standard.
const STATUSES: [Status; 14] = [
    Status::Success,
    Status::PacketResend,
    Status::NotImplemented,
    Status::InvalidParameter,
    Status::InvalidAddress,
    Status::WriteProtect,
    Status::BadAlignment,
    Status::AccessDenied,
    Status::Busy,
    Status::PacketUnavailable,
    Status::InvalidHeader,
    Status::PacketNotYetAvailable,
    Status::PacketAndPrevRemovedFromMemory,
    Status::PacketRemovedFromMemory,
];

/// Bytes: the command that they are, or the refusal and its text.
pub fn command(alloc: Global, words: &mut SplitWhitespace<'_>) -> Option<String> {
    let bytes = bytes(alloc, words)?;
    match parse_command(bytes.as_slice()) {
        Ok((head, command)) => format!(in alloc; "{head:?} {command:?}").ok(),
        Err(refusal) => format!(in alloc; "{refusal:?}: {refusal}").ok(),
    }
}

/// Bytes: whether they are a command.
pub fn is_command(alloc: Global, words: &mut SplitWhitespace<'_>) -> Option<String> {
    let bytes = bytes(alloc, words)?;
    let is_command = parse_command(bytes.as_slice()).is_ok();
    format!(in alloc; "{is_command}").ok()
}

/// A request number and an address: READREG that asks for an acknowledge.
pub fn read_register(alloc: Global, words: &mut SplitWhitespace<'_>) -> Option<String> {
    let req = number16(words)?;
    let address = number32(words)?.to_be_bytes();
    if req == 0 {
        return None;
    }
    let head = CommandHead {
        flags: 1,
        code: READREG_CMD,
        req,
    };
    let mut out = [0xEE; 16];
    let len = write_command(&mut out, head, &Command::ReadReg(&address));
    hex::encode(alloc, &out[..len]).ok()
}

/// A request number, an address and a count: READMEM that asks for an acknowledge.
pub fn read_memory(alloc: Global, words: &mut SplitWhitespace<'_>) -> Option<String> {
    let req = number16(words)?;
    let address = number32(words)?;
    let count = number16(words)?;
    if req == 0 {
        return None;
    }
    let head = CommandHead {
        flags: 1,
        code: READMEM_CMD,
        req,
    };
    let mut out = [0xEE; 16];
    let len = write_command(&mut out, head, &Command::ReadMem { address, count });
    hex::encode(alloc, &out[..len]).ok()
}

/// Bytes: the acknowledge that they are and the time that it says is still wanted, or the refusal and its
/// text.
pub fn acknowledge(alloc: Global, words: &mut SplitWhitespace<'_>) -> Option<String> {
    let bytes = bytes(alloc, words)?;
    match parse_ack(bytes.as_slice()) {
        Ok(ack) => {
            let pending = read_pending(&ack);
            format!(in alloc; "{ack:?} {pending:?}").ok()
        }
        Err(refusal) => format!(in alloc; "{refusal:?}: {refusal}").ok(),
    }
}

/// A status, a code, a request number and a body of at most 8 bytes: the acknowledge.
pub fn write_acknowledge(alloc: Global, words: &mut SplitWhitespace<'_>) -> Option<String> {
    let status = number16(words)?;
    let code = number16(words)?;
    let req = number16(words)?;
    let body = bytes(alloc, words)?;
    let ack = Ack {
        status,
        code,
        req,
        body: body.as_slice(),
    };
    written(alloc, &ack)
}

/// The bytes of an acknowledge with a body of at most 8 bytes.
fn written(alloc: Global, ack: &Ack<'_>) -> Option<String> {
    if ack.req == 0 || ack.body.len() > 8 {
        return None;
    }
    let mut out = [0xEE; 16];
    let len = write_ack(&mut out, ack);
    hex::encode(alloc, &out[..len]).ok()
}

/// Flags, a code and the body of a command: the packets that it asks for, and whether the flags say
/// extended identifiers.
pub fn asked(alloc: Global, words: &mut SplitWhitespace<'_>) -> Option<String> {
    let head = command_head(words)?;
    let body = bytes(alloc, words)?;
    let resend = read_resend(head, body.as_slice());
    let extended = has_extended_ids(head.flags);
    format!(in alloc; "{resend:?} {extended}").ok()
}

/// Flags and a code: the header of a command with request number 1.
fn command_head(words: &mut SplitWhitespace<'_>) -> Option<CommandHead> {
    let flags = u8::try_from(number(words)?).ok()?;
    let code = number16(words)?;
    Some(CommandHead {
        flags,
        code,
        req: 1,
    })
}

/// A request number and a range of packets.
pub fn asking(words: &mut SplitWhitespace<'_>) -> Option<(u16, Resend)> {
    let req = number16(words)?;
    let channel = number16(words)?;
    let first = number32(words)?;
    let last = number32(words)?;
    let block = number(words)?;
    let resend = Resend {
        channel,
        first,
        last,
        block,
    };
    Some((req, resend))
}

/// A request number, a channel, the first and the last packet id and a block: PACKETRESEND with extended
/// identifiers.
pub fn resend(alloc: Global, words: &mut SplitWhitespace<'_>) -> Option<String> {
    let (req, resend) = asking(words)?;
    if req == 0 {
        return None;
    }
    let mut out = [0xEE; 28];
    write_resend(&mut out, req, resend);
    hex::encode(alloc, out.as_slice()).ok()
}

/// A request number: DISCOVERY.
pub fn discovery(alloc: Global, words: &mut SplitWhitespace<'_>) -> Option<String> {
    let req = number16(words)?;
    if req == 0 {
        return None;
    }
    let mut out = [0xEE; 8];
    write_discovery(&mut out, req);
    hex::encode(alloc, out.as_slice()).ok()
}

/// A status code: its name and its text.
pub fn status(alloc: Global, words: &mut SplitWhitespace<'_>) -> Option<String> {
    let code = number16(words)?;
    for status in STATUSES {
        if status.code() == code {
            return format!(in alloc; "{status:?}: {status}").ok();
        }
    }
    None
}
