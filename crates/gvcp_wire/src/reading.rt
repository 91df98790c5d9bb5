ghost use Rattle.std.specs.Prelude.{◌≡◌, ◌≤◌, ◌↔◌, length, option_map, Ok, Err};
ghost use Rattle.gvcp_wire.specs.declared.message.CommandHead.{CommandHead};
ghost use Rattle.gvcp_wire.specs.declared.message.ControlError.{ControlError};
ghost use Rattle.gvcp_wire.specs.Control.{Control, Refused};
ghost use Rattle.gvcp_wire.specs.Answer.{Answer, AnswerRefused};
ghost use Rattle.gvcp_wire.specs.Messages.{PlainCommand, PlainAck, view};
ghost use Rattle.gvcp_wire.specs.Reading.{are_items, read_reg_in, write_reg_in, read_mem_in, write_mem_in, other_in, in_table, command_in, body_reading, body_seen, command_reading, ack_reading, seen, ack_seen};

use crate::codes::*;
use crate::flags::has_extended_ids;
use crate::message::{Ack, Command, CommandHead, ControlError};
use wire_fields::{u16_at, u32_at};

// Whether the bytes are items of one size, from 1 to so many of them.
fn are_items(bytes: &[u8], size: usize, most: usize) -> bool
    requires some { 1 ≤ size }
    requires few { size ≤ 8 }
    requires many { most ≤ 135 }
    ensures { result ≡ are_items size most bytes.now }
{
    !bytes.is_empty() && bytes.len() <= size * most && bytes.len() % size == 0
}

fn read_reg(body: &[u8]) -> Option<Command<'_>>
    ensures { option_map view result ≡ read_reg_in body.now }
{
    are_items(body, WORD_SIZE, MAX_READREG_ADDRESSES).then_some(Command::ReadReg(body))
}

fn write_reg(body: &[u8]) -> Option<Command<'_>>
    ensures { option_map view result ≡ write_reg_in body.now }
{
    are_items(body, PAIR_SIZE, MAX_WRITEREG_PAIRS).then_some(Command::WriteReg(body))
}

fn read_mem(body: &[u8]) -> Option<Command<'_>>
    ensures { option_map view result ≡ read_mem_in body.now }
{
    if body.len() != READMEM_BODY_SIZE {
        return None;
    }
    let address = u32_at(body, 0);
    let count = u16_at(body, 6);
    Some(Command::ReadMem { address, count })
}

fn write_mem(body: &[u8]) -> Option<Command<'_>>
    ensures { option_map view result ≡ write_mem_in body.now }
{
    if body.len() < WORD_SIZE {
        return None;
    }
    let address = u32_at(body, 0);
    let bytes = &body[WORD_SIZE..];
    are_items(bytes, WORD_SIZE, MAX_WRITEMEM_WORDS).then_some(Command::WriteMem { address, bytes })
}

fn other(head: CommandHead, body: &[u8]) -> Option<Command<'_>>
    ensures { option_map view result ≡ other_in head body.now }
{
    let has_form = match head.code {
        DISCOVERY_CMD => body.is_empty(),
        PACKETRESEND_CMD => body.len() == PACKETRESEND_BODY_SIZE && has_extended_ids(head.flags),
        _ => true,
    };
    let code = head.code;
    has_form.then_some(Command::Other { code, body })
}

// The command of a body that isn't too long, if it has the form that the table of commands gives.
fn in_table(head: CommandHead, body: &[u8]) -> Option<Command<'_>>
    ensures { option_map view result ≡ in_table head body.now }
{
    match head.code {
        READREG_CMD => read_reg(body),
        WRITEREG_CMD => write_reg(body),
        READMEM_CMD => read_mem(body),
        WRITEMEM_CMD => write_mem(body),
        _ => other(head, body),
    }
}

// The command of a body, if the body has the form of its code.
fn command_in(head: CommandHead, body: &[u8]) -> Option<Command<'_>>
    ensures { option_map view result ≡ command_in head body.now }
{
    if body.len() > MAX_BODY_SIZE {
        return None;
    }
    in_table(head, body)
}

// What follows a message's header, if its request number and its length field are right.
fn body_of(bytes: &[u8]) -> Result<&[u8], ControlError>
    requires { 8 ≤ length bytes.now }
    ensures { body_seen result ≡ body_reading bytes.now }
{
    if u16_at(bytes, 6) == 0 {
        return Err(ControlError::ZeroReq);
    }
    let field = u16_at(bytes, 4);
    let body = &bytes[HEADER_SIZE..];
    if usize::from(field) != body.len() {
        let real = u32::try_from(body.len()).unwrap_or(u32::MAX);
        return Err(ControlError::Length { field, real });
    }
    Ok(body)
}

// Reads a command.
fn command_of(bytes: &[u8]) -> Result<(CommandHead, Command<'_>), ControlError>
    ensures { seen result ≡ command_reading bytes.now }
{
    if bytes.len() < HEADER_SIZE {
        return Err(ControlError::Short(bytes.len() as u32));
    }
    if bytes[0] != KEY {
        return Err(ControlError::Key(bytes[0]));
    }
    let body = body_of(bytes)?;
    let head = CommandHead {
        flags: bytes[1],
        code: u16_at(bytes, 2),
        req: u16_at(bytes, 6),
    };
    match command_in(head, body) {
        Some(command) => Ok((head, command)),
        None => Err(ControlError::Form(head)),
    }
}

// Reads an acknowledge.
fn ack_of(bytes: &[u8]) -> Result<Ack<'_>, ControlError>
    ensures { ack_seen result ≡ ack_reading bytes.now }
{
    if bytes.len() < HEADER_SIZE {
        return Err(ControlError::Short(bytes.len() as u32));
    }
    let body = body_of(bytes)?;
    Ok(Ack {
        status: u16_at(bytes, 0),
        code: u16_at(bytes, 2),
        req: u16_at(bytes, 6),
        body,
    })
}

/// Reads a command (GigE Vision 2.0, GVCP command header). Its body is lent from the bytes. Bytes
/// that are no command are refused by the first case of `ControlError` that holds.
pub fn parse_command(bytes: &[u8]) -> Result<(CommandHead, Command<'_>), ControlError>
    // The command that the bytes are, where they are one.
    ensures given { (head : CommandHead) (command : PlainCommand)
        → (seen result ≡ Ok (head, command)) ↔ Control bytes.now head command }
    // The first refusal that holds of them, where they are none.
    ensures refused { (e : ControlError) → (seen result ≡ Err e) ↔ Refused bytes.now e }
    // The same, computed.
    ensures reading { seen result ≡ command_reading bytes.now }
{
    command_of(bytes)
}

/// Reads an acknowledge (GigE Vision 2.0, GVCP acknowledge header). Its body is lent from the bytes.
/// Bytes that are no acknowledge are refused by the first of `Short`, `ZeroReq` and `Length` that
/// holds.
pub fn parse_ack(bytes: &[u8]) -> Result<Ack<'_>, ControlError>
    // The acknowledge that the bytes are, where they are one.
    ensures given { (ack : PlainAck) → (ack_seen result ≡ Ok ack) ↔ Answer bytes.now ack }
    // The first refusal that holds of them, where they are none.
    ensures refused { (e : ControlError) → (ack_seen result ≡ Err e) ↔ AnswerRefused bytes.now e }
    // The same, computed.
    ensures reading { ack_seen result ≡ ack_reading bytes.now }
{
    ack_of(bytes)
}
