//! The client of the control channel.

use crate::fault::Fault;
use crate::row::{bytes, count, number, short_number, small_number, word};
use crate::shown::told;
use control_client::{Client, SETUP_SIZE, setup_write};
use gev_types::Peer;
use gvcp_wire::Command;
use std::alloc::Global;

/// This machine itself, 127.0.0.1.
const HOST: u32 = 0x7F00_0001;

/// The answer to a row of the client.
pub fn answer(alloc: Global, client: &mut Client, row: &str) -> Result<String, Fault> {
    match word(row, 1) {
        "read" => read(alloc, client, row),
        "setup" => setup(alloc, client, row),
        "tick" => told(alloc, client.tick(number(row, 2)?)),
        "receive" => receive(alloc, client, row),
        "send" => send(alloc, client),
        _ => answer_state(alloc, client, row),
    }
}

/// The answer to a row of a new client, or of what was read last.
fn answer_state(alloc: Global, client: &mut Client, row: &str) -> Result<String, Fault> {
    match word(row, 1) {
        "new" => renew(alloc, client, Client::new()),
        "limit" => renew(alloc, client, Client::with_limit(number(row, 2)?)),
        "value" => told(alloc, client.value()),
        "body" => Ok(hex::encode(alloc, client.body())?),
        _ => Err(Fault::NotUnderstood),
    }
}

/// Puts a new client in place of the one before: whether it's idle.
fn renew(alloc: Global, client: &mut Client, made: Client) -> Result<String, Fault> {
    *client = made;
    told(alloc, client.is_idle())
}

/// Gives the client what came.
fn receive(alloc: Global, client: &mut Client, row: &str) -> Result<String, Fault> {
    let moment = number(row, 2)?;
    let came = bytes(alloc, row, 3)?;
    told(alloc, client.receive(&came, moment))
}

/// Submits the reading of a register.
fn read(alloc: Global, client: &mut Client, row: &str) -> Result<String, Fault> {
    let address = short_number(row, 2)?.to_be_bytes();
    let moment = number(row, 3)?;
    told(alloc, client.submit(&Command::ReadReg(&address), moment))
}

/// Submits a command of the setup of a stream to a port of this machine.
fn setup(alloc: Global, client: &mut Client, row: &str) -> Result<String, Fault> {
    let place = count(row, 2)?;
    let port = small_number(row, 3)?;
    submit_setup(alloc, client, place, port, number(row, 4)?)
}

/// Submits the one at this place, where it's one.
fn submit_setup(
    alloc: Global,
    client: &mut Client,
    place: u8,
    port: u16,
    moment: u64,
) -> Result<String, Fault> {
    if place >= SETUP_SIZE {
        return Err(Fault::NotNow);
    }
    let stream = Peer {
        address: HOST,
        port,
    };
    let write = setup_write(stream, place);
    told(alloc, client.submit(&Command::WriteReg(&write), moment))
}

/// What the client has to send.
fn send(alloc: Global, client: &mut Client) -> Result<String, Fault> {
    match client.to_send() {
        Some(sent) => Ok(hex::encode(alloc, sent)?),
        None => told(alloc, ()),
    }
}
