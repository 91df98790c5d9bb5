//! A wait for the first leader of a camera's stream, over links in memory.

use super::controlling::SEND_LIMIT;
use super::datagrams::{CAMERA, Datagram, HOST, ROOM, datagrams, heard, print_link};
use super::fields::{field, numbers};
use anyhow::Result;
use bootstrap_regs::addresses::CCP;
use control_client::Client;
use first_leader::{FirstLeader, NoLeader, Patience, await_leader};
use gev_control::{Order, carry_out};
use gev_links::{CountsFaults, MemoryClock, MemoryLink, MemorySource};
use std::alloc::{AllocError, Global};
use std::str::Split;
use std::sync::Wait;

/// The room for a datagram that is looked at.
const LOOK_ROOM: usize = 9000;

/// The first command, which takes control.
const FIRST: [Order; 1] = [Order::WriteReg {
    address: CCP,
    value: 2,
}];

/// The fields of a row but its input.
#[derive(Drop)]
struct Row {
    moments: Vec<u64>,
    looks: Vec<u64>,
    receives: Vec<u64>,
    sends: Vec<u64>,
    patience: Patience,
    stream: Vec<Option<Datagram>>,
    control: Vec<Option<Datagram>>,
}

/// The fields of a row, in order.
fn row_of(alloc: Global, text: &str) -> Result<Row> {
    let mut row = Row {
        moments: Vec::new(alloc),
        looks: Vec::new(alloc),
        receives: Vec::new(alloc),
        sends: Vec::new(alloc),
        patience: Patience {
            packet_size: 0,
            silence: 0,
            until_input: false,
        },
        stream: Vec::new(alloc),
        control: Vec::new(alloc),
    };
    fill(alloc, &mut row, &mut text.split(' '))?;
    Ok(row)
}

/// Reads the fields of a row.
fn fill(alloc: Global, row: &mut Row, fields: &mut Split<'_, char>) -> Result<()> {
    fill_calls(alloc, row, fields)?;
    row.patience = patience_of(fields);
    row.stream = datagrams(alloc, fields)?;
    row.control = datagrams(alloc, fields)?;
    Ok(())
}

/// Reads the moments, and which calls of the links fail.
fn fill_calls(
    alloc: Global,
    row: &mut Row,
    fields: &mut Split<'_, char>,
) -> Result<(), AllocError> {
    row.moments = numbers(alloc, fields)?;
    row.looks = numbers(alloc, fields)?;
    row.receives = numbers(alloc, fields)?;
    row.sends = numbers(alloc, fields)?;
    Ok(())
}

/// How it's waited, by the next fields.
fn patience_of(fields: &mut Split<'_, char>) -> Patience {
    Patience {
        packet_size: field(fields).parse::<u16>().unwrap_or(0),
        silence: field(fields).parse::<u64>().unwrap_or(0),
        until_input: field(fields) != "-",
    }
}

/// The input of a row, of which each byte lasts for one look.
fn input_of(text: &str) -> &str {
    let input = text.split(' ').nth(6).unwrap_or(".");
    if input == "." { "" } else { input }
}

/// A wait behind a first command: how it ended, how many bytes the next receive of the stream gives, the faults, and what was
/// sent.
pub fn leader_row<R: Wait>(rt: &HostRuntime, handles: &R, text: &str) -> Result<()> {
    let row = row_of(rt.alloc(), text)?;
    wait_over(rt, handles, &row, input_of(text))
}

/// The same, over the links of this row.
fn wait_over<R: Wait>(rt: &HostRuntime, handles: &R, row: &Row, input: &str) -> Result<()> {
    let alloc = rt.alloc();
    let shown = heard(alloc, row.stream.as_slice())?;
    let told = heard(alloc, row.control.as_slice())?;
    let mut stream = MemoryLink::new(alloc, HOST, shown.as_slice(), row.looks.as_slice(), &[], 0)?;
    let mut control = MemoryLink::new(
        alloc,
        HOST,
        told.as_slice(),
        row.receives.as_slice(),
        row.sends.as_slice(),
        ROOM,
    )?;
    wait_and_show(rt, handles, row, input, &mut stream, &mut control)
}

/// The same, over these links.
fn wait_and_show<R: Wait>(
    rt: &HostRuntime,
    handles: &R,
    row: &Row,
    input: &str,
    stream: &mut MemoryLink<'_>,
    control: &mut MemoryLink<'_>,
) -> Result<()> {
    let moments = row.moments.as_slice();
    let found = wait_for(handles, moments, row.patience, input, stream, control);
    print_found(rt, found)?;
    let faults = stream.fault_count();
    print_next(rt, stream)?;
    print!(rt; ", faults {faults} {}", control.fault_count())?;
    print_link(rt, control)
}

/// The wait, behind a first command that takes control.
fn wait_for<R: Wait>(
    handles: &R,
    moments: &[u64],
    patience: Patience,
    input: &str,
    stream: &mut MemoryLink<'_>,
    control: &mut MemoryLink<'_>,
) -> Result<FirstLeader, NoLeader> {
    let mut client = Client::with_limit(SEND_LIMIT);
    let mut clock = MemoryClock::new(moments);
    let mut source = MemorySource::new(input.as_bytes(), 1, &[]);
    let _ = carry_out(handles, &mut client, control, &mut clock, CAMERA, &FIRST);
    await_leader(
        handles,
        &mut client,
        stream,
        control,
        &mut clock,
        &mut source,
        CAMERA,
        patience,
    )
}

/// What the leader tells, or why none came.
fn print_found(rt: &HostRuntime, found: Result<FirstLeader, NoLeader>) -> Result<()> {
    match found {
        Ok(leader) => print!(rt;
            "frames of {} bytes, {:?}, {} in a packet",
            leader.info.size, leader.ids, leader.payload_size
        )?,
        Err(why) => print!(rt; "{why:?}")?,
    }
    Ok(())
}

/// How many bytes the next receive gives.
fn print_next(rt: &HostRuntime, stream: &mut MemoryLink<'_>) -> Result<()> {
    let mut out = [0; LOOK_ROOM];
    match stream.peek(&mut out) {
        Ok(Some((count, _))) => print!(rt; ", next {count}")?,
        _ => print!(rt; ", next none")?,
    }
    Ok(())
}
