//! A camera that is taken and let go, over a link in memory.

ghost use Rattle.client_machine.specs.Machine.{IsIdle};

use super::datagrams::{CAMERA, Datagram, HOST, ROOM, datagrams, heard, print_link};
use super::fields::{field, numbers};
use anyhow::Result;
use camera_control::{ControlEnd, NotTaken, RegisterWrite, StreamWish, Taken, let_go, take_camera};
use control_client::Client;
use gev_links::{CountsFaults, MemoryClock, MemoryLink};
use gev_types::Peer;
use link_filters::RegisterReads;
use std::alloc::{AllocError, Global};
use std::str::Split;
use std::sync::Wait;

/// The limit of a send, in milliseconds.
pub const SEND_LIMIT: u64 = 500;

/// The fields of a row.
#[derive(Drop)]
struct Row {
    moments: Vec<u64>,
    receives: Vec<u64>,
    sends: Vec<u64>,
    packet_size: u16,
    sets: Vec<RegisterWrite>,
    starts: Vec<RegisterWrite>,
    stops: Vec<RegisterWrite>,
    beats: Vec<u64>,
    came: Vec<Option<Datagram>>,
}

/// The next field, one of writes, each a register and a value. One that is `.` is empty.
fn writes(alloc: Global, fields: &mut Split<'_, char>) -> Result<Vec<RegisterWrite>, AllocError> {
    let mut found = Vec::new(alloc);
    for part in field(fields).split(',') {
        if let Some((register, value)) = part.split_once('=') {
            found.push(RegisterWrite {
                register: register.parse::<u32>().unwrap_or(0),
                value: value.parse::<u32>().unwrap_or(0),
            })?;
        }
    }
    Ok(found)
}

/// The fields of a row, in order.
fn row_of(alloc: Global, text: &str) -> Result<Row> {
    let mut row = Row {
        moments: Vec::new(alloc),
        receives: Vec::new(alloc),
        sends: Vec::new(alloc),
        packet_size: 0,
        sets: Vec::new(alloc),
        starts: Vec::new(alloc),
        stops: Vec::new(alloc),
        beats: Vec::new(alloc),
        came: Vec::new(alloc),
    };
    fill(alloc, &mut row, &mut text.split(' '))?;
    Ok(row)
}

/// Reads the fields of a row.
fn fill(alloc: Global, row: &mut Row, fields: &mut Split<'_, char>) -> Result<()> {
    fill_calls(alloc, row, fields)?;
    row.packet_size = field(fields).parse::<u16>().unwrap_or(0);
    fill_writes(alloc, row, fields)?;
    row.beats = numbers(alloc, fields)?;
    row.came = datagrams(alloc, fields)?;
    Ok(())
}

/// Reads the moments, and which calls of the link fail.
fn fill_calls(
    alloc: Global,
    row: &mut Row,
    fields: &mut Split<'_, char>,
) -> Result<(), AllocError> {
    row.moments = numbers(alloc, fields)?;
    row.receives = numbers(alloc, fields)?;
    row.sends = numbers(alloc, fields)?;
    Ok(())
}

/// Reads what is written before the stream opens, to start the camera and to stop it.
fn fill_writes(
    alloc: Global,
    row: &mut Row,
    fields: &mut Split<'_, char>,
) -> Result<(), AllocError> {
    row.sets = writes(alloc, fields)?;
    row.starts = writes(alloc, fields)?;
    row.stops = writes(alloc, fields)?;
    Ok(())
}

/// A camera that is taken, and where it's held let go: how both ended, the faults, and what was sent.
pub fn control_row<R: Wait>(rt: &HostRuntime, handles: &R, text: &str) -> Result<()> {
    let row = row_of(rt.alloc(), text)?;
    let hears = heard(rt.alloc(), row.came.as_slice())?;
    control_over(rt, handles, &row, hears.as_slice())
}

/// The same, over a link that hears this.
fn control_over<R: Wait>(
    rt: &HostRuntime,
    handles: &R,
    row: &Row,
    hears: &[Option<(&[u8], Peer)>],
) -> Result<()> {
    let link = MemoryLink::new(
        rt.alloc(),
        HOST,
        hears,
        row.receives.as_slice(),
        row.sends.as_slice(),
        ROOM,
    )?;
    let mut control = RegisterReads::new(link);
    take_and_leave(rt, handles, row, &mut control)?;
    print_sent(rt, &control.into_inner())
}

/// Takes a camera, and lets it go where it's held: how both ended.
fn take_and_leave<R: Wait>(
    rt: &HostRuntime,
    handles: &R,
    row: &Row,
    control: &mut RegisterReads<MemoryLink<'_>>,
) -> Result<()> {
    let mut client = Client::with_limit(SEND_LIMIT);
    let mut clock = MemoryClock::new(row.moments.as_slice());
    let taken = take(handles, row, &mut client, control, &mut clock);
    if print_taken(rt, taken)? {
        let beating = taken.is_ok();
        let left = leave(handles, row, &mut client, control, &mut clock, beating);
        print!(rt; ", let go {left:?}")?;
    }
    Ok(())
}

/// Takes a camera as a row says.
fn take<R: Wait>(
    handles: &R,
    row: &Row,
    client: &mut Client,
    control: &mut RegisterReads<MemoryLink<'_>>,
    clock: &mut MemoryClock<'_>,
) -> Result<Taken, NotTaken>
    requires idle { IsIdle client.old }
{
    let wish = StreamWish {
        receiver: HOST,
        packet_size: row.packet_size,
    };
    let sets = row.sets.as_slice();
    let starts = row.starts.as_slice();
    take_camera(handles, client, control, clock, CAMERA, wish, sets, starts)
}

/// Lets a camera go behind the moments that the client is told.
fn leave<R: Wait>(
    handles: &R,
    row: &Row,
    client: &mut Client,
    control: &mut RegisterReads<MemoryLink<'_>>,
    clock: &mut MemoryClock<'_>,
    beating: bool,
) -> Result<(), ControlEnd> {
    for beat in row.beats.as_slice() {
        client.tick(*beat);
    }
    let stops = row.stops.as_slice();
    let_go(handles, client, control, clock, CAMERA, beating, stops)
}

/// Prints how a camera was taken: whether it's held.
fn print_taken(rt: &HostRuntime, taken: Result<Taken, NotTaken>) -> Result<bool> {
    match taken {
        Ok(told) => {
            print!(rt;
                "taken with packets of {}, resends {}",
                told.packet_size, told.resends
            )?;
            Ok(true)
        }
        Err(fault) => {
            print!(rt; "{:?}", fault.end)?;
            Ok(fault.held)
        }
    }
}

/// How often the link failed, and what was sent.
fn print_sent(rt: &HostRuntime, link: &MemoryLink<'_>) -> Result<()> {
    print!(rt; ", faults {}", link.fault_count())?;
    print_link(rt, link)
}
