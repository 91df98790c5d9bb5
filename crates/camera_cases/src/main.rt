//! Rows of a simulated camera and its client, of the network in which they run, of a soak run's host, and of a camera on the
//! network that is taken and let go (`search`). Each line of standard input names a part and a call, and is written again with
//! the call's answer. Lines that begin with `#` are written as they are. What the commands `camera`, `make` and `soak` write
//! stands in `cases`.
#![tactic(auto)]

mod camera; // the camera as a whole
mod client; // the client of the control channel
mod fault; // why a row has no answer
mod frames; // the generator and its images
mod host; // the host of a soak run
mod network; // the lossy queue
mod row; // the words of a row
mod search; // a camera on the network
mod shown; // answers as text

use anyhow::Result;
use camera_sim::Camera;
use control_client::Client;
use fault::Fault;
use gev_types::NoMemory;
use soak_receiver::SoakReceiver;
use std::alloc::Global;
use std::sync::Wait;

/// What the rows work on.
#[derive(Drop)]
struct Room {
    camera: Camera,
    client: Client,
    host: SoakReceiver,
}

impl Room {
    /// All as it is at first.
    fn new(alloc: Global) -> Result<Room, NoMemory> {
        Ok(Room {
            camera: camera::new_camera(alloc)?,
            client: Client::new(),
            host: SoakReceiver::new(alloc)?,
        })
    }

    /// The answer to a row, whose first word names the part.
    fn answer(&mut self, alloc: Global, row: &str) -> Result<String, Fault> {
        match row::word(row, 0) {
            "frames" => frames::answer(alloc, row),
            "camera" => camera::answer(alloc, &mut self.camera, row),
            "client" => client::answer(alloc, &mut self.client, row),
            "queue" => network::answer(alloc, row),
            "host" => host::answer(alloc, &mut self.host, row),
            _ => Err(Fault::NotUnderstood),
        }
    }
}

fn main(rt: HostRuntime) -> Result<()> {
    match Room::new(rt.alloc()) {
        Ok(mut room) => answer_lines(&rt, &rt, &mut room),
        Err(_) => {
            println!(rt; "no memory")?;
            Ok(())
        }
    }
}

/// Writes each line of standard input with its answer.
fn answer_lines<R: Wait>(rt: &HostRuntime, handles: &R, room: &mut Room) -> Result<()> {
    for line in rt.lines(rt.alloc()) {
        answer_line(rt, handles, room, line?.as_str())?;
    }
    Ok(())
}

/// Writes a line, and behind a row its answer.
fn answer_line<R: Wait>(rt: &HostRuntime, handles: &R, room: &mut Room, line: &str) -> Result<()> {
    if line.is_empty() || line.starts_with('#') {
        println!(rt; "{line}")?;
        return Ok(());
    }
    print!(rt; "{line} = ")?;
    answer(rt, handles, room, line)?;
    println!(rt)?;
    Ok(())
}

/// Writes the answer of a row.
fn answer<R: Wait>(rt: &HostRuntime, handles: &R, room: &mut Room, row: &str) -> Result<()> {
    let (word, rest) = row.split_once(' ').unwrap_or((row, ""));
    match search::answer(rt, handles, word, rest) {
        Some(answered) => answered,
        None => answer_in(rt, room, row),
    }
}

/// Writes the answer of a row about the room's camera, its client, a network or a host.
fn answer_in(rt: &HostRuntime, room: &mut Room, row: &str) -> Result<()> {
    match room.answer(rt.alloc(), row) {
        Ok(answer) => print!(rt; "{answer}")?,
        Err(fault) => print!(rt; "{fault:?}")?,
    }
    Ok(())
}
