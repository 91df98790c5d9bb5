//! Takes ten frames of each camera whose address stands in a line of the input: a line for each frame, a line of what was
//! counted, and how it ended. Register 0x0124 starts and stops the camera.

use camera_words::read_receive;
use gev_links::{FillBell, MemorySource};
use gev_real::{RealPorts, StandardOutput};
use gev_receive::receive_over;
use gev_status::Status;
use gev_types::NoMemory;
use std::alloc::Global;
use std::fs::Files;
use std::io;
use std::net::Net;
use std::sync::Wait;
use std::thread::Threads;
use std::time::Clock;

/// What is asked of a camera: the words of `gevacq receive`, without the camera's.
const WORDS: [&str; 3] = ["10", "start:0x0124=1", "stop:0x0124=0"];

/// Takes frames of each camera in turn. The threads and the sockets are those of `handles`.
pub(crate) fn run<R: Threads + Wait + Net + Clock + Files + Sync>(
    rt: &HostRuntime,
    handles: &R,
    addresses: &[String],
) -> io::Result<()> {
    for address in addresses {
        let status = receive(rt, handles, address.as_str())?;
        println!(rt; "{}: {status}", address.as_str())?;
    }
    Ok(())
}

/// Takes the frames of the camera at this address. The threads and the sockets are those of `handles`.
fn receive<R: Threads + Wait + Net + Clock + Files + Sync>(
    rt: &HostRuntime,
    handles: &R,
    address: &str,
) -> Result<Status, NoMemory> {
    let words = words_for(rt.alloc(), address)?;
    let settings = match read_receive(words.as_slice()) {
        Ok(settings) => settings,
        Err(place) => return Ok(Status::Usage { place }),
    };
    let mut ports = RealPorts::new(handles);
    let mut input = MemorySource::new(&[], 1, &[]);
    let mut output = StandardOutput::new(io::writer(rt));
    // the run's board, and its pass, which has seen all
    let mut kept = None;
    Ok(receive_over(
        handles,
        rt.alloc(),
        &settings,
        &mut ports,
        &mut input,
        &mut output,
        &FillBell::new(),
        &mut kept,
    ))
}

/// The words of `receive` for this camera.
fn words_for(alloc: Global, address: &str) -> Result<Vec<String>, NoMemory> {
    let mut words = Vec::new(alloc);
    words.push(String::from_str(alloc, "receive")?)?;
    words.push(String::from_str(alloc, address)?)?;
    for word in WORDS {
        words.push(String::from_str(alloc, word)?)?;
    }
    Ok(words)
}
