//! Takes the datagrams of an image stream, and prints each image that comes of them and each request for what is missing.
//!
//! A line of the input is a datagram in hexadecimal digits, or `at MILLISECONDS`. A program on a network has the one of
//! its socket and the other of its clock.

ghost use Rattle.std.specs.Prelude.{◌≡◌, [], OnOk};
ghost use Rattle.acq_core.specs.Waiting.{waiting_fills, waiting_requests};

use crate::receiving::{Pool, print_requests, receive, take_images};
use gige_vision::images::Buf;
use gige_vision::receiver::{Acq, AcqConfig};
use std::io;

/// How the stream is received: payloads of 528 bytes, two open blocks, and times in milliseconds.
const CONFIG: AcqConfig = AcqConfig {
    p: 528,
    window: 2,
    timeout: 1000,
    age: 100,
    rounds: 1,
};

/// The bytes of a buffer.
const BUFFER_SIZE: u32 = 4096;

/// How many buffers there are.
const BUFFERS: u8 = 3;

/// Receives with three buffers, and prints the counts at the end.
pub(crate) fn run(rt: &HostRuntime, lines: &[String]) -> io::Result<()> {
    let mut pool = Vec::new(rt.alloc());
    for place in 0..BUFFERS {
        pool.push((place, Buf::new(rt.alloc(), BUFFER_SIZE)?))?;
    }
    let mut acq = Acq::new(rt.alloc(), CONFIG)?;
    tell_all(rt, &mut acq, &mut pool, lines)?;
    println!(rt; "{}", acq.counts())
}

/// Tells the receiver each line of the input, and then that the stream is over.
fn tell_all(rt: &HostRuntime, acq: &mut Acq, pool: &mut Pool, lines: &[String]) -> io::Result<()>
    requires no_fill { waiting_fills acq.old ≡ [] }
    requires no_request { waiting_requests acq.old ≡ [] }
{
    for line in lines {
        match line.as_str().strip_prefix("at ") {
            Some(moment) => tell_moment(rt, acq, pool, moment)?,
            None => tell_datagram(rt, acq, pool, line.as_str())?,
        }
    }
    acq.stop();
    take_images(rt, acq, pool)
}

/// Tells the receiver a moment.
fn tell_moment(rt: &HostRuntime, acq: &mut Acq, pool: &mut Pool, moment: &str) -> io::Result<()>
    requires no_fill { waiting_fills acq.old ≡ [] }
    requires no_request { waiting_requests acq.old ≡ [] }
    ensures no_fill { OnOk result (waiting_fills acq.new ≡ []) }
    ensures no_request { OnOk result (waiting_requests acq.new ≡ []) }
{
    match moment.parse::<u64>() {
        Ok(moment) => {
            acq.tick(moment);
            take_images(rt, acq, pool)?;
            print_requests(rt, acq)
        }
        Err(_) => println!(rt; "no moment: {moment}"),
    }
}

/// Tells the receiver a datagram.
fn tell_datagram(rt: &HostRuntime, acq: &mut Acq, pool: &mut Pool, digits: &str) -> io::Result<()>
    requires no_fill { waiting_fills acq.old ≡ [] }
    requires no_request { waiting_requests acq.old ≡ [] }
    ensures no_fill { OnOk result (waiting_fills acq.new ≡ []) }
    ensures no_request { OnOk result (waiting_requests acq.new ≡ []) }
{
    match hex::decode(rt.alloc(), digits) {
        Ok(bytes) => receive(rt, acq, pool, bytes.as_slice()),
        Err(error) => println!(rt; "no datagram: {error}"),
    }
}
