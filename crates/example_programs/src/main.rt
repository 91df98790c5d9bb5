//! Examples of programs over the library, each by its word: `packets`, `receiver` and `camera`.
//!
//! Several words run their examples in turn. The input of one ends at an empty line.
#![tactic(auto)]

mod camera; // frames of a camera on the network
mod packets; // what a datagram is
mod receiver; // images of the datagrams of a stream
mod receiving; // what the receiver is told, and what comes out of it

use std::{env, io};

/// The lines of the examples' inputs, one example after the other.
type Inputs = Vec<Vec<String>>;

fn main(rt: HostRuntime) -> io::Result<()> {
    let inputs = read_inputs(&rt)?;
    for (word, lines) in env::args(&rt)?.skip(1).zip(inputs.iter()) {
        match word.as_str() {
            "packets" => packets::run(&rt, lines.as_slice())?,
            "receiver" => receiver::run(&rt, lines.as_slice())?,
            "camera" => camera::run(&rt, &rt, lines.as_slice())?,
            other => println!(rt; "no example: {other}")?,
        }
    }
    Ok(())
}

/// All lines of standard input, cut at the empty ones.
fn read_inputs(rt: &HostRuntime) -> io::Result<Inputs> {
    let mut inputs = Vec::new(rt.alloc());
    let mut lines = Vec::new(rt.alloc());
    for line in rt.lines(rt.alloc()) {
        let line = line?;
        if line.is_empty() {
            inputs.push(lines)?;
            lines = Vec::new(rt.alloc());
        } else {
            lines.push(line)?;
        }
    }
    inputs.push(lines)?;
    Ok(inputs)
}
