//! Reads datagrams, each a line of hexadecimal digits, and prints what each is as a packet of an image stream.

use gige_vision::packets::parse;
use std::alloc::{AllocError, Global};
use std::io;

/// The packet that these bytes are, or the first reason why they are none.
fn describe(alloc: Global, bytes: &[u8]) -> Result<String, AllocError> {
    match parse(bytes) {
        Ok(packet) => format!(in alloc; "{packet:?}"),
        Err(refusal) => format!(in alloc; "{refusal:?}: {refusal}"),
    }
}

/// Prints what each datagram is.
pub(crate) fn run(rt: &HostRuntime, lines: &[String]) -> io::Result<()> {
    for line in lines {
        match hex::decode(rt.alloc(), line.as_str()) {
            Ok(bytes) => println!(rt; "{}", describe(rt.alloc(), bytes.as_slice())?)?,
            Err(error) => println!(rt; "no datagram: {error}")?,
        }
    }
    Ok(())
}
