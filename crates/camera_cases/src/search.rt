//! Rows of a camera on the network: the URLs of its description, cameras that are taken and let go, and waits for a first leader.
//!
//! A row is a word and what it's given. Of `control` these are the moments of the clock; the numbers of the receives and of the
//! sends that fail, each counted from 1; the packet size; the writes before the stream opens, those that start and those that
//! stop the camera; the moments that the client is told before it's let go; and what the link hears. Of `leader` they are the
//! moments; the numbers of the looks and receives of the stream that fail, and of the receives and the sends of the control
//! link; the packet size; for how long it's waited; the input, of which each byte lasts for one look, or `-` where it isn't
//! looked at; what the stream hears; and what the control link hears, from the acknowledge of a first command on. A field that
//! is `.` is empty.

mod controlling; // cameras that are taken and let go
mod datagrams; // what a link hears and what was sent
mod fields; // a row's fields
mod leading; // waits for a first leader

use anyhow::Result;
use camera_description::location_in;
use std::sync::Wait;

/// Prints the answer of a row; None of another word's row.
pub(crate) fn answer<R: Wait>(
    rt: &HostRuntime,
    handles: &R,
    word: &str,
    rest: &str,
) -> Option<Result<()>> {
    match word {
        "url" => Some(url(rt, rest)),
        "control" => Some(controlling::control_row(rt, handles, rest)),
        "leader" => Some(leading::leader_row(rt, handles, rest)),
        _ => None,
    }
}

/// A URL, in which `~` is a zero byte.
fn url(rt: &HostRuntime, text: &str) -> Result<()> {
    let mut bytes = Vec::new(rt.alloc());
    for byte in text.as_bytes() {
        bytes.push(if *byte == b'~' { 0 } else { *byte })?;
    }
    show_location(rt, bytes.as_slice())
}

/// The place in a camera's memory that a URL tells.
fn show_location(rt: &HostRuntime, url: &[u8]) -> Result<()> {
    match location_in(url) {
        Some(location) => print!(rt; "{} bytes at {:08x}", location.size, location.address)?,
        None => print!(rt; "none")?,
    }
    Ok(())
}
