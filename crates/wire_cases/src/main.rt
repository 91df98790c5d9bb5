//! Rows of the wire, which give numbers and bytes: sizes of images, buffers and fields, packets of an image stream and messages
//! of the control channel, both ways, standard identifiers, requests among commands, links that stand on links, sets of packet
//! ids, the image of some packets by the plain program, and how the pixels of a format are drawn.
//!
//! Each line of standard input is a row, a word for the call and what it is called with, and is written again with its
//! answer. A line that begins with `#` says what the next rows show. Each row stands alone.
#![tactic(auto)]

mod base; // sizes, buffers, numbers
mod bitmaps; // sets of packet ids
mod control; // messages of the control channel
mod images; // the image of some packets, by the plain program
mod links; // links that stand on links
mod requests; // packets asked for again among commands
mod rows; // the call that a row names
mod samples; // how pixels are drawn
mod standard; // standard identifiers
mod stream; // packets of the stream
mod words; // what a row gives

use std::io::Result;

fn main(rt: HostRuntime) -> Result<()> {
    for line in rt.lines(rt.alloc()) {
        write_line(&rt, line?.as_str())?;
    }
    Ok(())
}

/// Writes a line again, a row with its answer.
fn write_line(rt: &HostRuntime, line: &str) -> Result<()> {
    if line.is_empty() || line.starts_with('#') {
        return println!(rt; "{line}");
    }
    match rows::answer(rt.alloc(), line) {
        Some(answer) => println!(rt; "{line} = {answer}"),
        None => println!(rt; "{line} = not understood"),
    }
}
