//! The rows of the live room: its workers one by one, tapes and scripts of recorded runs, and frames that are received. A row says
//! what comes over links in memory and when, and its answer what became of that. Whole runs are rows of the program's calls.
//!
//! A row is a word and behind it its fields, a space before each.
//!
//! - `setup`, `turn`, `sends`, `orders`, `through`, `beat`, `acquire`, `paces`, `turns`, `read`, `served`, `told`, `serve`, `obey` and
//!   `apply` are rows of a worker, and `laws` calls the workers' laws.
//! - `script` and `tape` are rows of what is recorded.
//! - `frame` and `receive` are rows of the lines of frames, `hand` and `tell` of the application that writes them.
//!
//! A worker has up to seven fields, and so have these two: numbers; the moments of the clock; what the control link hears, or the camera's;
//! which of its receives fail, and which of its sends, or the writes of a sink; what the stream's link hears, and which of its
//! receives fail. Frames have fields of their own, which are numbers, words and texts. A comment before the rows of a word says
//! what its numbers are.
//!
//! In one field several numbers, or several datagrams, stand with commas between them. A datagram is `0x` and its bytes, `-` is a
//! receive that gets nothing, and a field that is `.` or left out is empty.
#![tactic(auto)]

mod board; // a board's buffers
mod calls; // which call a row names
mod case; // the fields of a worker's row
mod fields; // a row's fields, one behind another
mod links; // addresses, links and tapes
mod printing; // what was sent, and texts
mod received; // frames that are received
mod runs; // tapes and scripts
mod workers; // the workers of a run

use anyhow::Result;
use std::sync::Wait;

fn main(rt: HostRuntime) -> Result<()> {
    for line in rt.lines(rt.alloc()) {
        print_line(&rt, &rt, line?.as_str())?;
    }
    Ok(())
}

/// Prints a line, and behind a row its answer.
fn print_line<R: Wait>(rt: &HostRuntime, handles: &R, line: &str) -> Result<()> {
    print!(rt; "{line}")?;
    if is_row(line) {
        print_answer(rt, handles, line)?;
    }
    println!(rt)?;
    Ok(())
}

/// Whether a line is a row, and neither empty nor a comment.
fn is_row(line: &str) -> bool {
    !line.is_empty() && !line.starts_with('#')
}

/// Prints the answer of a row behind an equals sign.
fn print_answer<R: Wait>(rt: &HostRuntime, handles: &R, row: &str) -> Result<()> {
    print!(rt; " = ")?;
    calls::answer(rt, handles, row)
}
