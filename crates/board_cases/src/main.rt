//! Rows of the board: calls on a plain board and on one that threads share, the texts of errors, and what an application on
//! another thread knows of the images that came.
//!
//! Each line of standard input is a row, and is written again with its answer. A line that begins with `#` says what the next
//! rows show. `board` begins both boards anew, and the rows after it are calls on both, of the host or of the worker whose
//! number stands before the call. Where the two answer otherwise, both answers are written.
#![tactic(auto)]

mod answer; // what a call answers
mod application; // an application on another thread
mod boards; // the two boards
mod call; // the calls that rows name
mod errors; // rows of values alone
mod handles; // what a handle stands for
mod image; // what a fill writes
mod plain; // calls on the plain board
mod rows; // what a row asks for, and its answer
mod shared; // calls on the shared board
mod words; // the words of a row

use anyhow::Result;
use boards::Boards;
use rows::answer_line;
use std::sync::Wait;
use std::thread::Threads;

fn main(rt: HostRuntime) -> Result<()> {
    let mut boards = Boards::new(rt.alloc())?;
    write_lines(&rt, &rt, &mut boards)
}

/// Writes each line of standard input again, a row with its answer. Rows have their threads of `handles`.
fn write_lines<R: Threads + Wait + Sync>(
    rt: &HostRuntime,
    handles: &R,
    boards: &mut Boards,
) -> Result<()> {
    for line in rt.lines(rt.alloc()) {
        write_line(rt, handles, boards, line?.as_str())?;
    }
    Ok(())
}

/// Writes a line again, a row with its answer.
fn write_line<R: Threads + Wait + Sync>(
    rt: &HostRuntime,
    handles: &R,
    boards: &mut Boards,
    line: &str,
) -> Result<()> {
    if line.is_empty() || line.starts_with('#') {
        return Ok(println!(rt; "{line}")?);
    }
    match answer_line(handles, rt.alloc(), boards, line)? {
        Some(answer) => Ok(println!(rt; "{line} = {answer}")?),
        None => Ok(println!(rt; "{line} = not understood")?),
    }
}
