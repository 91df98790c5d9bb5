//! Rows of the commands that make no use of ports: a fault at each read and write, and sources that give little at once. What these
//! commands write without a fault stands in `cases`.
//!
//! `# ..` says what the next rows show, and empties the input. `< ..` adds a line to it, and `x COUNT HEX` so many times these
//! bytes. `? PIECE ROOM READ WRITE WORDS..` runs the words over a source that gives so many bytes in a call, and of which this
//! read fails, and a sink that takes so many and of which this write fails. `reads` and `writes` make each fail in turn. `words`
//! tells what words ask for, and `text` how a status is printed. A word of no bytes is written `""`.

mod input; // what the source gives
mod reading; // what words ask for
mod running; // runs of a command line

use gev_script::ScriptKind;
use gev_status::Status;
use std::alloc::Global;
use std::io;

/// Writes a row again, does what it says, and prints what is behind it, with the row's end.
pub(crate) fn answer(
    rt: &impl Print,
    alloc: Global,
    input: &mut Vec<u8>,
    row: &str,
) -> io::Result<()> {
    rt.print(row)?;
    let (kind, rest) = row.split_once(' ').unwrap_or((row, ""));
    if input::add_row(alloc, input, kind, rest)? {
        return rt.println("");
    }
    let parts = split(alloc, rest)?;
    call(rt, alloc, input.as_slice(), kind, parts.as_slice())
}

/// Makes the call of this kind over the input, and prints what it comes to.
fn call(
    rt: &impl Print,
    alloc: Global,
    input: &[u8],
    kind: &str,
    parts: &[&str],
) -> io::Result<()> {
    match kind {
        "?" => running::print_run(rt, alloc, input, parts),
        "reads" => running::print_sweep(rt, alloc, input, true, parts),
        "writes" => running::print_sweep(rt, alloc, input, false, parts),
        "words" => reading::print_reading(rt, alloc, parts),
        "text" => print_text(rt, parts),
        _ => rt.println(" = not understood"),
    }
}

/// Prints the number and the text of a status that no run has: want of memory, or behind a number a script of so many lines.
fn print_text(rt: &impl Print, parts: &[&str]) -> io::Result<()> {
    let status = match parts {
        [line] => Status::BadScript {
            line: input::number(line),
            kind: ScriptKind::Many,
        },
        _ => Status::NoMemory,
    };
    println!(rt; " = {} {status}", status.number())
}

/// The parts between spaces; of an empty text none.
fn split<'a>(alloc: Global, text: &'a str) -> io::Result<Vec<&'a str>> {
    let mut parts = Vec::new(alloc);
    if text.is_empty() {
        return Ok(parts);
    }
    for part in text.split(' ') {
        parts.push(if part == "\"\"" { "" } else { part })?;
    }
    Ok(parts)
}
