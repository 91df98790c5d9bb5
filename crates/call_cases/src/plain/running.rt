//! Runs of a command line.

use super::input::number;
use gev_links::{MemorySink, MemorySource};
use gev_status::Status;
use gev_top::plain_top;
use std::alloc::{AllocError, Global};
use std::io;

/// How many bytes a read gives and a write takes, and which read and write fail, from 1.
#[derive(Clone, Copy)]
struct Ends {
    piece: u64,
    room: u64,
    read: u64,
    write: u64,
}

/// How a run ended, what it wrote, and how many reads and writes failed.
#[derive(Drop)]
struct Run {
    status: Status,
    written: Vec<u8>,
    faults: (u64, u64),
}

/// Runs the words over this input.
fn run_words(alloc: Global, ends: Ends, words: &[&str], input: &[u8]) -> Result<Run, AllocError> {
    let words = list(alloc, words)?;
    let reads = [ends.read];
    let writes = [ends.write];
    let mut source = MemorySource::new(input, ends.piece as usize, &reads);
    let mut sink = MemorySink::new(alloc, ends.room as usize, &writes);
    let status = plain_top(alloc, words.as_slice(), &mut source, &mut sink);
    Ok(Run {
        status,
        written: sink.written().to_vec(alloc)?,
        faults: (source.faults(), sink.faults()),
    })
}

/// A vector of these words.
pub(crate) fn list(alloc: Global, words: &[&str]) -> Result<Vec<String>, AllocError> {
    let mut all = Vec::new(alloc);
    for word in words {
        all.push(String::from_str(alloc, word)?)?;
    }
    Ok(all)
}

/// Prints how a run ended, how many reads and writes failed, and how many bytes it wrote.
pub(crate) fn print_run(
    rt: &impl Print,
    alloc: Global,
    input: &[u8],
    parts: &[&str],
) -> io::Result<()> {
    let [piece, room, read, write, words @ ..] = parts else {
        return rt.println(" = not understood");
    };
    let ends = Ends {
        piece: number(piece),
        room: number(room),
        read: number(read),
        write: number(write),
    };
    let run = run_words(alloc, ends, words, input)?;
    print_end(rt, &run)
}

/// Prints the status, the faults and the number of bytes of a run.
fn print_end(rt: &impl Print, run: &Run) -> io::Result<()> {
    let status = run.status;
    let (reads, writes) = run.faults;
    let count = run.written.len();
    println!(rt;
        " = {} {status}; {reads} reads and {writes} writes failed; {count} bytes",
        status.number()
    )
}

/// Prints for each failing read, or write, the number of the status and how many bytes were written, up to the run
/// that meets no fault. A `!` between them says that these aren't the first ones of what that run writes.
pub(crate) fn print_sweep(
    rt: &impl Print,
    alloc: Global,
    input: &[u8],
    reads: bool,
    parts: &[&str],
) -> io::Result<()> {
    let [piece, room, words @ ..] = parts else {
        return rt.println(" = not understood");
    };
    let ends = Ends {
        piece: number(piece),
        room: number(room),
        read: 0,
        write: 0,
    };
    let whole = run_words(alloc, ends, words, input)?;
    rt.print(" =")?;
    print_faults(rt, alloc, input, reads, ends, words, &whole)?;
    rt.println("")
}

/// Prints the runs with a fault, up to the first one that meets none.
fn print_faults(
    rt: &impl Print,
    alloc: Global,
    input: &[u8],
    reads: bool,
    ends: Ends,
    words: &[&str],
    whole: &Run,
) -> io::Result<()> {
    for failing in 1..1000 {
        let run = run_words(alloc, failing_at(ends, reads, failing), words, input)?;
        print_front(rt, &run, whole)?;
        if run.faults == (0, 0) {
            break;
        }
    }
    Ok(())
}

/// The same ends, of which this read or write fails.
fn failing_at(ends: Ends, reads: bool, failing: u64) -> Ends {
    if reads {
        Ends {
            read: failing,
            ..ends
        }
    } else {
        Ends {
            write: failing,
            ..ends
        }
    }
}

/// Prints how a run with a fault ended, beside the run without one.
fn print_front(rt: &impl Print, run: &Run, whole: &Run) -> io::Result<()> {
    let code = run.status.number();
    let count = run.written.len();
    let mark = if whole.written.starts_with(run.written.as_slice()) {
        ':'
    } else {
        '!'
    };
    print!(rt; " {code}{mark}{count}")
}
