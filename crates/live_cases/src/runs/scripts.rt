//! Turns that are written out as a script, and the replay of that.

use crate::case::Case;
use crate::links::{CAMERA, tape_of};
use crate::printing::{print_takes, print_text};
use acquisition_machine::Mark;
use anyhow::{Result, anyhow};
use gev_links::{DiscardingLink, Link, MemorySink, MemorySource};
use gev_record::{RecordEnd, Tape, write_script};
use script_replay::Replay;
use script_runs::{Ending, run_script};
use std::alloc::Global;

/// Writes the turns of the stream's datagrams and of marks: numbers are for each turn the block that it opened, and
/// whether it claimed a buffer. How that ended, and the script and the take lines of its replay; of a front of the script
/// how many lines it has.
pub fn write_turns(rt: &HostRuntime, case: &Case<'_>) -> Result<()> {
    let marks = marks_of(rt.alloc(), case)?;
    write_marked(rt, case, marks.as_slice())
}

/// The same with these marks.
fn write_marked(rt: &HostRuntime, case: &Case<'_>, marks: &[Mark]) -> Result<()> {
    let mut tape = tape_of(rt.alloc(), CAMERA, case.stream, 10)?;
    hear_all(&mut tape, case.stream.len());
    write_tape(rt, case, &tape, marks)
}

/// Writes what a tape kept, with these marks.
fn write_tape(
    rt: &HostRuntime,
    case: &Case<'_>,
    tape: &Tape<DiscardingLink<'_>>,
    marks: &[Mark],
) -> Result<()> {
    let mut sink = MemorySink::new(rt.alloc(), 5000, case.sends);
    match write_script(rt.alloc(), tape, marks, &mut sink) {
        Ok(()) => print_script(rt, sink.written()),
        Err(end) => print_front(rt, end, sink.written()),
    }
}

/// Prints a script, and the take lines of its replay.
fn print_script(rt: &HostRuntime, script: &[u8]) -> Result<()> {
    print!(rt; "written")?;
    print_text(rt, script)?;
    print_replay(rt, script)
}

/// Prints how the writing of a script ended, and how many lines were written.
fn print_front(rt: &HostRuntime, end: RecordEnd, front: &[u8]) -> Result<()> {
    let lines = front.iter().filter(|byte| **byte == b'\n').count();
    print!(rt; "{end:?} lines {lines}")?;
    Ok(())
}

/// Makes so many receives of a tape.
fn hear_all(tape: &mut Tape<DiscardingLink<'_>>, count: usize) {
    let mut out = [0; 9000];
    for _turn in 0..count {
        let _ = tape.recv(&mut out);
    }
}

/// The marks of a row.
fn marks_of(alloc: Global, case: &Case<'_>) -> Result<Vec<Mark>> {
    let mut marks = Vec::new(alloc);
    let mut numbers = case.numbers.iter();
    for moment in case.moments {
        marks.push(mark(*moment, numbers.next(), numbers.next()))?;
    }
    Ok(marks)
}

/// The mark of a turn at a moment, by the block that it opened and whether it claimed a buffer.
fn mark(moment: u64, opened: Option<&u64>, claimed: Option<&u64>) -> Mark {
    Mark {
        moment,
        opened: opened.copied().unwrap_or(0),
        claimed: claimed.copied() == Some(1),
    }
}

/// Prints what the replay of a script takes.
pub fn print_replay(rt: &HostRuntime, script: &[u8]) -> Result<()> {
    let mut report = MemorySink::new(rt.alloc(), 1_000_000, &[]);
    replay_into(rt.alloc(), script, &mut report)?;
    print_takes(rt, report.written())
}

/// Replays a script, whose report goes into a sink.
fn replay_into(alloc: Global, script: &[u8], report: &mut MemorySink<'_>) -> Result<()> {
    let mut source = MemorySource::new(script, 1_000_000, &[]);
    let mut replay = Replay::new(alloc)?;
    if run_script(alloc, &mut source, report, &mut replay) != Ending::Done {
        return Err(anyhow!("not replayed"));
    }
    Ok(())
}
