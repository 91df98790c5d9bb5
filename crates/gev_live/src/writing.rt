//! The lines of a live run.

ghost use Rattle.std.specs.Prelude.{◌≡◌, ◌++◌, true};
ghost use Rattle.gev_report.specs.LiveLine.{live_line};
ghost use Rattle.gev_live.specs.Endings.{is_told, IsAnswer, EndsSo};

use crate::answers::is_told;
use gev_links::{Sink, write_all};
use gev_report::line_live;
use gev_status::Status;
use std::alloc::Global;

// Writes the lines and the last one.
fn write_lines<K: Sink>(
    alloc: Global,
    sink: &mut K,
    first: Status,
    mut lines: Vec<u8>,
    frames: u32,
    taken: u32,
) -> Status
    requires told { is_told first ≡ true }
    ensures ends { EndsSo first result (lines.items ++ live_line frames taken) (K.written sink.old) (K.written sink.new) (K.faults sink.old) (K.faults sink.new) }
{
    match line_live(alloc, frames, taken, &mut lines) {
        Ok(()) => match write_all(sink, &lines) {
            Ok(()) => first,
            Err(_) => Status::WriteFault,
        },
        Err(_) => Status::NoMemory,
    }
}

/// Writes the lines and the last one, where the workers' answer wants that, and gives that answer back. It is
/// `WriteFault` in its place where the sink failed, with a front of the lines written, and `NoMemory` where the last
/// line found no memory, with none.
pub fn write_told<K: Sink>(
    alloc: Global,
    sink: &mut K,
    first: Status,
    lines: Vec<u8>,
    frames: u32,
    taken: u32,
) -> Status
    requires an_answer { IsAnswer first }
    ensures ends { EndsSo first result (lines.items ++ live_line frames taken) (K.written sink.old) (K.written sink.new) (K.faults sink.old) (K.faults sink.new) }
{
    if is_told(first) {
        write_lines(alloc, sink, first, lines, frames, taken)
    } else {
        first
    }
}
