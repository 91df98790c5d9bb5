//! The last line of a run.

ghost use Rattle.std.specs.Prelude.{◌≡◌};
ghost use Rattle.frame_writing.specs.ReceiveLine.{receive_line};
ghost use Rattle.gev_receive.specs.Ending.{has_last, WritesLast, with_strangers, Finishes};

use crate::is_told;
use crate::ran::Ran;
use camera_words::Output;
use frame_writing::{ReceiveCounts, add_receive};
use gev_links::{Sink, write_all};
use gev_status::Status;
use std::alloc::Global;

/// Whether the last line is written with this answer.
fn has_last(output: Output, status: Status) -> bool
    ensures { result ≡ has_last output status }
{
    match output {
        Output::Lines(_) => is_told(status),
        Output::Pictures => false,
        Output::Counts => is_told(status),
    }
}

/// Writes the last line: the answer with that.
fn write_last<K: Sink>(alloc: Global, sink: &mut K, first: Status, counts: &ReceiveCounts) -> Status
    ensures { WritesLast first (receive_line counts.now) (K.written sink.old) (K.written sink.new) (K.faults sink.old) (K.faults sink.new) result }
{
    let mut line = Vec::new(alloc);
    if add_receive(&mut line, counts).is_err() {
        return Status::NoMemory;
    }
    match write_all(sink, line.as_slice()) {
        Ok(()) => first,
        Err(_) => Status::WriteFault,
    }
}

/// Tells the last line on standard error, where pictures alone are written. Where memory is wanting for it it's left out.
fn tell_last<K: Sink>(alloc: Global, sink: &mut K, counts: &ReceiveCounts)
    ensures written { K.written sink.new ≡ K.written sink.old }
    ensures faults { K.faults sink.new ≡ K.faults sink.old }
{
    let mut line = Vec::new(alloc);
    if add_receive(&mut line, counts).is_ok() {
        sink.tell(line.as_slice());
    }
}

/// The numbers with those of strangers.
fn with_strangers(counts: ReceiveCounts, strangers: u64) -> ReceiveCounts
    ensures { result ≡ with_strangers counts strangers }
{
    let mut last = counts;
    last.strangers = strangers;
    last
}

/// Writes the last line where it's wanted, with the number of strangers: the answer with that.
pub(crate) fn finish<K: Sink>(
    alloc: Global,
    sink: &mut K,
    output: Output,
    ran: Ran,
    strangers: u64,
) -> Status
    ensures { Finishes output ran.status result ran.counts strangers (K.written sink.old) (K.written sink.new) (K.faults sink.old) (K.faults sink.new) }
{
    let Ran {
        status,
        counts,
        lost: _,
    } = ran;
    let last = with_strangers(counts, strangers);
    if !has_last(output, status) {
        if is_told(status) {
            tell_last(alloc, sink, &last);
        }
        return status;
    }
    write_last(alloc, sink, status, &last)
}
