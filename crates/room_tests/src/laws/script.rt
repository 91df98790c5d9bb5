//! Each law of scripts, reports and captures is a function with nothing to do, and is called once. Behind them:
//! what readers do behind a read that fails.

use capture_script::laws as captured;
use capture_streams::{
    begins_in_milliseconds, captures_are_listed, dropped_are_told_last, packets_are_counted,
    streams_are_within,
};
use gev_capture::{CaptureEnd, Reader, captures_are_one, packets_have_bytes, pieces_tell};
use gev_links::MemorySource;
use gev_script::laws::{kinds_of_lines, read_is_spelled, spelled_is_read};
use gev_script::{LineEnd, Lines};
use note_report::ended_words_are_outcomes;
use note_tape::{rounds_are_told, tallies_are_counted};
use script_image::laws::{pictures_show_blocks, taken_buffers_are_handed_so, takes_are_counted};
use std::test::Fail;

#[test]
fn laws_can_be_called(_rt: HostRuntime) {
    spelled_is_read();
    read_is_spelled();
    kinds_of_lines();
    ended_words_are_outcomes();
    tallies_are_counted();
    rounds_are_told();
    takes_are_counted();
    taken_buffers_are_handed_so();
    pictures_show_blocks();
    pieces_tell();
    captures_are_one();
    packets_have_bytes();
    packets_are_counted();
    streams_are_within();
    captures_are_listed();
    dropped_are_told_last();
    begins_in_milliseconds();
    captured::datagrams_are_told();
    captured::packets_make_scripts();
    captured::captures_make_scripts();
    captured::packets_are_replayed();
    captured::captures_are_replayed();
}

/// Those of what a script does, and of what is told of it.
#[test]
fn laws_of_traces_can_be_called(_rt: HostRuntime) {
    block_fills::laws::retired_blocks_are_blocks();
    block_fills::laws::fills_are_the_retired();
    script_trace::traces_keep_promises();
    script_trace::runs_keep_promises();
    script_trace::takes_are_counted();
    script_trace::traces_rest();
    script_trace::lines_are_judged();
    script_trace::lines_have_a_trace();
    script_trace::trace_is_one();
    script_trace::report_is_one();
    script_trace::scripts_are_worked();
    script_trace::explanations_hold_reports();
    script_trace::explanation_is_one();
    script_trace::scripts_are_accounted();
    script_trace::explanations_are_judged();
    script_trace::drops_are_worked();
    script_trace::ends_are_worked();
    live_promises::traces_keep_headline();
    live_promises::runs_keep_headline();
    live_promises::blocks_hold_frames();
    script_trace::standard_laws::narrowed_scripts_run_alike();
}

/// Lines give a fault again at each further call, and read nothing.
#[test]
fn a_fault_between_lines_is_kept(rt: HostRuntime) -> Result<(), Fail> {
    let mut source = MemorySource::new(b"take\nkill\n", 5, &[2]);
    let mut lines = Lines::new(rt.alloc())?;
    assert!(rt; lines.next(&mut source) == Ok(1));
    assert!(rt; lines.line() == b"take".as_slice());
    assert!(rt; lines.next(&mut source) == Err(LineEnd::ReadFault));
    assert!(rt; lines.next(&mut source) == Err(LineEnd::ReadFault));
    assert!(rt; lines.given() == 1 && source.faults() == 1);
    Ok(())
}

/// The header of a pcap file.
const HEADER: &[u8] =
    b"\xd4\xc3\xb2\xa1\x02\x00\x04\x00\x00\x00\x00\x00\x00\x00\x00\x00\xff\xff\x00\x00\x01\x00\x00\x00";

/// A capture is read on behind a fault.
#[test]
fn a_capture_is_tried_again(rt: HostRuntime) -> Result<(), Fail> {
    let mut source = MemorySource::new(HEADER, 20, &[2]);
    let mut reader = Reader::new(rt.alloc())?;
    assert!(rt; reader.next(&mut source) == Err(CaptureEnd::ReadFault));
    assert!(rt; reader.records() == 0);
    assert!(rt; reader.next(&mut source) == Ok(()));
    assert!(rt; reader.packet().is_none());
    assert!(rt; reader.next(&mut source) == Err(CaptureEnd::Ended));
    assert!(rt; reader.records() == 1);
    Ok(())
}
