//! The reader's turns over links and a clock in memory, and the stop of its receiver.

ghost use Rattle.std.specs.Prelude.{◌≡◌, ◌≤◌, ◌+◌, [], vec_len, vec_capacity};
ghost use Rattle.acq_core.specs.Receiver.{buffers};
ghost use Rattle.acq_core.specs.Waiting.{waiting_fills, waiting_requests};
ghost use Rattle.buffer_words.specs.Boards.{board_id};

use crate::board::{new_board, print_all};
use crate::case::Case;
use crate::links::{CAMERA, MemoryHost, new_host};
use crate::printing::print_sent;
use crate::workers::controlling::new_client;
use crate::workers::receivers::new_receiver;
use acq_core::Acq;
use anyhow::Result;
use board_calls::Mode;
use buffer_words::{Board, Pass};
use gev_acq::{Turn, acquire, drain};
use gev_control::AcqEnd;
use gev_links::{Clock, CountsFaults, Link, MeetingGate, MemoryLink};
use std::sync::Wait;

/// How many turns a reader makes at most.
const TURNS: u64 = 4;

/// The reader's turns: numbers are whether the client asks, whether the window has two blocks, the mode, and whether the
/// acquisition was stopped before.
pub fn acquire_some<R: Wait>(rt: &HostRuntime, handles: &R, case: &Case<'_>) -> Result<()> {
    let (board, mut pass) = new_board(rt.alloc())?;
    if case.number(3) == 1 {
        let _ = board.stop(&mut pass, false);
    }
    acquire_on(rt, handles, case, &board, &mut pass)
}

/// The same on this board.
fn acquire_on<R: Wait>(
    rt: &HostRuntime,
    handles: &R,
    case: &Case<'_>,
    board: &Board,
    pass: &mut Pass,
) -> Result<()>
    requires table { pass.old.table ≡ board_id board.now }
{
    let mut host = new_host(rt.alloc(), case, new_client(case.number(0) == 1))?;
    acquire_over(rt, handles, case, board, pass, &mut host)
}

/// The same, over these links.
fn acquire_over<R: Wait>(
    rt: &HostRuntime,
    handles: &R,
    case: &Case<'_>,
    board: &Board,
    pass: &mut Pass,
    host: &mut MemoryHost<'_>,
) -> Result<()>
    requires table { pass.old.table ≡ board_id board.now }
{
    take_turns(rt, handles, case, board, pass, host)?;
    print_links(rt, host.stream.fault_count(), &mut host.control)?;
    print_all(rt, handles, board, pass)
}

/// Prints how often the stream's link failed, what was sent, and whether the control link hears more.
fn print_links(rt: &HostRuntime, faults: u64, control: &mut MemoryLink<'_>) -> Result<()> {
    print!(rt; "\n  stream's faults {faults}")?;
    print_sent(rt, control)?;
    print!(rt; "\n  hears {}", hears_more(control))?;
    Ok(())
}

/// Whether a link hears one more datagram.
fn hears_more(link: &mut MemoryLink<'_>) -> bool {
    let mut out = [0; 9000];
    link.recv(&mut out).is_ok_and(|came| came.is_some())
}

/// Makes the turns and then the stop, and prints how they ended, the moment that is read next, how often the gate was
/// passed, how many requests were made, and the journal.
fn take_turns<R: Wait>(
    rt: &HostRuntime,
    handles: &R,
    case: &Case<'_>,
    board: &Board,
    pass: &mut Pass,
    host: &mut MemoryHost<'_>,
) -> Result<()>
    requires table { pass.old.table ≡ board_id board.now }
    ensures table { pass.new.table ≡ pass.old.table }
{
    let mut journal = Vec::with_capacity(rt.alloc(), 4)?;
    write_turns(rt, handles, case, board, pass, host, &mut journal)?;
    print_journal(rt, journal.as_slice())
}

/// The same, with the journal to be printed.
fn write_turns<R: Wait>(
    rt: &HostRuntime,
    handles: &R,
    case: &Case<'_>,
    board: &Board,
    pass: &mut Pass,
    host: &mut MemoryHost<'_>,
    journal: &mut Vec<Turn>,
) -> Result<()>
    requires table { pass.old.table ≡ board_id board.now }
    requires room { vec_len journal.old + 4 ≤ vec_capacity journal.old }
    ensures table { pass.new.table ≡ pass.old.table }
{
    let mut acq = new_receiver(rt.alloc(), case.number(1) == 1)?;
    let gate = MeetingGate::new(1);
    let mode = case.mode(2);
    let end = acquire_and_stop(handles, mode, board, pass, &mut acq, host, &gate, journal);
    let asked = acq.counts().requests;
    print_end(rt, end, host.clock.now(), gate.fills(), asked)
}

/// Prints how the turns ended, the moment that is read next, how often the gate was passed, and how many requests were made.
fn print_end(rt: &HostRuntime, end: AcqEnd, next: u64, fills: u64, requests: u64) -> Result<()> {
    print!(rt; "{end:?} next {next} fills {fills} requests {requests}")?;
    Ok(())
}

/// Makes the turns and then the stop, and tells how they ended.
fn acquire_and_stop<R: Wait>(
    handles: &R,
    mode: Mode,
    board: &Board,
    pass: &mut Pass,
    acq: &mut Acq,
    host: &mut MemoryHost<'_>,
    gate: &MeetingGate,
    journal: &mut Vec<Turn>,
) -> AcqEnd
    requires table { pass.old.table ≡ board_id board.now }
    requires fills { waiting_fills acq.old ≡ [] }
    requires requests { waiting_requests acq.old ≡ [] }
    requires buffers { buffers acq.old ≡ [] }
    requires room { vec_len journal.old + 4 ≤ vec_capacity journal.old }
    ensures table { pass.new.table ≡ pass.old.table }
{
    let end = acquire(
        handles,
        board,
        pass,
        acq,
        &mut host.client,
        &mut host.stream,
        &mut host.control,
        &mut host.clock,
        gate,
        CAMERA,
        journal,
        TURNS,
        mode,
    );
    drain(handles, board, pass, acq, mode);
    end
}

/// Prints each turn on a line of its own.
fn print_journal(rt: &HostRuntime, journal: &[Turn]) -> Result<()> {
    for turn in journal {
        print!(rt; "\n  {turn:?}")?;
    }
    Ok(())
}
