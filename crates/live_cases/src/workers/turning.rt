//! The turns of the reader of a camera's stream, with standard identifiers or extended ones, and the stop of its receiver.

ghost use Rattle.std.specs.Prelude.{◌≡◌, []};
ghost use Rattle.acq_core.specs.Receiver.{buffers};
ghost use Rattle.acq_core.specs.Waiting.{waiting_fills, waiting_requests};
ghost use Rattle.buffer_words.specs.Boards.{board_id};
ghost use Rattle.gev_acq.specs.Buffers.{Backs};

use crate::board::{new_board, print_all};
use crate::case::Case;
use crate::links::{CAMERA, MemoryHost, new_host};
use crate::printing::print_sent;
use acq_core::{Acq, AcqConfig};
use anyhow::Result;
use board_calls::Mode;
use buffer_words::{Board, Pass};
use camera_reader::{ReaderWords, TurnsDone, read_camera, tell_begin};
use control_client::Client;
use gev_acq::drain;
use gev_links::{Clock, OpenGate};
use packet_requests::IdMode;
use std::sync::Wait;

/// Missing packets are asked for once, 50 ms after the last one, and a block retires 200 ms after it.
const CONFIG: AcqConfig = AcqConfig {
    p: 528,
    window: 1,
    timeout: 200,
    age: 50,
    rounds: 1,
};

/// Numbers are whether the stream's identifiers are extended, after how many milliseconds a camera is silent, and the moment
/// before the first turn. How the reader ended, the moment that is read next, what was sent, and what waits.
pub fn read_some<R: Wait>(rt: &HostRuntime, handles: &R, case: &Case<'_>) -> Result<()> {
    let (board, mut pass) = new_board(rt.alloc())?;
    read_on(rt, handles, case, &board, &mut pass)
}

/// The same on this board.
fn read_on<R: Wait>(
    rt: &HostRuntime,
    handles: &R,
    case: &Case<'_>,
    board: &Board,
    pass: &mut Pass,
) -> Result<()>
    requires table { pass.old.table ≡ board_id board.now }
{
    let mut host = new_host(rt.alloc(), case, Client::with_limit(500))?;
    read_and_stop(rt, handles, case, board, pass, &mut host)?;
    print_all(rt, handles, board, pass)
}

/// The same with these links, up to what waits.
fn read_and_stop<R: Wait>(
    rt: &HostRuntime,
    handles: &R,
    case: &Case<'_>,
    board: &Board,
    pass: &mut Pass,
    host: &mut MemoryHost<'_>,
) -> Result<()>
    requires table { pass.old.table ≡ board_id board.now }
    ensures table { pass.new.table ≡ pass.old.table }
{
    let mut acq = Acq::new(rt.alloc(), CONFIG)?;
    let done = read_over(
        handles,
        reader_words(case),
        case.number(2),
        board,
        pass,
        &mut acq,
        host,
    );
    drain(handles, board, pass, &mut acq, Mode::OldestFirst);
    print_turns(rt, done, host)
}

/// The words of a reader with standard identifiers or extended ones.
fn reader_words(case: &Case<'_>) -> ReaderWords {
    let ids = if case.number(0) == 1 {
        IdMode::Extended
    } else {
        IdMode::Standard
    };
    ReaderWords {
        camera: CAMERA,
        ids,
        silence: case.number(1),
        mode: Mode::OldestFirst,
    }
}

/// Tells the camera where the stream begins, and takes the turns.
fn read_over<R: Wait>(
    handles: &R,
    words: ReaderWords,
    begin: u64,
    board: &Board,
    pass: &mut Pass,
    acq: &mut Acq,
    host: &mut MemoryHost<'_>,
) -> TurnsDone
    requires table { pass.old.table ≡ board_id board.now }
    requires fills { waiting_fills acq.old ≡ [] }
    requires requests { waiting_requests acq.old ≡ [] }
    requires backs { Backs pass.old (buffers acq.old) }
    ensures table { pass.new.table ≡ pass.old.table }
    ensures fills { waiting_fills acq.new ≡ [] }
    ensures requests { waiting_requests acq.new ≡ [] }
    ensures backs { Backs pass.new (buffers acq.new) }
{
    let control = &mut host.control;
    tell_begin(handles, board, pass, acq, control, &OpenGate, words, begin);
    read_camera(handles, board, pass, acq, host, &OpenGate, words, begin)
}

/// Prints how the turns ended, the moment that is read next, and what was sent.
fn print_turns(rt: &HostRuntime, done: TurnsDone, host: &mut MemoryHost<'_>) -> Result<()> {
    print!(rt;
        "{:?} refused {} next {}",
        done.end,
        done.refused,
        host.clock.now()
    )?;
    print_sent(rt, &host.control)
}
