//! A receiver that is served by itself, without a reader's links.

ghost use Rattle.std.specs.Prelude.{◌≡◌, [], IfOk};
ghost use Rattle.acq_core.specs.Receiver.{buffers};
ghost use Rattle.acq_core.specs.Waiting.{waiting_fills, waiting_requests};
ghost use Rattle.buffer_words.specs.Boards.{board_id};
ghost use Rattle.gev_acq.specs.Buffers.{Backs};

use crate::board::{new_board, print_out};
use crate::case::Case;
use crate::workers::receivers::NARROW;
use acq_core::Acq;
use anyhow::{Result, anyhow};
use board_calls::Mode;
use buffer_words::{Board, Pass};
use gev_acq::{Heard, fill_all, receive, retire_all, serve_turn};
use gev_links::OpenGate;
use output_queue::close;
use std::sync::Wait;

const MODE: Mode = Mode::OldestFirst;

/// A first turn that hears the stream's datagram, and a second one that hears nothing, of a receiver whose output is
/// closed: what became of each, and where the buffer is then.
pub fn serve_some<R: Wait>(rt: &HostRuntime, handles: &R, case: &Case<'_>) -> Result<()> {
    let (board, mut pass) = new_board(rt.alloc())?;
    close(&board, &mut pass);
    serve_on(rt, handles, case, &board, &mut pass)?;
    print_out(rt, &board, &mut pass)
}

/// The turns on this board.
fn serve_on<R: Wait>(
    rt: &HostRuntime,
    handles: &R,
    case: &Case<'_>,
    board: &Board,
    pass: &mut Pass,
) -> Result<()>
    requires table { pass.old.table ≡ board_id board.now }
    ensures table { pass.new.table ≡ pass.old.table }
{
    let mut acq = Acq::new(rt.alloc(), NARROW)?;
    let first = serve_first(handles, case, board, pass, &mut acq)?;
    let moment = case.number(1);
    let second = serve_turn(
        handles, board, pass, &mut acq, &OpenGate, None, moment, MODE,
    );
    print!(rt;
        "{first:?}\n  {second:?}\n  {:?}",
        board.load(pass, 0).state
    )?;
    Ok(())
}

/// The first turn, in which the receiver is to ask for nothing.
fn serve_first<R: Wait>(
    handles: &R,
    case: &Case<'_>,
    board: &Board,
    pass: &mut Pass,
    acq: &mut Acq,
) -> Result<Heard>
    requires table { pass.old.table ≡ board_id board.now }
    requires fills { waiting_fills acq.old ≡ [] }
    requires requests { waiting_requests acq.old ≡ [] }
    requires buffers { buffers acq.old ≡ [] }
    ensures table { pass.new.table ≡ pass.old.table }
    ensures fills { waiting_fills acq.new ≡ [] }
    ensures requests { IfOk result (λ _. waiting_requests acq.new ≡ []) }
    ensures backs { Backs pass.new (buffers acq.new) }
{
    let came = Some(first(case));
    let moment = case.number(0);
    let heard = serve_turn(handles, board, pass, acq, &OpenGate, came, moment, MODE);
    if acq.next_request().is_some() {
        return Err(anyhow!("asks at once"));
    }
    Ok(heard)
}

/// The stream's datagram alone, and the stop of the receiver; then that of one that heard nothing.
pub fn tell_one<R: Wait>(rt: &HostRuntime, handles: &R, case: &Case<'_>) -> Result<()> {
    let (board, mut pass) = new_board(rt.alloc())?;
    tell_first(rt, handles, case, &board, &mut pass)?;
    stop_new(rt, handles, &board, &mut pass)
}

/// The stream's datagram alone, and the stop of the receiver.
fn tell_first<R: Wait>(
    rt: &HostRuntime,
    handles: &R,
    case: &Case<'_>,
    board: &Board,
    pass: &mut Pass,
) -> Result<()>
    requires table { pass.old.table ≡ board_id board.now }
    ensures table { pass.new.table ≡ pass.old.table }
{
    let mut acq = Acq::new(rt.alloc(), NARROW)?;
    let bytes = first(case);
    let heard = receive(handles, board, pass, &mut acq, &OpenGate, bytes, MODE);
    print!(rt; "{heard:?}")?;
    retire_all(handles, board, pass, &mut acq, &OpenGate, MODE);
    print_out(rt, board, pass)
}

/// The stop of a receiver that heard nothing.
fn stop_new<R: Wait>(rt: &HostRuntime, handles: &R, board: &Board, pass: &mut Pass) -> Result<()>
    requires table { pass.old.table ≡ board_id board.now }
{
    let mut acq = Acq::new(rt.alloc(), NARROW)?;
    acq.stop();
    fill_all(handles, board, pass, &mut acq, &OpenGate, MODE);
    print_out(rt, board, pass)
}

/// The first datagram of the stream.
fn first<'x>(case: &Case<'x>) -> &'x [u8] {
    match case.stream.first() {
        Some(Some((bytes, _))) => bytes,
        Some(None) => &[],
        None => &[],
    }
}
