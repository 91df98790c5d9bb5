//! A reader's turns one by one, with the host's moments or with those of the receiver's clock.

ghost use Rattle.std.specs.Prelude.{◌≡◌, []};
ghost use Rattle.acq_core.specs.Receiver.{buffers};
ghost use Rattle.acq_core.specs.Waiting.{waiting_fills, waiting_requests};
ghost use Rattle.buffer_words.specs.Boards.{board_id};
ghost use Rattle.gev_acq.specs.Buffers.{Backs};

use crate::board::{new_board, print_all};
use crate::case::Case;
use crate::links::{CAMERA, MemoryHost, new_host};
use acq_core::{Acq, AcqConfig, Ended};
use anyhow::Result;
use board_calls::Mode;
use buffer_words::{Board, Pass};
use control_client::Client;
use gev_acq::{HostMoments, Lent, Moments, Paced, Turn, drain, turn_once};
use gev_control::TurnEnd;
use gev_links::OpenGate;
use std::sync::Wait;

const MODE: Mode = Mode::OldestFirst;

/// A block that got no new packet for 200 ms retires, and no packet is asked for again.
const CONFIG: AcqConfig = AcqConfig {
    p: 528,
    window: 1,
    timeout: 200,
    age: 200,
    rounds: 0,
};

/// A reader's turns: numbers are whether its receiver has a clock of its own, the moment at which that begins, and how
/// many turns there are. The turns that heard something, the block that retired at a moment and why, and what waits.
pub fn pace_some<R: Wait>(rt: &HostRuntime, handles: &R, case: &Case<'_>) -> Result<()> {
    if case.number(0) == 1 {
        return pace_by(rt, handles, case, &mut Paced::new(case.number(1)));
    }
    pace_by(rt, handles, case, &mut HostMoments)
}

/// The same, by these moments.
fn pace_by<R: Wait, P: Moments>(
    rt: &HostRuntime,
    handles: &R,
    case: &Case<'_>,
    moments: &mut P,
) -> Result<()> {
    let (board, mut pass) = new_board(rt.alloc())?;
    pace_on(rt, handles, case, &board, &mut pass, moments)
}

/// The same on this board.
fn pace_on<R: Wait, P: Moments>(
    rt: &HostRuntime,
    handles: &R,
    case: &Case<'_>,
    board: &Board,
    pass: &mut Pass,
    moments: &mut P,
) -> Result<()>
    requires table { pass.old.table ≡ board_id board.now }
{
    let mut host = new_host(rt.alloc(), case, Client::new())?;
    pace_over(rt, handles, case.number(2), board, pass, &mut host, moments)?;
    print_all(rt, handles, board, pass)
}

/// The same so many times over these links, up to what waits.
fn pace_over<R: Wait, P: Moments>(
    rt: &HostRuntime,
    handles: &R,
    turns: u64,
    board: &Board,
    pass: &mut Pass,
    host: &mut MemoryHost<'_>,
    moments: &mut P,
) -> Result<()>
    requires table { pass.old.table ≡ board_id board.now }
    ensures table { pass.new.table ≡ pass.old.table }
{
    print!(rt; "{turns} turns")?;
    let mut acq = Acq::new(rt.alloc(), CONFIG)?;
    acq.tell_ends();
    take_turns(rt, handles, turns, board, pass, &mut acq, host, moments)?;
    drain(handles, board, pass, &mut acq, MODE);
    Ok(())
}

/// Takes so many turns.
fn take_turns<R: Wait, P: Moments>(
    rt: &HostRuntime,
    handles: &R,
    turns: u64,
    board: &Board,
    pass: &mut Pass,
    acq: &mut Acq,
    host: &mut MemoryHost<'_>,
    moments: &mut P,
) -> Result<()>
    requires table { pass.old.table ≡ board_id board.now }
    requires fills { waiting_fills acq.old ≡ [] }
    requires requests { waiting_requests acq.old ≡ [] }
    requires backs { Backs pass.old (buffers acq.old) }
    ensures table { pass.new.table ≡ pass.old.table }
    ensures fills { waiting_fills acq.new ≡ [] }
    ensures requests { waiting_requests acq.new ≡ [] }
    ensures backs { Backs pass.new (buffers acq.new) }
{
    for _turn in 0..turns {
        take_turn(rt, handles, board, pass, acq, host, moments)?;
    }
    Ok(())
}

/// Takes a turn, and prints it if it heard something, and the block that retired in it.
fn take_turn<R: Wait, P: Moments>(
    rt: &HostRuntime,
    handles: &R,
    board: &Board,
    pass: &mut Pass,
    acq: &mut Acq,
    host: &mut MemoryHost<'_>,
    moments: &mut P,
) -> Result<()>
    requires table { pass.old.table ≡ board_id board.now }
    requires fills { waiting_fills acq.old ≡ [] }
    requires requests { waiting_requests acq.old ≡ [] }
    requires backs { Backs pass.old (buffers acq.old) }
    ensures table { pass.new.table ≡ pass.old.table }
    ensures fills { waiting_fills acq.new ≡ [] }
    ensures requests { waiting_requests acq.new ≡ [] }
    ensures backs { Backs pass.new (buffers acq.new) }
{
    let mut out = [0; 9000];
    let lent = Lent {
        client: &mut host.client,
        stream: &mut host.stream,
        control: &mut host.control,
        clock: &mut host.clock,
        out: &mut out,
        camera: CAMERA,
    };
    let (turn, end) = turn_once(handles, board, pass, acq, lent, &OpenGate, moments, MODE);
    print_turn(rt, turn, end)?;
    print_ended(rt, acq.next_ended(), turn.moment)
}

/// Prints a turn that heard something, and how it ended.
fn print_turn(rt: &HostRuntime, turn: Turn, end: TurnEnd) -> Result<()> {
    if turn.datagram {
        print!(rt; "\n  {turn:?} {end:?}")?;
    }
    Ok(())
}

/// Prints the block that retired at this moment, and why.
fn print_ended(rt: &HostRuntime, ended: Option<Ended>, moment: u64) -> Result<()> {
    if let Some(ended) = ended {
        print!(rt; "\n  block {} {:?} at {moment}", ended.block, ended.cause)?;
    }
    Ok(())
}
