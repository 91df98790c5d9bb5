//! The reader as a worker of its own: the setup, three turns, and the stop.

ghost use Rattle.std.specs.Prelude.{◌≡◌, ◌≤◌, ◌+◌, [], IfOk, vec_len, vec_capacity};
ghost use Rattle.acq_core.specs.Receiver.{buffers, Stands};
ghost use Rattle.acq_core.specs.Waiting.{waiting_fills, waiting_requests};
ghost use Rattle.buffer_words.specs.Boards.{board_id};
ghost use Rattle.buffer_words.specs.Passes.{IsEmptyHanded};

use crate::board::{new_board, print_all};
use crate::case::Case;
use crate::links::{CAMERA, STREAM, new_host};
use crate::printing::print_sent;
use crate::workers::receivers::WIDE;
use acq_core::Acq;
use anyhow::Result;
use board_calls::Mode;
use buffer_words::{Board, Pass};
use control_client::Client;
use gev_acq::{Acquired, Reader, read};
use gev_links::{MemoryClock, MemoryLink, OpenGate};
use live_crew::Worked;
use std::alloc::Global;
use std::sync::Wait;

/// A reader over links in memory.
type MemoryReader<'x> = Reader<MemoryLink<'x>, MemoryLink<'x>, MemoryClock<'x>>;

/// What such a reader gives back.
type MemoryAcquired<'x> = Acquired<MemoryLink<'x>, MemoryLink<'x>, MemoryClock<'x>>;

/// Its end, how many turns its journal has, what it sent, whether the acquisition runs then, and what waits.
pub fn read_some<R: Wait>(rt: &HostRuntime, handles: &R, case: &Case<'_>) -> Result<()> {
    let (board, pass) = new_board(rt.alloc())?;
    read_over(rt, handles, case, &board, pass)
}

/// The same, on this board.
fn read_over<R: Wait>(
    rt: &HostRuntime,
    handles: &R,
    case: &Case<'_>,
    board: &Board,
    pass: Pass,
) -> Result<()>
    requires table { pass.table ≡ board_id board.now }
    requires hands { IsEmptyHanded pass }
{
    let reader = new_reader(rt.alloc(), case, Client::new())?;
    let Worked { mut pass, done } = read(handles, board, pass, &OpenGate, reader);
    print_done(rt, handles, board, &mut pass, &done)
}

/// A reader with this client that makes three turns at most.
fn new_reader<'x>(alloc: Global, case: &Case<'x>, client: Client) -> Result<MemoryReader<'x>>
    ensures new { IfOk result (λ reader. Stands reader.acq []) }
    ensures client { IfOk result (λ reader. reader.host.client ≡ client) }
    ensures fills { IfOk result (λ reader. waiting_fills reader.acq ≡ []) }
    ensures requests { IfOk result (λ reader. waiting_requests reader.acq ≡ []) }
    ensures buffers { IfOk result (λ reader. buffers reader.acq ≡ []) }
    ensures room { IfOk result (λ reader. vec_len reader.journal + reader.turns ≤ vec_capacity reader.journal) }
{
    let journal = Vec::with_capacity(alloc, 3)?;
    let host = new_host(alloc, case, client)?;
    Ok(Reader {
        acq: Acq::new(alloc, WIDE)?,
        host,
        camera: CAMERA,
        own: STREAM,
        journal,
        turns: 3,
        mode: Mode::OldestFirst,
    })
}

/// Prints how the reader ended, and what waits.
fn print_done<R: Wait>(
    rt: &HostRuntime,
    handles: &R,
    board: &Board,
    pass: &mut Pass,
    done: &MemoryAcquired<'_>,
) -> Result<()>
    requires table { pass.old.table ≡ board_id board.now }
{
    let runs = board.look_run(pass) == 1;
    print!(rt; "{:?} turns {} runs {runs}", done.end, done.journal.len())?;
    print_sent(rt, &done.host.control)?;
    print_all(rt, handles, board, pass)
}
