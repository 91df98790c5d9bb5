//! A board with two buffers, how a buffer is filled, and what waits.

ghost use Rattle.std.specs.Prelude.{◌≡◌, ◌<◌, IfOk};
ghost use Rattle.buffer_words.specs.Boards.{board_id};
ghost use Rattle.buffer_words.specs.Passes.{IsEmptyHanded};
ghost use Rattle.gev_types.specs.Limits.{place_count};

use crate::printing::print_bytes;
use anyhow::{Result, anyhow};
use board_calls::TakeEnd;
use buffer_words::{Board, Pass, Tried};
use gev_types::{Buf, Record};
use live_crew::prepare;
use output_queue::take;
use std::alloc::Global;
use std::sync::Wait;

/// A board whose acquisition runs, with two buffers of 4 bytes in the pool.
pub fn new_board(alloc: Global) -> Result<(Board, Pass)>
    ensures table { IfOk result (λ made. made.1.table ≡ board_id made.0) }
    ensures hands { IfOk result (λ made. IsEmptyHanded made.1) }
{
    let (board, mut pass) = Board::new(alloc)?;
    prepare(alloc, &board, &mut pass, 4, 2)?;
    Ok((board, pass))
}

/// Announces this buffer at a place and fills it.
pub fn fill_new(board: &Board, pass: &mut Pass, place: u8, buf: Buf) -> Result<()>
    requires table { pass.old.table ≡ board_id board.now }
    requires in_range { place < place_count }
    ensures table { pass.new.table ≡ pass.old.table }
{
    let Ok(_) = board.enrol(pass, place, buf) else {
        return Err(anyhow!("not vacant"));
    };
    match board.try_fill(pass, place) {
        Tried::Did(true) => Ok(()),
        _ => Err(anyhow!("not filled")),
    }
}

/// Prints the places in the output.
pub fn print_out(rt: &HostRuntime, board: &Board, pass: &mut Pass) -> Result<()>
    requires table { pass.old.table ≡ board_id board.now }
    ensures table { pass.new.table ≡ pass.old.table }
{
    print!(rt; "\n  out {:?}", board.look_out(pass).0.as_slice())?;
    Ok(())
}

/// Takes the next buffer where one waits, and prints it.
fn print_next<R: Wait>(rt: &HostRuntime, handles: &R, board: &Board, pass: &mut Pass) -> Result<()>
    requires table { pass.old.table ≡ board_id board.now }
    ensures table { pass.new.table ≡ pass.old.table }
{
    match take(handles, board, pass) {
        TakeEnd::Taken(place) => {
            let buf = board.lift(pass, place);
            // (accounts are shown by the rows of frames' lines)
            let record = Record {
                account: None,
                ..buf.rec()
            };
            print!(rt; "\n  taken {place} {record:?} ")?;
            print_bytes(rt, buf.bytes())
        }
        TakeEnd::Empty => Ok(()),
        TakeEnd::Closed => Ok(()),
    }
}

/// Prints the places in the pool and those that wait, takes what waits, and prints that too.
pub fn print_all<R: Wait>(
    rt: &HostRuntime,
    handles: &R,
    board: &Board,
    pass: &mut Pass,
) -> Result<()>
    requires table { pass.old.table ≡ board_id board.now }
{
    print!(rt; "\n  pool {:?}", board.look_pool(pass).as_slice())?;
    print_next(rt, handles, board, pass)?;
    print_next(rt, handles, board, pass)
}
