//! The application's turns.

ghost use Rattle.std.specs.Prelude.{◌≡◌};
ghost use Rattle.buffer_words.specs.Boards.{board_id};

use crate::board::fill_new;
use crate::case::Case;
use crate::printing::print_text;
use anyhow::{Result, anyhow};
use buffer_words::{Board, Pass};
use gev_apply::apply;
use gev_links::{Clock, MeetingGate, MemoryClock};
use gev_types::{Buf, Record};
use std::alloc::Global;
use std::sync::Wait;

/// A buffer of three bytes with the whole image `abc` of block 7.
fn whole(alloc: Global) -> Result<Buf> {
    let mut buf = Buf::new(alloc, 3)?;
    make_whole(&mut buf)?;
    Ok(buf)
}

/// Puts the image into a buffer of three bytes.
fn make_whole(buf: &mut Buf) -> Result<()> {
    buf.put(0, b"abc");
    if buf.bytes().len() != 3 {
        return Err(anyhow!("another size"));
    }
    buf.set_rec(Record {
        block: 7,
        complete: true,
        larger: false,
        has_leader: true,
        data_len: 3,
        filled: 3,
        image: None,
        account: None,
    });
    Ok(())
}

/// Fills the first place with the image, and the second one with a buffer of 2 bytes if the second number is 2.
fn fill_some(alloc: Global, case: &Case<'_>, board: &Board, pass: &mut Pass) -> Result<()>
    requires table { pass.old.table ≡ board_id board.now }
    ensures table { pass.new.table ≡ pass.old.table }
{
    fill_new(board, pass, 0, whole(alloc)?)?;
    if case.number(1) == 2 {
        fill_new(board, pass, 1, Buf::new(alloc, 2)?)?;
    }
    Ok(())
}

/// The application where the acquisition runs or not, where one buffer waits or a second one of 2 bytes too, and so many
/// are asked for: how many it took, the moment that is read next, how often the gate was passed, the places in the pool,
/// and the lines.
pub fn apply_some<R: Wait>(rt: &HostRuntime, handles: &R, case: &Case<'_>) -> Result<()> {
    let (board, mut pass) = Board::new(rt.alloc())?;
    if case.number(0) == 1 {
        let _ = board.start(&mut pass);
    }
    apply_on(rt, handles, case, &board, &mut pass)
}

/// The same on this board.
fn apply_on<R: Wait>(
    rt: &HostRuntime,
    handles: &R,
    case: &Case<'_>,
    board: &Board,
    pass: &mut Pass,
) -> Result<()>
    requires table { pass.old.table ≡ board_id board.now }
{
    fill_some(rt.alloc(), case, board, pass)?;
    let mut out = Vec::new(rt.alloc());
    apply_over(rt, handles, case, board, pass, &mut out)?;
    print_text(rt, out.as_slice())
}

/// The same, with the lines to be printed.
fn apply_over<R: Wait>(
    rt: &HostRuntime,
    handles: &R,
    case: &Case<'_>,
    board: &Board,
    pass: &mut Pass,
    out: &mut Vec<u8>,
) -> Result<()>
    requires table { pass.old.table ≡ board_id board.now }
{
    let mut clock = MemoryClock::new(case.moments);
    let gate = MeetingGate::new(1);
    let frames = case.small(2);
    let alloc = rt.alloc();
    let taken = apply(handles, alloc, board, pass, &mut clock, &gate, frames, out)?;
    print!(rt; "{taken} next {} takes {}", clock.now(), gate.takes())?;
    print!(rt; " pool {:?}", board.look_pool(pass).as_slice())?;
    Ok(())
}
