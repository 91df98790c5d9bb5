//! The work of the two threads.

ghost use Rattle.std.specs.Prelude.{◌≡◌};
ghost use Rattle.buffer_words.specs.Boards.{board_id};
ghost use Rattle.buffer_words.specs.Passes.{IsEmptyHanded};
ghost use Rattle.buffer_words.specs.Workers.{Works};
ghost use Rattle.gentl_events.specs.Kinds.{is_fillers, is_takers};

use crate::event_get;
use buffer_words::{Board, Pass};
use gentl_stream::ds_return;
use gev_links::{Clock, OpenGate};
use input_pool::claim;
use output_queue::{FillEnd, fill};
use std::sync::Wait;
use std::thread;
use std::thread::Threads;

/// Claims a buffer and fills it as it is: whether there was one.
pub(crate) fn fill_one<R: Wait>(rt: &R, board: &Board, pass: &mut Pass) -> bool
    requires table { pass.old.table ≡ board_id board.now }
    requires empty { IsEmptyHanded pass.old }
    ensures works { Works is_fillers pass.old pass.new }
    ensures empty { IsEmptyHanded pass.new }
{
    let Some(place) = claim(rt, board, pass) else {
        return false;
    };
    let buf = board.lift(pass, place);
    match fill(rt, board, pass, place, buf) {
        FillEnd::Filled => {}
        FillEnd::Closed(back) => {
            board.set_down(pass, place, back);
            board.lay(pass, place);
        }
    }
    true
}

/// Fills buffers until the pool is empty.
fn fill_all<R: Wait>(rt: &R, board: &Board, mut pass: Pass) -> Pass
    requires table { pass.table ≡ board_id board.now }
    requires empty { IsEmptyHanded pass }
    ensures works { Works is_fillers pass result }
    ensures empty { IsEmptyHanded result }
{
    'fills: for _ in rt.forever() {
        if !fill_one(rt, board, &mut pass) {
            return pass;
        }
    }
    unreachable!()
}

/// Waits for a buffer and returns it: whether one came.
fn take_one<R: Wait, C: Clock>(
    rt: &R,
    board: &Board,
    pass: &mut Pass,
    clock: &mut C,
    timeout: u64,
) -> bool
    requires table { pass.old.table ≡ board_id board.now }
    requires empty { IsEmptyHanded pass.old }
    ensures works { Works is_takers pass.old pass.new }
    ensures empty { IsEmptyHanded pass.new }
{
    match event_get(rt, board, pass, clock, &OpenGate, timeout) {
        Ok(loan) => {
            ds_return(board, pass, loan);
            true
        }
        Err(_) => false,
    }
}

/// Takes buffers until none comes in time.
fn take_all<R: Wait, C: Clock + Drop>(
    rt: &R,
    board: &Board,
    mut pass: Pass,
    mut clock: C,
    timeout: u64,
) -> Pass
    requires table { pass.table ≡ board_id board.now }
    requires empty { IsEmptyHanded pass }
    ensures works { Works is_takers pass result }
    ensures empty { IsEmptyHanded result }
{
    'takes: for _ in rt.forever() {
        if !take_one(rt, board, &mut pass, &mut clock, timeout) {
            return pass;
        }
    }
    unreachable!()
}

/// One thread fills and the other takes.
pub(crate) fn work_both<R: Threads + Wait + Sync, C: Clock + Send + Drop>(
    rt: &R,
    board: &Board,
    filler: Pass,
    taker: Pass,
    clock: C,
    timeout: u64,
) -> (Pass, Pass)
    requires tables { (filler.table ≡ board_id board.now) × (taker.table ≡ board_id board.now) }
    requires empty { IsEmptyHanded filler × IsEmptyHanded taker }
    ensures filled { Works is_fillers filler result.0 × IsEmptyHanded result.0 }
    ensures taken { Works is_takers taker result.1 × IsEmptyHanded result.1 }
{
    thread::join(
        rt,
        move || -> Pass
            requires { (filler.table ≡ board_id board.now) × IsEmptyHanded filler }
            ensures { Works is_fillers filler result × IsEmptyHanded result }
        { fill_all(rt, board, filler) },
        move || -> Pass
            requires { (taker.table ≡ board_id board.now) × IsEmptyHanded taker }
            ensures { Works is_takers taker result × IsEmptyHanded result }
        { take_all(rt, board, taker, clock, timeout) },
    )
}
