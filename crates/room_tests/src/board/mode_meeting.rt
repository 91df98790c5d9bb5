//! One thread fills blocks with NewestOnly and one takes: each image is taken, dropped or left once.

ghost use Rattle.std.specs.Prelude.{◌≡◌};
ghost use Rattle.buffer_words.specs.Boards.{board_id};
ghost use Rattle.buffer_words.specs.Passes.{IsEmptyHanded};

use super::meeting::{Did, Met, Part, meet, wait_for};
use buffer_words::{Board, Pass};
use gev_types::Record;
use input_pool::put_back;
use output_queue::{FillEnd, TakeEnd, take};
use shared_modes::{Mode, claim_for, fill_for};
use std::sync::Wait;
use std::test::Fail;
use std::time::Clock;

/// How often two threads meet, and how many blocks are filled each time.
const ROUNDS: u32 = 2000;

const BLOCKS: u64 = 20;

/// How often the application looks at most whether the acquisition has stopped.
const TAKES: u32 = 10_000_000;

/// Claims a buffer for a block, and fills it.
fn fill_block<R: Wait>(rt: &R, board: &Board, pass: &mut Pass, block: u64, did: &mut Did)
    requires table { pass.old.table ≡ board_id board.now }
    requires empty { IsEmptyHanded pass.old }
    ensures table { pass.new.table ≡ pass.old.table }
    ensures empty { IsEmptyHanded pass.new }
{
    let mode = Mode::NewestOnly;
    let Some((place, was_dropped)) = claim_for(rt, board, pass, mode) else {
        return;
    };
    let mut buf = board.lift(pass, place);
    buf.set_rec(Record {
        block,
        complete: false,
        larger: false,
        has_leader: false,
        data_len: 0,
        filled: 0,
        image: None,
        account: None,
    });
    let (end, dropped) = fill_for(rt, board, pass, mode, place, buf);
    match end {
        FillEnd::Filled => {
            did.moved = did.moved.saturating_add(1);
            let all = dropped.saturating_add(u8::from(was_dropped));
            did.dropped = did.dropped.saturating_add(u64::from(all));
        }
        FillEnd::Closed(back) => {
            board.set_down(pass, place, back);
            board.lay(pass, place);
        }
    }
}

/// The acquisition's part: once the application is there it fills a buffer for each block, and then stops.
pub(crate) fn fill_newest<R: Wait + Clock>(rt: &R, board: &Board, pass: &mut Pass, did: &mut Did)
    requires table { pass.old.table ≡ board_id board.now }
    requires empty { IsEmptyHanded pass.old }
    ensures table { pass.new.table ≡ pass.old.table }
    ensures empty { IsEmptyHanded pass.new }
{
    did.well = wait_for(rt, board, pass, 1);
    for block in 1..=BLOCKS {
        fill_block(rt, board, pass, block, did);
    }
    let _ = board.stop(pass, true);
}

/// Takes a buffer and puts it into the pool again: its block.
fn take_block<R: Wait>(rt: &R, board: &Board, pass: &mut Pass) -> Option<u64>
    requires table { pass.old.table ≡ board_id board.now }
    requires empty { IsEmptyHanded pass.old }
    ensures table { pass.new.table ≡ pass.old.table }
    ensures empty { IsEmptyHanded pass.new }
{
    let TakeEnd::Taken(place) = take(rt, board, pass) else {
        return None;
    };
    let buf = board.lift(pass, place);
    let block = buf.rec().block;
    board.set_down(pass, place, buf);
    put_back(board, pass, place);
    Some(block)
}

/// The application's part: it starts the acquisition, and takes until that has stopped. All is well where each
/// block is above the one before it.
pub(crate) fn take_until_stopped<R: Wait>(rt: &R, board: &Board, pass: &mut Pass, did: &mut Did)
    requires table { pass.old.table ≡ board_id board.now }
    requires empty { IsEmptyHanded pass.old }
    ensures table { pass.new.table ≡ pass.old.table }
    ensures empty { IsEmptyHanded pass.new }
{
    let mut last = 0u64;
    let _ = board.start(pass);
    'takes: for _ in 0..TAKES {
        if board.look_run(pass) == 2 {
            return;
        }
        if let Some(block) = take_block(rt, board, pass) {
            did.well = did.well && block > last;
            last = block;
            did.moved = did.moved.saturating_add(1);
        }
    }
}

/// Whether both threads were in time, and what was taken, dropped and left is what was filled.
fn is_well(met: &Met) -> bool {
    let out = met.second.moved.saturating_add(met.first.dropped);
    let all = out.saturating_add(met.output.len() as u64);
    met.first.well && met.second.well && all == met.first.moved
}

// Thousands of times two threads begin at once: what was taken, what was dropped and what is left at the end is
// what was filled. How many images are taken and how many dropped hangs on the schedule: it's counted and told.
#[test]
fn the_newest_is_taken_or_dropped(rt: HostRuntime) -> Result<(), Fail> {
    let mut taken = 0u64;
    let mut dropped = 0u64;
    for _ in 0..ROUNDS {
        let parts = (Part::FillNewest, Part::TakeUntilStopped, Part::Nothing);
        let met = meet(&rt, rt.alloc(), 3, true, parts)?;
        assert!(rt; is_well(&met));
        taken = taken.saturating_add(met.second.moved);
        dropped = dropped.saturating_add(met.first.dropped);
    }
    println!(&rt; "{ROUNDS} rounds of {BLOCKS} blocks: taken {taken}, dropped {dropped}")?;
    Ok(())
}
