//! One thread fills what is queued and one waits for buffers and returns them, by the public calls: each buffer
//! is filled once and taken once.

ghost use Rattle.std.specs.Prelude.{◌≡◌};
ghost use Rattle.buffer_words.specs.Boards.{board_id};
ghost use Rattle.buffer_words.specs.Passes.{IsEmptyHanded};

use super::meeting::{Did, Met, Part, meet, wait_for};
use buffer_words::{Board, Pass};
use gentl_events::event_get;
use gentl_stream::ds_return;
use gev_links::{MemoryClock, OpenGate};
use input_pool::claim;
use output_queue::{FillEnd, fill};
use std::sync::Wait;
use std::test::Fail;
use std::time::Clock;

/// How often the two threads meet.
const ROUNDS: u32 = 2000;

/// How many buffers are queued.
const QUEUED: u8 = 15;

/// How often the taker tries at most.
const TAKES: u32 = 10_000_000;

/// Claims a buffer and fills it as it is: whether there was one.
fn fill_one<R: Wait>(rt: &R, board: &Board, pass: &mut Pass) -> bool
    requires table { pass.old.table ≡ board_id board.now }
    requires empty { IsEmptyHanded pass.old }
    ensures table { pass.new.table ≡ pass.old.table }
    ensures empty { IsEmptyHanded pass.new }
{
    let Some(place) = claim(rt, board, pass) else {
        return false;
    };
    let buf = board.lift(pass, place);
    match fill(rt, board, pass, place, buf) {
        FillEnd::Filled => {}
        FillEnd::Closed(back) => {
            board.set_down(pass, place, back);
            board.lay(pass, place);
        }
    }
    true
}

/// The filler's part: once the taker is there it stops the acquisition, which lets both begin, and fills what the
/// pool has.
pub(crate) fn fill_pool<R: Wait + Clock>(rt: &R, board: &Board, pass: &mut Pass, did: &mut Did)
    requires table { pass.old.table ≡ board_id board.now }
    requires empty { IsEmptyHanded pass.old }
    ensures table { pass.new.table ≡ pass.old.table }
    ensures empty { IsEmptyHanded pass.new }
{
    did.well = wait_for(rt, board, pass, 1);
    let _ = board.stop(pass, true);
    'fills: for _ in rt.forever() {
        if !fill_one(rt, board, pass) {
            return;
        }
        did.moved = did.moved.saturating_add(1);
    }
}

/// Takes a buffer if one waits, and returns it.
fn take_one<R: Wait>(rt: &R, board: &Board, pass: &mut Pass, did: &mut Did)
    requires table { pass.old.table ≡ board_id board.now }
    requires empty { IsEmptyHanded pass.old }
    ensures table { pass.new.table ≡ pass.old.table }
    ensures empty { IsEmptyHanded pass.new }
{
    let mut clock = MemoryClock::new(&[]);
    match event_get(rt, board, pass, &mut clock, &OpenGate, 0) {
        Ok(loan) => {
            ds_return(board, pass, loan);
            did.moved = did.moved.saturating_add(1);
        }
        Err(_) => did.empty = did.empty.saturating_add(1),
    }
}

/// The taker's part: it tries to take, starts the acquisition to tell that it's there, and once that is stopped it
/// takes until it has all that were queued.
///
/// Nobody has filled a buffer when it tries first, since the filler waits for the start: so this try is sure to
/// find nothing.
pub(crate) fn take_queued<R: Wait + Clock>(rt: &R, board: &Board, pass: &mut Pass, did: &mut Did)
    requires table { pass.old.table ≡ board_id board.now }
    requires empty { IsEmptyHanded pass.old }
    ensures table { pass.new.table ≡ pass.old.table }
    ensures empty { IsEmptyHanded pass.new }
{
    take_one(rt, board, pass, did);
    let _ = board.start(pass);
    did.well = wait_for(rt, board, pass, 2);
    'takes: for _ in 0..TAKES {
        if did.moved == u64::from(QUEUED) {
            return;
        }
        take_one(rt, board, pass, did);
    }
}

/// Whether both threads were in time, the first take found nothing, and each buffer was filled and taken.
fn is_well(met: &Met) -> bool {
    let in_time = met.first.well && met.second.well && met.second.empty >= 1;
    let moved = met.first.moved == 15 && met.second.moved == 15;
    in_time && moved && met.pool.is_empty() && met.output.is_empty()
}

// Some thousand times two threads begin at once. The taker tries once before anybody fills, and finds nothing. How
// many more of its tries find nothing hangs on the schedule: they're counted and told.
#[test]
fn two_threads_meet_on_a_board(rt: HostRuntime) -> Result<(), Fail> {
    let mut empty = 0u64;
    for _ in 0..ROUNDS {
        let parts = (Part::FillPool, Part::TakeQueued, Part::Nothing);
        let met = meet(&rt, rt.alloc(), QUEUED, true, parts)?;
        assert!(rt; is_well(&met));
        empty = empty.saturating_add(met.second.empty);
    }
    println!(&rt; "{ROUNDS} rounds: takes of nothing {empty}")?;
    Ok(())
}
