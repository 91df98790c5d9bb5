//! Two threads queue and claim on one board: each buffer is claimed once, or is in the pool.

ghost use Rattle.std.specs.Prelude.{◌≡◌, ◌≤◌};
ghost use Rattle.gev_types.specs.Limits.{place_count};
ghost use Rattle.buffer_words.specs.Boards.{board_id};
ghost use Rattle.buffer_words.specs.Passes.{IsEmptyHanded};

use super::meeting::{Did, Met, Part, meet, wait_for};
use buffer_words::{Board, Pass, Tried};
use input_pool::{claim, queue};
use std::sync::Wait;
use std::test::Fail;
use std::time::Clock;

/// How often two threads meet.
const ROUNDS: u32 = 2000;

/// Tries to claim the pool's lowest place, and claims it where that try was lost: whether there was one. The
/// application has the buffer then.
fn claim_one<R: Wait>(rt: &R, board: &Board, pass: &mut Pass, did: &mut Did) -> bool
    requires table { pass.old.table ≡ board_id board.now }
    requires empty { IsEmptyHanded pass.old }
    ensures table { pass.new.table ≡ pass.old.table }
    ensures empty { IsEmptyHanded pass.new }
{
    match board.try_claim(pass) {
        Tried::Did(Some(place)) => {
            board.lay(pass, place);
            let _ = did.places.try_push(place);
            true
        }
        Tried::Did(None) => false,
        Tried::Lost { .. } => {
            did.lost = did.lost.saturating_add(1);
            claim_again(rt, board, pass, did)
        }
    }
}

fn claim_again<R: Wait>(rt: &R, board: &Board, pass: &mut Pass, did: &mut Did) -> bool
    requires table { pass.old.table ≡ board_id board.now }
    requires empty { IsEmptyHanded pass.old }
    ensures table { pass.new.table ≡ pass.old.table }
    ensures empty { IsEmptyHanded pass.new }
{
    let Some(place) = claim(rt, board, pass) else {
        return false;
    };
    board.lay(pass, place);
    let _ = did.places.try_push(place);
    true
}

/// Queues the places from `first` up to `end`, and claims until the pool is empty. A refusal shows in the
/// counts at the end.
fn queue_and_claim<R: Wait>(
    rt: &R,
    board: &Board,
    pass: &mut Pass,
    first: u8,
    end: u8,
    did: &mut Did,
)
    requires table { pass.old.table ≡ board_id board.now }
    requires empty { IsEmptyHanded pass.old }
    requires in_range { end ≤ place_count }
    ensures table { pass.new.table ≡ pass.old.table }
    ensures empty { IsEmptyHanded pass.new }
{
    for place in first..end {
        let _ = queue(board, pass, place, 1);
    }
    'claims: for _ in rt.forever() {
        if !claim_one(rt, board, pass, did) {
            return;
        }
    }
}

/// The one thread's part: it starts the acquisition to tell that it's there, and once that is stopped it queues
/// its places and claims until the pool is empty.
pub(crate) fn queue_low<R: Wait + Clock>(rt: &R, board: &Board, pass: &mut Pass, did: &mut Did)
    requires table { pass.old.table ≡ board_id board.now }
    requires empty { IsEmptyHanded pass.old }
    ensures table { pass.new.table ≡ pass.old.table }
    ensures empty { IsEmptyHanded pass.new }
{
    let _ = board.start(pass);
    did.well = wait_for(rt, board, pass, 2);
    queue_and_claim(rt, board, pass, 0, 8, did);
}

/// The other thread's part: once the first one is there it claims once, stops the acquisition, which lets both
/// begin, queues its places and claims until the pool is empty.
///
/// Nobody has queued a buffer when it claims first, since the first thread waits for the stop: so this try is
/// sure to find the pool empty.
pub(crate) fn queue_high<R: Wait + Clock>(rt: &R, board: &Board, pass: &mut Pass, did: &mut Did)
    requires table { pass.old.table ≡ board_id board.now }
    requires empty { IsEmptyHanded pass.old }
    ensures table { pass.new.table ≡ pass.old.table }
    ensures empty { IsEmptyHanded pass.new }
{
    did.well = wait_for(rt, board, pass, 1);
    if !claim_one(rt, board, pass, did) {
        did.empty = 1;
    }
    let _ = board.stop(pass, true);
    queue_and_claim(rt, board, pass, 8, 15, did);
}

/// How often a place stands among these.
fn times(place: u8, places: &[u8]) -> usize {
    places.iter().filter(|other| **other == place).count()
}

/// Whether each place was claimed once, or is in the pool.
fn are_all_there(met: &Met) -> bool {
    for place in 0..15u8 {
        let low = times(place, met.first.places.as_slice());
        let high = times(place, met.second.places.as_slice());
        let left = times(place, met.pool.as_slice());
        if low.saturating_add(high).saturating_add(left) != 1 {
            return false;
        }
    }
    true
}

/// Whether both threads were in time, the first claim found nothing, and each place is there once.
fn is_well(met: &Met) -> bool {
    met.first.well && met.second.well && met.second.empty == 1 && are_all_there(met)
}

// Thousands of times two threads begin at once. That a claim is lost hangs on the schedule: it's counted and
// told.
#[test]
fn pool_two_threads(rt: HostRuntime) -> Result<(), Fail> {
    let mut lost = 0u64;
    for _ in 0..ROUNDS {
        let parts = (Part::QueueLow, Part::QueueHigh, Part::Nothing);
        let met = meet(&rt, rt.alloc(), 15, false, parts)?;
        assert!(rt; is_well(&met));
        lost = lost.saturating_add(met.lost());
    }
    println!(&rt; "{ROUNDS} rounds: lost claims {lost}")?;
    Ok(())
}
