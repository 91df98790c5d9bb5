//! One thread fills, one takes and one closes: what comes out is what was put in, in order.

ghost use Rattle.std.specs.Prelude.{◌≡◌, ◌<◌};
ghost use Rattle.gev_types.specs.Limits.{place_count};
ghost use Rattle.buffer_words.specs.Boards.{board_id};
ghost use Rattle.buffer_words.specs.Passes.{IsEmptyHanded};

use super::meeting::{Did, Met, Part, meet, wait_for};
use buffer_words::{Board, Pass, Tried};
use output_queue::{FillEnd, TakeEnd, close, fill, take, waiting};
use std::sync::Wait;
use std::test::Fail;
use std::time::Clock;

/// How often three threads meet.
const ROUNDS: u32 = 600;

/// Fills the buffer of a place, which the application has. Where the stream was closed the application has it
/// again.
fn fill_held<R: Wait>(rt: &R, board: &Board, pass: &mut Pass, place: u8) -> bool
    requires table { pass.old.table ≡ board_id board.now }
    requires in_range { place < place_count }
    requires empty { IsEmptyHanded pass.old }
    ensures table { pass.new.table ≡ pass.old.table }
    ensures empty { IsEmptyHanded pass.new }
{
    let Ok(()) = board.grab(pass, place, 1) else {
        return false;
    };
    let buf = board.lift(pass, place);
    match fill(rt, board, pass, place, buf) {
        FillEnd::Filled => true,
        FillEnd::Closed(back) => {
            board.set_down(pass, place, back);
            board.lay(pass, place);
            false
        }
    }
}

/// Tries to fill the buffer of a place, which the application has, and fills it where that try was lost: whether
/// it's in the output now.
fn try_held<R: Wait>(rt: &R, board: &Board, pass: &mut Pass, place: u8, did: &mut Did) -> bool
    requires table { pass.old.table ≡ board_id board.now }
    requires in_range { place < place_count }
    requires empty { IsEmptyHanded pass.old }
    ensures table { pass.new.table ≡ pass.old.table }
    ensures empty { IsEmptyHanded pass.new }
{
    let Ok(()) = board.grab(pass, place, 1) else {
        return false;
    };
    match board.try_fill(pass, place) {
        Tried::Did(true) => true,
        Tried::Did(false) => {
            board.lay(pass, place);
            false
        }
        Tried::Lost { .. } => {
            board.lay(pass, place);
            did.lost = did.lost.saturating_add(1);
            fill_held(rt, board, pass, place)
        }
    }
}

/// The filler's part: once the taker is there it stops the acquisition, which lets all three begin, and tries to
/// fill the buffer of each place.
pub(crate) fn fill_each<R: Wait + Clock>(rt: &R, board: &Board, pass: &mut Pass, did: &mut Did)
    requires table { pass.old.table ≡ board_id board.now }
    requires empty { IsEmptyHanded pass.old }
    ensures table { pass.new.table ≡ pass.old.table }
    ensures empty { IsEmptyHanded pass.new }
{
    did.well = wait_for(rt, board, pass, 1);
    let _ = board.stop(pass, true);
    for place in 0..15u8 {
        if try_held(rt, board, pass, place, did) {
            let _ = did.places.try_push(place);
        }
    }
}

/// Takes a buffer, which the application has then.
fn take_again<R: Wait>(rt: &R, board: &Board, pass: &mut Pass, did: &mut Did)
    requires table { pass.old.table ≡ board_id board.now }
    requires empty { IsEmptyHanded pass.old }
    ensures table { pass.new.table ≡ pass.old.table }
    ensures empty { IsEmptyHanded pass.new }
{
    match take(rt, board, pass) {
        TakeEnd::Taken(place) => {
            board.lay(pass, place);
            let _ = did.places.try_push(place);
        }
        TakeEnd::Empty => {}
        TakeEnd::Closed => {}
    }
}

/// Tries to take a buffer, which the application has then, and takes one where that try was lost: whether the
/// stream is open.
fn take_one<R: Wait>(rt: &R, board: &Board, pass: &mut Pass, did: &mut Did) -> bool
    requires table { pass.old.table ≡ board_id board.now }
    requires empty { IsEmptyHanded pass.old }
    ensures table { pass.new.table ≡ pass.old.table }
    ensures empty { IsEmptyHanded pass.new }
{
    match board.try_take(pass) {
        Tried::Did(TakeEnd::Taken(place)) => {
            board.lay(pass, place);
            let _ = did.places.try_push(place);
            true
        }
        Tried::Did(TakeEnd::Empty) => {
            did.empty = did.empty.saturating_add(1);
            true
        }
        Tried::Did(TakeEnd::Closed) => false,
        Tried::Lost { .. } => {
            did.lost = did.lost.saturating_add(1);
            take_again(rt, board, pass, did);
            true
        }
    }
}

/// The taker's part: it tries to take, starts the acquisition to tell that it's there, and once that is stopped it
/// tries until the stream is closed.
///
/// Nobody has filled a buffer when it tries first, since the filler waits for the start: so this try is sure to
/// find the output empty.
pub(crate) fn take_until_closed<R: Wait + Clock>(
    rt: &R,
    board: &Board,
    pass: &mut Pass,
    did: &mut Did,
)
    requires table { pass.old.table ≡ board_id board.now }
    requires empty { IsEmptyHanded pass.old }
    ensures table { pass.new.table ≡ pass.old.table }
    ensures empty { IsEmptyHanded pass.new }
{
    take_one(rt, board, pass, did);
    let _ = board.start(pass);
    did.well = wait_for(rt, board, pass, 2);
    'takes: for _ in rt.forever() {
        if !take_one(rt, board, pass, did) {
            return;
        }
    }
}

/// The closer's part: once all have begun it looks so many times, and closes.
pub(crate) fn close_late<R: Wait + Clock>(
    rt: &R,
    board: &Board,
    pass: &mut Pass,
    looks: u32,
    did: &mut Did,
)
    requires table { pass.old.table ≡ board_id board.now }
    requires empty { IsEmptyHanded pass.old }
    ensures table { pass.new.table ≡ pass.old.table }
    ensures empty { IsEmptyHanded pass.new }
{
    did.well = wait_for(rt, board, pass, 2);
    'looks: for _ in 0..looks {
        waiting(board, pass);
    }
    close(board, pass);
}

/// Whether the places that were taken, and behind them those that were left, are the ones that were filled, in
/// order.
fn came_out(met: &Met) -> bool {
    let filled = met.first.places.as_slice();
    let taken = met.second.places.as_slice();
    match filled.strip_prefix(taken) {
        Some(others) => others == met.output.as_slice(),
        None => false,
    }
}

/// Whether all threads were in time, the first take found nothing, and what was filled came out of a stream that
/// is closed.
fn is_well(met: &Met) -> bool {
    let in_time = met.first.well && met.second.well && met.third.well;
    in_time && met.second.empty >= 1 && met.closed && came_out(met)
}

// Hundreds of times three threads begin at once, and the stream is closed after 0 to 29 looks. Each taker tries
// once before anybody fills, and finds nothing. That a fill or a take is lost, or that the close comes between two
// fills, hangs on the schedule: it's counted and told.
#[test]
fn fill_take_close(rt: HostRuntime) -> Result<(), Fail> {
    let mut lost = 0u64;
    let mut cut = 0u64;
    for round in 0..ROUNDS {
        let parts = (
            Part::FillEach,
            Part::TakeUntilClosed,
            Part::Close(round % 30),
        );
        let met = meet(&rt, rt.alloc(), 15, false, parts)?;
        assert!(rt; is_well(&met));
        lost = lost.saturating_add(met.lost());
        cut = cut.saturating_add(u64::from(met.first.places.len() < 15));
    }
    println!(&rt; "{ROUNDS} rounds: lost tries {lost}, rounds with a late fill {cut}")?;
    Ok(())
}
