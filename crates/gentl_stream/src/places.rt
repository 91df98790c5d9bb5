//! The parts of flushes and of close: what is done with each of several places.

ghost use Rattle.std.specs.Prelude.{◌≡◌, ◌<◌};
ghost use Rattle.gev_types.specs.Limits.{place_count};
ghost use Rattle.board_calls.specs.Rounds.{LaysEach, PoolsEach, PoolsIfHeld, PoolsHeld};
ghost use Rattle.buffer_words.specs.Boards.{board_id};
ghost use Rattle.buffer_words.specs.Passes.{SameHands};
ghost use Rattle.buffer_words.specs.Several.{EntersOf};
ghost use Rattle.gentl_stream.specs.Several.{AreWhole, Leaves};

use buffer_words::{Board, Pass};
use gentl_types::State;
use gev_types::PLACES;
use input_pool::put_back;

/// Gives each of these buffers in hand to the application, in order.
pub(crate) fn lay_each(board: &Board, pass: &mut Pass, places: &[u8])
    requires table { pass.old.table ≡ board_id board.now }
    requires holds { AreWhole pass.old places.now }
    ensures entries { EntersOf pass.old (LaysEach places.now) pass.new }
    ensures hands { Leaves places.now pass.old pass.new }
{
    for place in places {
        board.lay(pass, *place);
    }
}

/// Puts each of these buffers in hand into the pool, in order.
pub(crate) fn pool_each(board: &Board, pass: &mut Pass, places: &[u8])
    requires table { pass.old.table ≡ board_id board.now }
    requires holds { AreWhole pass.old places.now }
    ensures entries { EntersOf pass.old (PoolsEach places.now) pass.new }
    ensures hands { Leaves places.now pass.old pass.new }
{
    for place in places {
        put_back(board, pass, *place);
    }
}

/// Looks at a place, and puts its buffer into the pool where the application has it.
fn pool_if_held(board: &Board, pass: &mut Pass, place: u8)
    requires table { pass.old.table ≡ board_id board.now }
    requires in_range { place < place_count }
    ensures entries { EntersOf pass.old (PoolsIfHeld place) pass.new }
    ensures hands { SameHands pass.old pass.new }
{
    let word = board.load(pass, place);
    if word.state != State::Held {
        return;
    }
    match board.grab(pass, place, word.generation) {
        Ok(()) => put_back(board, pass, place),
        Err(_found) => {}
    }
}

/// Puts each buffer that the application has into the pool.
pub(crate) fn pool_held(board: &Board, pass: &mut Pass)
    requires table { pass.old.table ≡ board_id board.now }
    ensures entries { EntersOf pass.old PoolsHeld pass.new }
    ensures hands { SameHands pass.old pass.new }
{
    for place in 0..PLACES {
        pool_if_held(board, pass, place);
    }
}
