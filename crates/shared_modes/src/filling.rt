ghost use Rattle.std.specs.Prelude.{◌≡◌, length};
ghost use Rattle.board_calls.specs.Ends.{IfClosed, is_filled};
ghost use Rattle.board_model.specs.Steps.{DropsOne, Drops};
ghost use Rattle.buffer_words.specs.Boards.{board_id};
ghost use Rattle.buffer_words.specs.Handing.{AfterFill};
ghost use Rattle.buffer_words.specs.Passes.{IsLifted, SameHands, size_at};
ghost use Rattle.buffer_words.specs.Several.{EntersOf};
ghost use Rattle.board_calls.specs.Modes.{FillsDropping};

use board_calls::Mode;
use buffer_words::{Board, Pass};
use gev_types::{Buf, PLACES};
use input_pool::put_back;
use output_queue::{FillEnd, TakeEnd, fill, take};
use std::sync::Wait;

/// Drops the buffer that waits longest, if one waits, and tells whether one did.
fn drop_waiting<R: Wait>(rt: &R, board: &Board, pass: &mut Pass) -> bool
    requires table { pass.old.table ≡ board_id board.now }
    ensures enters { EntersOf pass.old (DropsOne result) pass.new }
    ensures hands { SameHands pass.old pass.new }
{
    match take(rt, board, pass) {
        TakeEnd::Taken(place) => {
            put_back(board, pass, place);
            true
        }
        TakeEnd::Empty => false,
        TakeEnd::Closed => false,
    }
}

/// Drops buffers that wait, oldest first, until none waits or as many were dropped as there are places, and tells how
/// many.
fn drop_all_waiting<R: Wait>(rt: &R, board: &Board, pass: &mut Pass) -> u8
    requires table { pass.old.table ≡ board_id board.now }
    ensures enters { EntersOf pass.old (Drops Mode.NewestOnly result) pass.new }
    ensures hands { SameHands pass.old pass.new }
{
    for dropped in 0..PLACES {
        if !drop_waiting(rt, board, pass) {
            return dropped;
        }
    }
    PLACES
}

/// Drops what the mode drops before a fill, and tells how many.
fn drop_before_fill<R: Wait>(rt: &R, board: &Board, pass: &mut Pass, mode: Mode) -> u8
    requires table { pass.old.table ≡ board_id board.now }
    ensures enters { EntersOf pass.old (Drops mode result) pass.new }
    ensures hands { SameHands pass.old pass.new }
{
    match mode {
        Mode::OldestFirst => 0,
        Mode::OldestFirstOverwrite => 0,
        Mode::NewestOnly => drop_all_waiting(rt, board, pass),
    }
}

/// Puts a block's buffer, which was lifted from a place in hand, at the end of the output. With
/// NewestOnly buffers that wait are dropped before, oldest first, and put into the input pool, until none
/// waits or as many were dropped as there are places. Where the close mark stands the buffer comes back, and
/// its place stays in hand, lifted. The number is that of the dropped buffers.
pub fn fill_for<R: Wait>(
    rt: &R,
    board: &Board,
    pass: &mut Pass,
    mode: Mode,
    place: u8,
    buf: Buf,
) -> (FillEnd, u8)
    requires table { pass.old.table ≡ board_id board.now }
    requires holds { IsLifted pass.old place }
    requires size { length buf.bytes ≡ size_at pass.old place }
    ensures enters { EntersOf pass.old (FillsDropping mode result.1 place buf (is_filled result.0)) pass.new }
    ensures hands { AfterFill (is_filled result.0) place pass.old pass.new }
    ensures back { IfClosed result.0 (λ back. back ≡ buf) }
{
    let dropped = drop_before_fill(rt, board, pass, mode);
    (fill(rt, board, pass, place, buf), dropped)
}
