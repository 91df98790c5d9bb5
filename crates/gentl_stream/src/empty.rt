//! The flush of the pool to the output.

ghost use Rattle.std.specs.Prelude.{◌≡◌};
ghost use Rattle.board_calls.specs.Calls.{FlushesToOutput};
ghost use Rattle.buffer_words.specs.Boards.{board_id};
ghost use Rattle.buffer_words.specs.Passes.{gone, IsWhole, SameHands, Has};
ghost use Rattle.buffer_words.specs.Several.{EntersOf};
ghost use Rattle.gentl_stream.specs.Several.{AreWhole, Leaves};
ghost use Rattle.gentl_stream.specs.Emptied.{FillsEmptied, FillAllEmptied, EmptiesPool};

use buffer_words::{Board, Pass};
use gev_types::Record;
use output_queue::{FillEnd, fill};
use std::sync::Wait;

/// Fills a buffer in hand with its bytes and the empty record, or lays it where the stream was closed.
fn fill_empty<R: Wait>(rt: &R, board: &Board, pass: &mut Pass, place: u8)
    requires table { pass.old.table ≡ board_id board.now }
    requires holds { IsWhole pass.old place }
    ensures entries { EntersOf pass.old (FillsEmptied pass.old place) pass.new }
    ensures hands { Has place gone pass.old pass.new }
{
    let mut buf = board.lift(pass, place);
    buf.set_rec(Record::default());
    match fill(rt, board, pass, place, buf) {
        FillEnd::Filled => {}
        FillEnd::Closed(back) => {
            board.set_down(pass, place, back);
            board.lay(pass, place);
        }
    }
}

/// Fills each of these buffers in hand, in order.
fn fill_each<R: Wait>(rt: &R, board: &Board, pass: &mut Pass, places: &[u8])
    requires table { pass.old.table ≡ board_id board.now }
    requires holds { AreWhole pass.old places.now }
    ensures entries { EntersOf pass.old (FillAllEmptied pass.old places.now) pass.new }
    ensures hands { Leaves places.now pass.old pass.new }
{
    for place in places {
        fill_empty(rt, board, pass, *place);
    }
}

/// Sweeps the pool, and fills its buffers, lowest place first.
pub(crate) fn flush_to_output<R: Wait>(rt: &R, board: &Board, pass: &mut Pass)
    requires table { pass.old.table ≡ board_id board.now }
    ensures entries { EntersOf pass.old FlushesToOutput pass.new }
    ensures fills { EmptiesPool pass.old pass.new }
    ensures hands { SameHands pass.old pass.new }
{
    let pooled = input_pool::sweep(board, pass);
    fill_each(rt, board, pass, pooled.as_slice());
}
