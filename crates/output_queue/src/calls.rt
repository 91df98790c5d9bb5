ghost use Rattle.std.specs.Prelude.{◌≡◌, length};
ghost use Rattle.board_machine.specs.declared.events.Event.TheVariants as event;
ghost use Rattle.board_calls.specs.Ends.{is_filled, IfClosed};
ghost use Rattle.buffer_words.specs.Boards.{board_id};
ghost use Rattle.buffer_words.specs.Passes.{IsLifted, IsWhole, size_at, Enters, SameHands};
ghost use Rattle.buffer_words.specs.Swept.{GetsAll};
ghost use Rattle.buffer_words.specs.Handing.{AfterFill, DidFill, HandsOne};
ghost use Rattle.output_queue.specs.Waiting.{FindsWaiting};

use arrayvec::ArrayVec;
use board_calls::{FillEnd, TakeEnd};
use buffer_words::{Board, Pass, Tried};
use gev_types::Buf;
use std::sync::Wait;

/// Puts a buffer at the end of the output, for a place in hand that is lifted. Where the stream was
/// closed the buffer comes back, and its place stays in hand, lifted. Where another thread changed the
/// output in between, it tries again.
pub fn fill<R: Wait>(rt: &R, board: &Board, pass: &mut Pass, place: u8, buf: Buf) -> FillEnd
    requires table { pass.old.table ≡ board_id board.now }
    requires holds { IsLifted pass.old place }
    requires size { length buf.bytes ≡ size_at pass.old place }
    ensures entry { Enters pass.old (event.Fill place buf (is_filled result)) pass.new }
    ensures hands { AfterFill (is_filled result) place pass.old pass.new }
    ensures back { IfClosed result (λ back. back ≡ buf) }
{
    board.set_down(pass, place, buf);
    if fill_whole(rt, board, pass, place) {
        FillEnd::Filled
    } else {
        FillEnd::Closed(board.lift(pass, place))
    }
}

/// Puts a buffer that is set down at the end of the output: whether it's there, or the stream was closed.
fn fill_whole<R: Wait>(rt: &R, board: &Board, pass: &mut Pass, place: u8) -> bool
    requires table { pass.old.table ≡ board_id board.now }
    requires holds { IsWhole pass.old place }
    ensures did { DidFill place result pass.old pass.new }
{
    'tries: for _ in rt.forever() {
        match board.try_fill(pass, place) {
            Tried::Did(filled) => return filled,
            Tried::Lost { .. } => {}
        }
    }
    unreachable!()
}

/// Takes the output's first buffer in hand; Empty where there is none, Closed where the stream was closed.
/// Where another thread changed the output in between, it tries again.
pub fn take<R: Wait>(rt: &R, board: &Board, pass: &mut Pass) -> TakeEnd
    requires table { pass.old.table ≡ board_id board.now }
    ensures entry { Enters pass.old (event.Take result) pass.new }
    ensures hands { HandsOne result pass.old pass.new }
{
    'tries: for _ in rt.forever() {
        match board.try_take(pass) {
            Tried::Did(end) => return end,
            Tried::Lost { .. } => {}
        }
    }
    unreachable!()
}

/// Takes the buffers of all of the output's places in hand: the places, first in first.
pub fn sweep(board: &Board, pass: &mut Pass) -> ArrayVec<u8, 15>
    requires table { pass.old.table ≡ board_id board.now }
    ensures entry { Enters pass.old (event.SweepOut result.items) pass.new }
    ensures hands { GetsAll result.items pass.old pass.new }
{
    board.sweep_out(pass)
}

/// Closes the output for good: after it each fill and each take is answered Closed.
pub fn close(board: &Board, pass: &mut Pass)
    requires table { pass.old.table ≡ board_id board.now }
    ensures entry { Enters pass.old event.Close pass.new }
    ensures hands { SameHands pass.old pass.new }
{
    board.close(pass);
}

/// How many buffers wait in the output, and whether the stream was closed.
pub fn waiting(board: &Board, pass: &mut Pass) -> (u8, bool)
    requires table { pass.old.table ≡ board_id board.now }
    ensures entry { FindsWaiting pass.old result.0 result.1 pass.new }
    ensures hands { SameHands pass.old pass.new }
{
    let (places, closed) = board.look_out(pass);
    (places.len() as u8, closed)
}
