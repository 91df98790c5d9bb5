ghost use Rattle.std.specs.Prelude.{◌≡◌, [], true, IfSome, is_some, length, map, take};
ghost use Rattle.board_machine.specs.Machine.{word_at, IsActor, InHand};
ghost use Rattle.board_machine.specs.Adding.{AddsOf};
ghost use Rattle.board_calls.specs.Ends.{IfClosed, is_filled};
ghost use Rattle.board_model.specs.Plain.{HasBuf, IsLifted};
ghost use Rattle.board_model.specs.Holdings.{WasFirst, contents_after_fill};
ghost use Rattle.board_calls.specs.Modes.{ClaimsFor, FillsDropping};
ghost use Rattle.board_model.specs.Steps.{TakesOne, DropsOne, DropsSome, Drops, KeepsHeld};
ghost use Rattle.board_model.specs.Gone.{gone_of, WasGone};

use crate::gone::Gone;
use crate::{FillEnd, PlainBoard, TakeEnd};
use arrayvec::ArrayVec;
use board_calls::Mode;
use gev_types::{Buf, PLACES};

/// Takes the buffer that waits longest, if one waits. The answer is its place, and that it was dropped.
fn take_waiting(board: &mut PlainBoard, actor: u8) -> Option<(u8, bool)>
    requires actor { IsActor board.old.board actor }
    ensures entries { AddsOf board.old.board actor (TakesOne result) board.new.board }
    ensures in_hand { IfSome result (λ got. InHand board.new.board actor got.0) }
    ensures set_down { IfSome result (λ got. HasBuf board.new got.0) }
    ensures first { IfSome result (λ got. WasFirst board.old got.0 board.new) }
    ensures contents { board.new.contents ≡ board.old.contents }
{
    match board.take(actor) {
        TakeEnd::Taken(place) => Some((place, true)),
        TakeEnd::Empty => None,
        TakeEnd::Closed => None,
    }
}

/// A buffer in hand for a new block: its place, and whether another block's image was dropped for it.
/// With OldestFirst it's the input pool's lowest place, and None where the pool is empty. With the two
/// other modes, where the pool is empty, it's the place that waits longest in the output, whose image is
/// dropped; None where none waits, or the stream is closed.
pub fn plain_claim_for(board: &mut PlainBoard, actor: u8, mode: Mode) -> Option<(u8, bool)>
    requires actor { IsActor board.old.board actor }
    ensures entries { AddsOf board.old.board actor (ClaimsFor mode result) board.new.board }
    ensures in_hand { IfSome result (λ got. InHand board.new.board actor got.0) }
    ensures set_down { IfSome result (λ got. HasBuf board.new got.0) }
    ensures first { IfSome result (λ got. got.1 ≡ true → WasFirst board.old got.0 board.new) }
    ensures contents { board.new.contents ≡ board.old.contents }
{
    match board.claim(actor) {
        Some(place) => Some((place, false)),
        None => match mode {
            Mode::OldestFirst => None,
            Mode::OldestFirstOverwrite => take_waiting(board, actor),
            Mode::NewestOnly => take_waiting(board, actor),
        },
    }
}

/// Drops the buffer that waits longest, if one waits, and tells which did.
fn drop_waiting(board: &mut PlainBoard, actor: u8) -> Option<Gone>
    requires actor { IsActor board.old.board actor }
    ensures entries { AddsOf board.old.board actor (DropsOne (is_some result)) board.new.board }
    ensures gone { IfSome result (λ gone. WasGone board.old.board.out gone board.new.board.out) }
    ensures held { KeepsHeld board.old.board actor board.new.board }
    ensures contents { board.new.contents ≡ board.old.contents }
{
    match board.take(actor) {
        TakeEnd::Taken(place) => {
            let block = board.buf(place).rec().block;
            board.pool(actor, place);
            Some(Gone { place, block })
        }
        TakeEnd::Empty => None,
        TakeEnd::Closed => None,
    }
}

/// Drops each buffer that waits, oldest first, and tells how many and which.
fn drop_all_waiting(board: &mut PlainBoard, actor: u8, gone: &mut ArrayVec<Gone, 15>) -> u8
    requires actor { IsActor board.old.board actor }
    requires none { gone.old.items ≡ [] }
    ensures entries { AddsOf board.old.board actor (Drops Mode.NewestOnly result) board.new.board }
    ensures gone { gone.new.items ≡ map gone_of (take result board.old.board.out) }
    ensures held { KeepsHeld board.old.board actor board.new.board }
    ensures contents { board.new.contents ≡ board.old.contents }
{
    for dropped in 0..PLACES {
        match drop_waiting(board, actor) {
            Some(one) => gone.push(one),
            None => return dropped,
        }
    }
    PLACES
}

/// Drops what the mode drops before a fill, and tells how many and which.
fn drop_before_fill(
    board: &mut PlainBoard,
    actor: u8,
    mode: Mode,
    gone: &mut ArrayVec<Gone, 15>,
) -> u8
    requires actor { IsActor board.old.board actor }
    requires none { gone.old.items ≡ [] }
    ensures entries { AddsOf board.old.board actor (Drops mode result) board.new.board }
    ensures gone { gone.new.items ≡ map gone_of (take result board.old.board.out) }
    ensures held { KeepsHeld board.old.board actor board.new.board }
    ensures contents { board.new.contents ≡ board.old.contents }
{
    match mode {
        Mode::OldestFirst => 0,
        Mode::OldestFirstOverwrite => 0,
        Mode::NewestOnly => drop_all_waiting(board, actor, gone),
    }
}

/// Puts a block's buffer, which was lifted from a place in hand, at the end of the output. With
/// NewestOnly each buffer that waits is dropped before, oldest first, and put into the input pool.
/// Where the close mark stands the buffer comes back, and its place stays in hand, lifted. The number is
/// that of the dropped buffers, and `gone` gets them.
pub fn plain_fill_for(
    board: &mut PlainBoard,
    actor: u8,
    mode: Mode,
    place: u8,
    buf: Buf,
    gone: &mut ArrayVec<Gone, 15>,
) -> (FillEnd, u8)
    requires actor { IsActor board.old.board actor }
    requires in_hand { InHand board.old.board actor place }
    requires lifted { IsLifted board.old place }
    requires size { length buf.bytes ≡ (word_at board.old.board place).size }
    requires none { gone.old.items ≡ [] }
    ensures entries { AddsOf board.old.board actor (FillsDropping mode result.1 place buf (is_filled result.0)) board.new.board }
    ensures contents { board.new.contents ≡ contents_after_fill board.old.contents place buf (is_filled result.0) }
    ensures back { IfClosed result.0 (λ back. back ≡ buf) }
    ensures in_hand { IfClosed result.0 (λ back. InHand board.new.board actor place) }
    ensures words { board.new.board.words ≡ board.old.board.words }
    ensures gone { gone.new.items ≡ map gone_of (take result.1 board.old.board.out) }
{
    let dropped = drop_before_fill(board, actor, mode, gone);
    (board.fill(actor, place, buf), dropped)
}
