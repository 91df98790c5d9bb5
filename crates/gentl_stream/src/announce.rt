//! The call that announces a buffer.

ghost use Rattle.std.specs.Prelude.{◌≡◌, IfOk, MatchOption, length};
ghost use Rattle.board_calls.specs.Calls.{Announces};
ghost use Rattle.board_calls.specs.Rounds.{EnrolsLowest};
ghost use Rattle.buffer_words.specs.Boards.{board_id};
ghost use Rattle.buffer_words.specs.Passes.{SameHands};
ghost use Rattle.buffer_words.specs.Several.{EntersOf};
ghost use Rattle.gentl_stream.specs.Announced.{Brings, LaysNew};

use crate::looks::look_closed;
use buffer_words::{Board, Pass};
use gentl_types::{BufferId, GcError, Shown};
use gev_types::{Buf, MAX_BUFFER_SIZE, PLACES};
use std::alloc::Global;

/// Brings a new buffer to the lowest place that takes it, and has it in hand.
fn enrol_lowest(board: &Board, pass: &mut Pass, buf: Buf) -> Option<BufferId>
    requires table { pass.old.table ≡ board_id board.now }
    ensures entries { EntersOf pass.old (EnrolsLowest (length buf.bytes) result) pass.new }
    ensures hands { MatchOption result (SameHands pass.old pass.new) (λ id. Brings id.place buf pass.old pass.new) }
{
    let mut buf = buf;
    for place in 0..PLACES {
        match board.enrol(pass, place, buf) {
            Ok(generation) => return Some(BufferId { place, generation }),
            Err((back, _word)) => buf = back,
        }
    }
    None
}

/// DSAllocAndAnnounceBuffer: a new buffer of `size` bytes, 1 to 67,108,864, at the lowest vacant place,
/// which the application owns then.
pub fn ds_announce(
    alloc: Global,
    board: &Board,
    pass: &mut Pass,
    size: u64,
) -> Result<BufferId, GcError>
    requires table { pass.old.table ≡ board_id board.now }
    ensures entries { EntersOf pass.old (Announces size result) pass.new }
    ensures buffer { IfOk result (λ id. LaysNew id size pass.old pass.new) }
    ensures hands { SameHands pass.old pass.new }
{
    if look_closed(board, pass) {
        return Err(GcError::InvalidHandle(Shown::Closed));
    }
    if size == 0 || size > u64::from(MAX_BUFFER_SIZE) {
        return Err(GcError::InvalidParameter(size));
    }
    let buf = match Buf::new(alloc, size as u32) {
        Ok(buf) => buf,
        Err(_no_memory) => return Err(GcError::OutOfMemory),
    };
    match enrol_lowest(board, pass, buf) {
        Some(id) => {
            board.lay(pass, id.place);
            Ok(id)
        }
        None => Err(GcError::ResourceExhausted),
    }
}
