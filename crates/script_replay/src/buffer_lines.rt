//! Lines that lend a buffer to the application and take it back: `take`, and `binfo`.

ghost use Rattle.std.specs.Prelude.{◌≡◌, [], true, Some, IfOk};
ghost use Rattle.gentl_handles.specs.declared.opened.Opened.{Opened};
ghost use Rattle.board_machine.specs.Machine.{InHand, word_at};
ghost use Rattle.script_trace.specs.BoardLines.{BufferInfoLine, AsksBuffer, TakeIfOpen, TakeLine, is_of_loan};
ghost use Rattle.script_replay.specs.Boards.{IsReady, Acts};
ghost use Rattle.script_replay.specs.Acquiring.{KeepsLifted, CallsBoard};
ghost use Rattle.script_replay.specs.Takes.{ActsUnder};

use crate::answers::{line_info, line_refused};
use crate::board_lines::CALLER;
use board_calls::loan_info;
use board_model::PlainBoard;
use gentl_handles::{Handle, Tree};
use gentl_types::{BufferId, GcError, Shown};
use gev_report::line_take;
use gev_types::NoMemory;
use std::alloc::Global;

/// Whether the information with this number is told of a buffer that is a loan.
fn is_of_loan(which: u32) -> bool
    ensures { result ≡ is_of_loan which }
{
    which == 4 || which == 7 || which == 9 || which == 16 || which == 29
}

/// Tells an information of a buffer.
pub(crate) fn buffer_info(
    alloc: Global,
    board: &mut PlainBoard,
    id: BufferId,
    which: u32,
    out: &mut Vec<u8>,
) -> Result<(), NoMemory>
    requires ready { IsReady board.old }
    requires empty { out.old.items ≡ [] }
    ensures { CallsBoard (λ t. BufferInfoLine t id which) result board.old out.new.items board.new }
{
    if is_of_loan(which) {
        return loan_info_line(alloc, board, id, which, out);
    }
    let answer = board.ds_buffer_info(CALLER, id, which);
    line_info(alloc, "binfo", which, answer, out)
}

/// Borrows the buffer, tells an information of it as a loan, and returns it.
fn loan_info_line(
    alloc: Global,
    board: &mut PlainBoard,
    id: BufferId,
    which: u32,
    out: &mut Vec<u8>,
) -> Result<(), NoMemory>
    requires ready { IsReady board.old }
    requires empty { out.old.items ≡ [] }
    ensures { CallsBoard (λ t. AsksBuffer t id which true) result board.old out.new.items board.new }
{
    match board.ds_borrow(CALLER, id) {
        Ok(place) => {
            let answer = loan_info(board.buf(place).rec(), which);
            board.ds_return(CALLER, place);
            line_info(alloc, "binfo", which, answer, out)
        }
        Err(error) => line_refused(alloc, "binfo", error, out),
    }
}

/// Takes the first buffer of the output, tells it and gives it to the application. The answer is how
/// many were taken: 1, or 0 where there was nothing to take.
fn take_buffer(alloc: Global, board: &mut PlainBoard, out: &mut Vec<u8>) -> Result<u64, NoMemory>
    requires ready { IsReady board.old }
    requires empty { out.old.items ≡ [] }
    ensures acts { (event : Opened) → IfOk result (λ count. Acts (λ t. TakeIfOpen t (Some event)) 0 count board.old out.new.items board.new) }
    ensures ready { IsReady board.new }
    ensures lifted { KeepsLifted board.old board.new }
{
    board.owned();
    match board.event_get(CALLER, 0) {
        Ok(place) => {
            let generation = generation_at(board, place);
            board.ds_return(CALLER, place);
            let id = BufferId { place, generation };
            line_take(alloc, id, board.buf(place), out)?;
            Ok(1)
        }
        Err(error) => {
            line_refused(alloc, "take", error, out)?;
            Ok(0)
        }
    }
}

/// The generation of a buffer in hand.
fn generation_at(board: &PlainBoard, place: u8) -> u32
    requires in_hand { InHand board.now.board 0 place }
    ensures { result ≡ (word_at board.now.board place).generation }
{
    board.owned();
    board.word(place).generation
}

/// Takes a buffer, where the event of the stream is open. The answer is how many were taken: 1 or 0.
pub(crate) fn take(
    alloc: Global,
    board: &mut PlainBoard,
    tree: &Tree,
    stream: Handle,
    out: &mut Vec<u8>,
) -> Result<u64, NoMemory>
    requires ready { IsReady board.old }
    requires stream { stream.serial ≡ 4 }
    requires empty { out.old.items ≡ [] }
    ensures acts { IfOk result (λ count. ActsUnder tree.now TakeLine 0 count board.old out.new.items board.new) }
    ensures ready { IsReady board.new }
    ensures lifted { KeepsLifted board.old board.new }
{
    match tree.child(Some(stream), 0) {
        Some(_event) => take_buffer(alloc, board, out),
        None => {
            line_refused(
                alloc,
                "take",
                GcError::InvalidHandle(Shown::NoHandle(4)),
                out,
            )?;
            Ok(0)
        }
    }
}
