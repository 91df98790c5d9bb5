//! Lines that call the stream or its event once.

ghost use Rattle.std.specs.Prelude.{◌≡◌, ◌↔◌, [], IsTrue, Err};
ghost use Rattle.script_trace.specs.BoardLines.{AnnounceLine, QueueLine, RevokeLine, FlushLine, KillLine, EventFlushLine, InfoLine};
ghost use Rattle.script_replay.specs.Boards.{IsReady};
ghost use Rattle.script_replay.specs.Acquiring.{CallsBoard};

use crate::answers::{line_answer, line_done, line_info, line_new_id, line_refused};
use board_model::PlainBoard;
use gentl_types::{BufferId, GcError};
use gev_types::NoMemory;
use std::alloc::Global;

/// Who makes the calls of the lines.
pub const CALLER: u8 = 0;

/// Puts a held buffer into the input pool.
pub fn queue(
    alloc: Global,
    board: &mut PlainBoard,
    id: BufferId,
    out: &mut Vec<u8>,
) -> Result<(), NoMemory>
    requires ready { IsReady board.old }
    requires empty { out.old.items ≡ [] }
    ensures { CallsBoard (λ t. QueueLine t id) result board.old out.new.items board.new }
{
    let answer = board.ds_queue(CALLER, id);
    line_answer(alloc, "queue", answer, out)
}

/// Ends a wait for a buffer, this one or the next.
pub(crate) fn kill(alloc: Global, board: &mut PlainBoard, out: &mut Vec<u8>) -> Result<(), NoMemory>
    requires ready { IsReady board.old }
    requires empty { out.old.items ≡ [] }
    ensures { CallsBoard KillLine result board.old out.new.items board.new }
{
    board.event_kill(CALLER);
    line_done(alloc, "kill", out)
}

/// Gives each buffer of the output to the application.
pub(crate) fn event_flush(
    alloc: Global,
    board: &mut PlainBoard,
    out: &mut Vec<u8>,
) -> Result<(), NoMemory>
    requires ready { IsReady board.old }
    requires empty { out.old.items ≡ [] }
    ensures { CallsBoard EventFlushLine result board.old out.new.items board.new }
{
    board.event_flush(CALLER);
    line_done(alloc, "event-flush", out)
}

/// Tells an information of the stream.
pub(crate) fn info(
    alloc: Global,
    board: &mut PlainBoard,
    which: u32,
    out: &mut Vec<u8>,
) -> Result<(), NoMemory>
    requires ready { IsReady board.old }
    requires empty { out.old.items ≡ [] }
    ensures { CallsBoard (λ t. InfoLine t which) result board.old out.new.items board.new }
{
    let answer = board.ds_info(CALLER, which);
    line_info(alloc, "info", which, answer, out)
}

/// Moves buffers as the flush with this number does (DSFlushQueue).
pub(crate) fn flush(
    alloc: Global,
    board: &mut PlainBoard,
    operation: u32,
    out: &mut Vec<u8>,
) -> Result<(), NoMemory>
    requires ready { IsReady board.old }
    requires empty { out.old.items ≡ [] }
    ensures { CallsBoard (λ t. FlushLine t operation) result board.old out.new.items board.new }
{
    let answer = board.ds_flush(CALLER, operation);
    line_answer(alloc, "flush", answer, out)
}

/// Announces a new buffer of so many bytes. Want of memory is no answer of the line.
pub fn announce(
    alloc: Global,
    board: &mut PlainBoard,
    size: u64,
    out: &mut Vec<u8>,
) -> Result<(), NoMemory>
    requires ready { IsReady board.old }
    requires empty { out.old.items ≡ [] }
    ensures { CallsBoard (λ t. AnnounceLine t size) result board.old out.new.items board.new }
{
    let answer = board.ds_announce(alloc, CALLER, size);
    board.owned();
    if is_want_of_memory(answer) {
        return Err(NoMemory);
    }
    line_new_id(alloc, "announce", answer, out)
}

/// Whether a call was refused for want of memory.
fn is_want_of_memory(answer: Result<BufferId, GcError>) -> bool
    ensures { IsTrue result ↔ (answer ≡ Err GcError.OutOfMemory) }
{
    matches!(answer, Err(GcError::OutOfMemory))
}

/// Takes a held buffer away from its place, and drops it.
pub(crate) fn revoke(
    alloc: Global,
    board: &mut PlainBoard,
    id: BufferId,
    out: &mut Vec<u8>,
) -> Result<(), NoMemory>
    requires ready { IsReady board.old }
    requires empty { out.old.items ≡ [] }
    ensures { CallsBoard (λ t. RevokeLine t id) result board.old out.new.items board.new }
{
    match board.ds_revoke(CALLER, id) {
        Ok(_buf) => line_done(alloc, "revoke", out),
        Err(error) => line_refused(alloc, "revoke", error, out),
    }
}
