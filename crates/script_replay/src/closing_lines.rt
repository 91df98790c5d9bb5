//! The `close` line.

ghost use Rattle.std.specs.Prelude.{◌≡◌, ◌==◌, [], Some, OnOk};
ghost use Rattle.std.specs.List.{list_any};
ghost use Rattle.gentl_handles.specs.Closing.{closing, without_closed, is_among};
ghost use Rattle.gentl_handles.specs.Storing.{serials_of};
ghost use Rattle.script_replay.specs.Boards.{IsReady};
ghost use Rattle.script_replay.specs.Acquiring.{KeepsLifted, CallsBoard};
ghost use Rattle.script_replay.specs.Closes.{ClosesUnder, ClosesIf};

use crate::answers::{line_done, line_refused};
use crate::board_lines::CALLER;
use crate::handle_lines::close_under;
use board_model::PlainBoard;
use gentl_handles::{Handle, Tree};
use gev_types::NoMemory;
use std::alloc::Global;

/// The serial of the stream that has the board.
const STREAM: u64 = 4;

/// Whether the stream of the board is among these handles.
fn names_stream(closed: &[Handle]) -> bool
    ensures { result ≡ is_among (serials_of closed.now) (Some 4) }
{
    has_serial(closed, STREAM)
}

fn has_serial(closed: &[Handle], serial: u64) -> bool
    ensures { result ≡ list_any (λ handle. handle.serial == serial) closed.now }
{
    closed.iter().any(|handle| handle.serial == serial)
}

/// Closes a handle with all below it. Where the stream of the board is among them, the board is closed too.
pub(crate) fn close_all(
    alloc: Global,
    tree: &mut Tree,
    board: &mut PlainBoard,
    serial: u64,
    out: &mut Vec<u8>,
) -> Result<(), NoMemory>
    requires ready { IsReady board.old }
    requires empty { out.old.items ≡ [] }
    ensures acts { OnOk result (ClosesUnder tree.old serial board.old out.new.items board.new) }
    ensures after { tree.new ≡ without_closed tree.old serial (closing tree.old serial) }
    ensures ready { IsReady board.new }
    ensures lifted { KeepsLifted board.old board.new }
{
    match close_under(tree, serial) {
        Ok(closed) => close_board(alloc, board, names_stream(closed.as_slice()), out),
        Err(error) => line_refused(alloc, "close", error, out),
    }
}

/// Closes the board where its stream was closed, and tells that the handles were closed.
fn close_board(
    alloc: Global,
    board: &mut PlainBoard,
    named: bool,
    out: &mut Vec<u8>,
) -> Result<(), NoMemory>
    requires ready { IsReady board.old }
    requires empty { out.old.items ≡ [] }
    ensures { CallsBoard (λ t. ClosesIf t named) result board.old out.new.items board.new }
{
    if named {
        board.ds_close(CALLER);
    }
    line_done(alloc, "close", out)
}
