//! The look at the output with which announce, queue and start begin.

ghost use Rattle.std.specs.Prelude.{◌≡◌};
ghost use Rattle.board_calls.specs.Calls.{LooksOut};
ghost use Rattle.buffer_words.specs.Boards.{board_id};
ghost use Rattle.buffer_words.specs.Passes.{SameHands};
ghost use Rattle.buffer_words.specs.Several.{EntersOf};

use buffer_words::{Board, Pass};

/// Whether the stream was closed.
pub(crate) fn look_closed(board: &Board, pass: &mut Pass) -> bool
    requires table { pass.old.table ≡ board_id board.now }
    ensures table { pass.new.table ≡ pass.old.table }
    ensures entries { EntersOf pass.old (LooksOut result) pass.new }
    ensures hands { SameHands pass.old pass.new }
{
    let (_output, closed) = board.look_out(pass);
    closed
}
