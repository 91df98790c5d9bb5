//! The kill of a wait, and the flush of what waits.

ghost use Rattle.std.specs.Prelude.{◌≡◌};
ghost use Rattle.board_calls.specs.Calls.{DiscardsOutput, Kills};
ghost use Rattle.buffer_words.specs.Boards.{board_id};
ghost use Rattle.buffer_words.specs.Passes.{SameHands};
ghost use Rattle.buffer_words.specs.Several.{EntersOf};

use buffer_words::{Board, Pass};
use gentl_stream::discard_output;

/// EventKill: ends a wait for a buffer, the one that is under way or the next.
pub fn event_kill(board: &Board, pass: &mut Pass)
    requires table { pass.old.table ≡ board_id board.now }
    ensures entries { EntersOf pass.old Kills pass.new }
    ensures hands { SameHands pass.old pass.new }
{
    board.post(pass);
}

/// EventFlush: each buffer of the output is the application's again.
pub fn event_flush(board: &Board, pass: &mut Pass)
    requires table { pass.old.table ≡ board_id board.now }
    ensures entries { EntersOf pass.old DiscardsOutput pass.new }
    ensures hands { SameHands pass.old pass.new }
{
    discard_output(board, pass);
}
