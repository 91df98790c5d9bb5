//! The close of a stream.

ghost use Rattle.std.specs.Prelude.{◌≡◌};
ghost use Rattle.board_calls.specs.Calls.{Closes};
ghost use Rattle.buffer_words.specs.Boards.{board_id};
ghost use Rattle.buffer_words.specs.Passes.{SameHands};
ghost use Rattle.buffer_words.specs.Several.{EntersOf};

use crate::places::lay_each;
use buffer_words::{Board, Pass};

/// DSClose: sets the close mark, and gives each buffer of output and pool to the application. The
/// buffers stay announced.
pub fn ds_close(board: &Board, pass: &mut Pass)
    requires table { pass.old.table ≡ board_id board.now }
    ensures entries { EntersOf pass.old Closes pass.new }
    ensures hands { SameHands pass.old pass.new }
{
    output_queue::close(board, pass);
    let output = output_queue::sweep(board, pass);
    let pooled = input_pool::sweep(board, pass);
    lay_each(board, pass, output.as_slice());
    lay_each(board, pass, pooled.as_slice());
}
