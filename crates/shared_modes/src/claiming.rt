ghost use Rattle.std.specs.Prelude.{◌≡◌};
ghost use Rattle.buffer_words.specs.Boards.{board_id};
ghost use Rattle.buffer_words.specs.Several.{EntersOf};
ghost use Rattle.board_model.specs.Steps.{TakesOne};
ghost use Rattle.board_calls.specs.Modes.{ClaimsFor};
ghost use Rattle.shared_modes.specs.Hands.{GetsFor};

use board_calls::Mode;
use buffer_words::{Board, Pass};
use input_pool::claim;
use output_queue::{TakeEnd, take};
use std::sync::Wait;

/// Takes the buffer that waits longest, if one waits. The answer is its place, and that it was dropped.
fn take_waiting<R: Wait>(rt: &R, board: &Board, pass: &mut Pass) -> Option<(u8, bool)>
    requires table { pass.old.table ≡ board_id board.now }
    ensures enters { EntersOf pass.old (TakesOne result) pass.new }
    ensures hands { GetsFor result pass.old pass.new }
{
    match take(rt, board, pass) {
        TakeEnd::Taken(place) => Some((place, true)),
        TakeEnd::Empty => None,
        TakeEnd::Closed => None,
    }
}

/// A buffer in hand for a new block: its place, and whether another block's image was dropped for it.
/// With OldestFirst it's the input pool's lowest place, and None where the pool was empty. With the two
/// other modes, where the pool was empty, it's the place that waits longest in the output, whose image is
/// dropped; None where none waits, or the stream is closed.
pub fn claim_for<R: Wait>(rt: &R, board: &Board, pass: &mut Pass, mode: Mode) -> Option<(u8, bool)>
    requires table { pass.old.table ≡ board_id board.now }
    ensures enters { EntersOf pass.old (ClaimsFor mode result) pass.new }
    ensures hands { GetsFor result pass.old pass.new }
{
    match claim(rt, board, pass) {
        Some(place) => Some((place, false)),
        None => match mode {
            Mode::OldestFirst => None,
            Mode::OldestFirstOverwrite => take_waiting(rt, board, pass),
            Mode::NewestOnly => take_waiting(rt, board, pass),
        },
    }
}
