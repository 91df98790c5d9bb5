//! The calls that start and stop the acquisition.

ghost use Rattle.std.specs.Prelude.{◌≡◌};
ghost use Rattle.board_calls.specs.Calls.{Starts, Stops};
ghost use Rattle.buffer_words.specs.Boards.{board_id};
ghost use Rattle.buffer_words.specs.Passes.{SameHands};
ghost use Rattle.buffer_words.specs.Several.{EntersOf};

use crate::looks::look_closed;
use board_calls::shown_run;
use buffer_words::{Board, Pass};
use gentl_types::{GcError, Shown};

/// DSStartAcquisition. `InvalidHandle` where the stream was closed, and `ResourceInUse` with the run word
/// where it runs already.
pub fn ds_start(board: &Board, pass: &mut Pass) -> Result<(), GcError>
    requires table { pass.old.table ≡ board_id board.now }
    ensures entries { EntersOf pass.old (Starts result) pass.new }
    ensures hands { SameHands pass.old pass.new }
{
    if look_closed(board, pass) {
        return Err(GcError::InvalidHandle(Shown::Closed));
    }
    match board.start(pass) {
        Ok(()) => Ok(()),
        Err(run) => Err(GcError::ResourceInUse(shown_run(run))),
    }
}

/// DSStopAcquisition, with flags 0 for the default stop and 1 for a kill stop. `InvalidParameter` with
/// flags above 1, and `ResourceInUse` with the run word where it doesn't run.
pub fn ds_stop(board: &Board, pass: &mut Pass, flags: u32) -> Result<(), GcError>
    requires table { pass.old.table ≡ board_id board.now }
    ensures entries { EntersOf pass.old (Stops flags result) pass.new }
    ensures hands { SameHands pass.old pass.new }
{
    if flags > 1 {
        return Err(GcError::InvalidParameter(u64::from(flags)));
    }
    match board.stop(pass, flags == 1) {
        Ok(()) => Ok(()),
        Err(run) => Err(GcError::ResourceInUse(shown_run(run))),
    }
}
