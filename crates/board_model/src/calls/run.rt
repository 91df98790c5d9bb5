//! The calls that start and stop the acquisition.

ghost use Rattle.std.specs.Prelude.{◌≡◌, ◌↔◌, ◌<◌, Err, true};
ghost use Rattle.board_machine.specs.Machine.{IsActor};
ghost use Rattle.board_machine.specs.Adding.{AddsOf};
ghost use Rattle.board_calls.specs.Calls.{Starts, Stops, closed_refusal};

use crate::board::PlainBoard;
use board_calls::shown_run;
use gentl_types::{GcError, Shown};

impl PlainBoard {
    /// DSStartAcquisition.
    pub fn ds_start(&mut self, actor: u8) -> Result<(), GcError>
        requires actor { IsActor self.old.board actor }
        ensures entries { AddsOf self.old.board actor (Starts result) self.new.board }
        ensures closed { (result ≡ Err closed_refusal) ↔ (self.old.board.closed ≡ true) }
        ensures contents { self.new.contents ≡ self.old.contents }
    {
        if self.look_closed(actor) {
            return Err(GcError::InvalidHandle(Shown::Closed));
        }
        match self.start(actor) {
            Ok(()) => Ok(()),
            Err(run) => Err(GcError::ResourceInUse(shown_run(run))),
        }
    }

    /// DSStopAcquisition, with flags 0 for the default and 1 for a kill stop.
    pub fn ds_stop(&mut self, actor: u8, flags: u32) -> Result<(), GcError>
        requires actor { IsActor self.old.board actor }
        ensures entries { AddsOf self.old.board actor (Stops flags result) self.new.board }
        ensures contents { self.new.contents ≡ self.old.contents }
    {
        if flags > 1 {
            return Err(GcError::InvalidParameter(u64::from(flags)));
        }
        match self.stop(actor, flags == 1) {
            Ok(()) => Ok(()),
            Err(run) => Err(GcError::ResourceInUse(shown_run(run))),
        }
    }
}
