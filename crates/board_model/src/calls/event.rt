//! The calls on the event of new buffers, EVENT_NEW_BUFFER.

ghost use Rattle.std.specs.Prelude.{◌≡◌, ◌↔◌, IfOk, Err, true};
ghost use Rattle.board_machine.specs.Machine.{IsActor, InHand};
ghost use Rattle.board_model.specs.Plain.{HasBuf};
ghost use Rattle.board_machine.specs.Adding.{AddsOf};
ghost use Rattle.board_calls.specs.Calls.{Gets, Kills, closed_refusal, itself};

use crate::board::PlainBoard;
use board_calls::TakeEnd;
use gentl_types::{GcError, Shown};

impl PlainBoard {
    /// EventGetData, one turn of it: takes the first buffer of the output as a loan, whose place is the
    /// answer. Where the output was empty it takes a kill. `moment` is the time of the turn, in
    /// milliseconds.
    pub fn event_get(&mut self, actor: u8, moment: u64) -> Result<u8, GcError>
        requires actor { IsActor self.old.board actor }
        ensures entries { AddsOf self.old.board actor (Gets moment itself result) self.new.board }
        ensures closed { (result ≡ Err closed_refusal) ↔ (self.old.board.closed ≡ true) }
        ensures in_hand { IfOk result (λ place. InHand self.new.board actor place) }
        ensures set_down { IfOk result (λ place. HasBuf self.new place) }
        ensures contents { self.new.contents ≡ self.old.contents }
    {
        match self.take(actor) {
            TakeEnd::Taken(place) => Ok(place),
            TakeEnd::Closed => Err(GcError::InvalidHandle(Shown::Closed)),
            TakeEnd::Empty => {
                if self.unpost(actor) {
                    return Err(GcError::Abort);
                }
                Err(GcError::Timeout {
                    first: moment,
                    last: moment,
                })
            }
        }
    }

    /// EventKill: ends a wait for a buffer, this one or the next.
    pub fn event_kill(&mut self, actor: u8)
        requires actor { IsActor self.old.board actor }
        ensures entries { AddsOf self.old.board actor Kills self.new.board }
        ensures contents { self.new.contents ≡ self.old.contents }
    {
        self.post(actor);
    }
}
