//! The calls that queue a buffer, take it back, borrow and return it.

ghost use Rattle.std.specs.Prelude.{◌≡◌, ◌↔◌, ◌<◌, IfOk, OnOk, OnErr, Some, Ok, Err, true, slice_set};
ghost use Rattle.board_machine.specs.Machine.{IsActor, InHand};
ghost use Rattle.board_model.specs.Plain.{HasBuf, content_at, nothing};
ghost use Rattle.board_machine.specs.Adding.{AddsOf};
ghost use Rattle.board_calls.specs.Calls.{Queues, Borrows, Revokes, Returns, LooksOut, closed_refusal};

use crate::board::PlainBoard;
use board_calls::{as_busy, grab_refusal};
use gentl_types::{BufferId, GcError, Shown};
use gev_types::{Buf, PLACES};

impl PlainBoard {
    /// Looks at the output for the close mark.
    pub(crate) fn look_closed(&mut self, actor: u8) -> bool
        requires actor { IsActor self.old.board actor }
        ensures entries { AddsOf self.old.board actor (LooksOut result) self.new.board }
        ensures same { self.new.board ≡ self.old.board }
        ensures mark { result ≡ self.old.board.closed }
        ensures contents { self.new.contents ≡ self.old.contents }
    {
        self.look_out(actor).1
    }

    /// Grabs the buffer with this id.
    pub(crate) fn grab_by_id(&mut self, actor: u8, id: BufferId) -> Result<(), GcError>
        requires actor { IsActor self.old.board actor }
        ensures entries { AddsOf self.old.board actor (Borrows id result) self.new.board }
        ensures in_hand { OnOk result (InHand self.new.board actor id.place) }
        ensures set_down { OnOk result (HasBuf self.new id.place) }
        ensures contents { self.new.contents ≡ self.old.contents }
    {
        if id.place >= PLACES {
            return Err(GcError::InvalidHandle(Shown::NoHandle(u64::from(id.place))));
        }
        match self.grab(actor, id.place, id.generation) {
            Ok(()) => Ok(()),
            Err(word) => Err(grab_refusal(id, word)),
        }
    }

    /// DSQueueBuffer: puts a held buffer into the input pool.
    pub fn ds_queue(&mut self, actor: u8, id: BufferId) -> Result<(), GcError>
        requires actor { IsActor self.old.board actor }
        ensures entries { AddsOf self.old.board actor (Queues id result) self.new.board }
        ensures closed { (result ≡ Err closed_refusal) ↔ (self.old.board.closed ≡ true) }
        ensures contents { self.new.contents ≡ self.old.contents }
    {
        if self.look_closed(actor) {
            return Err(GcError::InvalidHandle(Shown::Closed));
        }
        self.grab_by_id(actor, id)?;
        self.pool(actor, id.place);
        Ok(())
    }

    /// DSRevokeBuffer: takes a held buffer away from its place, and gives it back.
    pub fn ds_revoke(&mut self, actor: u8, id: BufferId) -> Result<Buf, GcError>
        requires actor { IsActor self.old.board actor }
        ensures entries { AddsOf self.old.board actor (Revokes id result) self.new.board }
        ensures value { IfOk result (λ buf. content_at self.old id.place ≡ Some buf) }
        ensures contents { OnOk result (self.new.contents ≡ slice_set self.old.contents id.place nothing) }
        ensures refused { OnErr result (self.new.contents ≡ self.old.contents) }
    {
        match self.grab_by_id(actor, id) {
            Ok(()) => Ok(self.vacate(actor, id.place)),
            Err(error) => Err(as_busy(error)),
        }
    }

    /// Takes a held buffer in hand, as a loan that `ds_return` ends. The answer is its place.
    pub fn ds_borrow(&mut self, actor: u8, id: BufferId) -> Result<u8, GcError>
        requires actor { IsActor self.old.board actor }
        ensures entries { AddsOf self.old.board actor (Borrows id result) self.new.board }
        ensures place { IfOk result (λ place. place ≡ id.place) }
        ensures in_hand { IfOk result (λ place. InHand self.new.board actor place) }
        ensures set_down { IfOk result (λ place. HasBuf self.new place) }
        ensures contents { self.new.contents ≡ self.old.contents }
    {
        self.grab_by_id(actor, id)?;
        Ok(id.place)
    }

    /// Gives a borrowed or taken buffer back to the application.
    pub fn ds_return(&mut self, actor: u8, place: u8)
        requires actor { IsActor self.old.board actor }
        requires in_hand { InHand self.old.board actor place }
        requires set_down { HasBuf self.old place }
        ensures entries { AddsOf self.old.board actor (Returns place) self.new.board }
        ensures contents { self.new.contents ≡ self.old.contents }
    {
        self.lay(actor, place);
    }
}
