//! The call that announces a buffer.

ghost use Rattle.std.specs.Prelude.{◌≡◌, ◌↔◌, IfOk, IfSome, OnErr, MatchOption, Some, Err, true, length, slice_set};
ghost use Rattle.gev_types.specs.Limits.{place_count};
ghost use Rattle.board_machine.specs.Machine.{IsActor, InHand};
ghost use Rattle.board_model.specs.Plain.{HasBuf};
ghost use Rattle.board_machine.specs.Adding.{AddsOf};
ghost use Rattle.board_model.specs.Holdings.{fresh};
ghost use Rattle.board_calls.specs.Rounds.{EnrolsLowest};
ghost use Rattle.board_calls.specs.Calls.{Announces, closed_refusal};

use crate::board::PlainBoard;
use gentl_types::{BufferId, GcError, Shown};
use gev_types::{Buf, MAX_BUFFER_SIZE, PLACES};
use std::alloc::Global;

impl PlainBoard {
    /// Does nothing. Its clause is that there is room for the buffer of each place.
    pub(crate) fn has_room(&self)
        ensures { length self.now.contents ≡ place_count }
    {
        let _words = &self.words;
    }

    /// Brings a new buffer to the lowest place that takes it, and takes it in hand.
    pub(crate) fn enrol_lowest(&mut self, actor: u8, buf: Buf) -> Option<BufferId>
        requires actor { IsActor self.old.board actor }
        ensures entries { AddsOf self.old.board actor (EnrolsLowest (length buf.bytes) result) self.new.board }
        ensures in_hand { IfSome result (λ id. InHand self.new.board actor id.place) }
        ensures set_down { IfSome result (λ id. HasBuf self.new id.place) }
        ensures contents { MatchOption result (self.new.contents ≡ self.old.contents) (λ id. self.new.contents ≡ slice_set self.old.contents id.place (Some buf)) }
    {
        let mut buf = buf;
        for place in 0..PLACES {
            self.has_room();
            match self.enrol(actor, place, buf) {
                Ok(generation) => return Some(BufferId { place, generation }),
                Err((back, _word)) => buf = back,
            }
        }
        None
    }

    /// DSAllocAndAnnounceBuffer: a new buffer of `size` bytes at the lowest vacant place, which the
    /// application owns then.
    pub fn ds_announce(&mut self, alloc: Global, actor: u8, size: u64) -> Result<BufferId, GcError>
        requires actor { IsActor self.old.board actor }
        ensures entries { AddsOf self.old.board actor (Announces size result) self.new.board }
        ensures closed { (result ≡ Err closed_refusal) ↔ (self.old.board.closed ≡ true) }
        ensures contents { IfOk result (λ id. self.new.contents ≡ slice_set self.old.contents id.place (Some (fresh size))) }
        ensures refused { OnErr result (self.new.contents ≡ self.old.contents) }
    {
        if self.look_closed(actor) {
            return Err(GcError::InvalidHandle(Shown::Closed));
        }
        if size == 0 || size > u64::from(MAX_BUFFER_SIZE) {
            return Err(GcError::InvalidParameter(size));
        }
        let buf = match Buf::new(alloc, size as u32) {
            Ok(buf) => buf,
            Err(_no_memory) => return Err(GcError::OutOfMemory),
        };
        match self.enrol_lowest(actor, buf) {
            Some(id) => {
                self.lay(actor, id.place);
                Ok(id)
            }
            None => Err(GcError::ResourceExhausted),
        }
    }
}
