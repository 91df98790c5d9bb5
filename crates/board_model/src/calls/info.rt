//! The information calls.

ghost use Rattle.std.specs.Prelude.{◌≡◌};
ghost use Rattle.board_machine.specs.Machine.{IsActor};
ghost use Rattle.board_calls.specs.Infos.{used};
ghost use Rattle.board_machine.specs.Adding.{AddsOf};
ghost use Rattle.board_calls.specs.Infos.{CountsAnnounced, CountsOutput, TellsGrabbing, CountsPool, Infos, LooksForPlace, BufferInfos};

use crate::board::PlainBoard;
use board_calls::is_gone;
use gentl_types::{BufferId, GcError, Shown, State, Word};
use gev_types::PLACES;

// 1 for a word that isn't Vacant, else 0.
fn counts(word: Word) -> u64
    ensures { result ≡ used word.state }
{
    match word.state {
        State::Vacant => 0,
        State::Held => 1,
        State::Away => 1,
    }
}

impl PlainBoard {
    /// NUM_ANNOUNCED: the places whose word, each at a look of its own, isn't Vacant.
    pub(crate) fn count_announced(&mut self, actor: u8) -> u64
        requires actor { IsActor self.old.board actor }
        ensures entries { AddsOf self.old.board actor (CountsAnnounced result) self.new.board }
        ensures contents { self.new.contents ≡ self.old.contents }
    {
        let mut count = 0;
        for place in 0..PLACES {
            count += counts(self.load(actor, place));
        }
        count
    }

    /// NUM_AWAIT_DELIVERY: the length of the output.
    pub(crate) fn count_output(&mut self, actor: u8) -> u64
        requires actor { IsActor self.old.board actor }
        ensures entries { AddsOf self.old.board actor (CountsOutput result) self.new.board }
        ensures contents { self.new.contents ≡ self.old.contents }
    {
        let (output, _closed) = self.look_out(actor);
        output.len() as u64
    }

    /// IS_GRABBING: 1 where the run word is 1.
    pub(crate) fn grabbing_value(&mut self, actor: u8) -> u64
        requires actor { IsActor self.old.board actor }
        ensures entries { AddsOf self.old.board actor (TellsGrabbing result) self.new.board }
        ensures contents { self.new.contents ≡ self.old.contents }
    {
        if self.look_run(actor) == 1 { 1 } else { 0 }
    }

    /// How many buffers the pool has.
    pub(crate) fn count_pool(&mut self, actor: u8) -> u64
        requires actor { IsActor self.old.board actor }
        ensures entries { AddsOf self.old.board actor (CountsPool result) self.new.board }
        ensures contents { self.new.contents ≡ self.old.contents }
    {
        self.look_pool(actor).len() as u64
    }

    /// DSGetInfo: 3 NUM_ANNOUNCED, 5 NUM_AWAIT_DELIVERY, 8 IS_GRABBING, and 1000, a value of this
    /// project's own, how many buffers the pool has.
    pub fn ds_info(&mut self, actor: u8, which: u32) -> Result<u64, GcError>
        requires actor { IsActor self.old.board actor }
        ensures entries { AddsOf self.old.board actor (Infos which result) self.new.board }
        ensures contents { self.new.contents ≡ self.old.contents }
    {
        match which {
            3 => Ok(self.count_announced(actor)),
            5 => Ok(self.count_output(actor)),
            8 => Ok(self.grabbing_value(actor)),
            1000 => Ok(self.count_pool(actor)),
            _ => Err(GcError::NotAvailable(which)),
        }
    }

    /// Whether the pool, at its look, or the output, at its look, has the place: 1, else 0.
    pub(crate) fn queued_value(&mut self, actor: u8, place: u8) -> u64
        requires actor { IsActor self.old.board actor }
        ensures entries { AddsOf self.old.board actor (LooksForPlace place result) self.new.board }
        ensures contents { self.new.contents ≡ self.old.contents }
    {
        let pooled = self.look_pool(actor);
        let (output, _closed) = self.look_out(actor);
        if pooled.as_slice().contains(&place) {
            return 1;
        }
        if output.as_slice().contains(&place) {
            1
        } else {
            0
        }
    }

    /// DSGetBufferInfo: 1 SIZE in bytes, and 1000, a value of this project's own, 1 where the pool or
    /// the output has the place.
    pub fn ds_buffer_info(&mut self, actor: u8, id: BufferId, which: u32) -> Result<u64, GcError>
        requires actor { IsActor self.old.board actor }
        ensures entries { AddsOf self.old.board actor (BufferInfos id which result) self.new.board }
        ensures contents { self.new.contents ≡ self.old.contents }
    {
        if id.place >= PLACES {
            return Err(GcError::InvalidHandle(Shown::NoHandle(u64::from(id.place))));
        }
        let word = self.load(actor, id.place);
        if is_gone(word, id.generation) {
            return Err(GcError::InvalidHandle(Shown::Word(word)));
        }
        match which {
            1 => Ok(u64::from(word.size)),
            1000 => Ok(self.queued_value(actor, id.place)),
            _ => Err(GcError::NotAvailable(which)),
        }
    }
}
