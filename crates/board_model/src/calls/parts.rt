//! The parts of flushes and of close: what is done with each of several places.

ghost use Rattle.std.specs.Prelude.{◌≡◌, ◌<◌};
ghost use Rattle.gev_types.specs.Limits.{place_count};
ghost use Rattle.board_machine.specs.Machine.{IsActor};
ghost use Rattle.board_machine.specs.Adding.{AddsOf};
ghost use Rattle.board_model.specs.Holdings.{AreInHand, LeftHand, HaveBufs};
ghost use Rattle.board_calls.specs.Rounds.{LaysEach, PoolsEach, PoolsIfHeld, PoolsHeld};

use crate::board::PlainBoard;
use gentl_types::State;
use gev_types::PLACES;

impl PlainBoard {
    /// Lays each of these places, in order.
    pub(crate) fn lay_each(&mut self, actor: u8, places: &[u8])
        requires actor { IsActor self.old.board actor }
        requires in_hand { AreInHand self.old.board actor places.now }
        requires set_down { HaveBufs self.old.contents places.now }
        ensures entries { AddsOf self.old.board actor (LaysEach places.now) self.new.board }
        ensures in_hand { LeftHand self.old.board actor places.now self.new.board }
        ensures contents { self.new.contents ≡ self.old.contents }
    {
        for place in places {
            self.lay(actor, *place);
        }
    }

    /// Puts each of these places into the pool, in order.
    pub(crate) fn pool_each(&mut self, actor: u8, places: &[u8])
        requires actor { IsActor self.old.board actor }
        requires in_hand { AreInHand self.old.board actor places.now }
        requires set_down { HaveBufs self.old.contents places.now }
        ensures entries { AddsOf self.old.board actor (PoolsEach places.now) self.new.board }
        ensures contents { self.new.contents ≡ self.old.contents }
    {
        for place in places {
            self.pool(actor, *place);
        }
    }

    /// Looks at a place, and puts its buffer into the pool where the application has it.
    pub(crate) fn pool_if_held(&mut self, actor: u8, place: u8)
        requires actor { IsActor self.old.board actor }
        requires in_range { place < place_count }
        ensures entries { AddsOf self.old.board actor (PoolsIfHeld place) self.new.board }
        ensures contents { self.new.contents ≡ self.old.contents }
    {
        let word = self.load(actor, place);
        if word.state != State::Held {
            return;
        }
        match self.grab(actor, place, word.generation) {
            Ok(()) => self.pool(actor, place),
            Err(_found) => {}
        }
    }

    /// Puts each buffer that the application has into the pool.
    pub(crate) fn pool_held(&mut self, actor: u8)
        requires actor { IsActor self.old.board actor }
        ensures entries { AddsOf self.old.board actor PoolsHeld self.new.board }
        ensures contents { self.new.contents ≡ self.old.contents }
    {
        for place in 0..PLACES {
            self.pool_if_held(actor, place);
        }
    }
}
