//! The steps on the input pool.

ghost use Rattle.std.specs.Prelude.{◌≡◌, IfSome};
ghost use Rattle.board_machine.specs.declared.events.Event.TheVariants.{LookPool, Pool, Claim, SweepPool};
ghost use Rattle.board_machine.specs.Machine.{IsActor, InHand};
ghost use Rattle.board_machine.specs.Adding.{AddsEntry};
ghost use Rattle.board_model.specs.Plain.{HasBuf};
ghost use Rattle.board_model.specs.Holdings.{CameToHand, HaveBufs};

use crate::board::PlainBoard;
use crate::places::{Places, ROOM};
use arrayvec::ArrayVec;

impl PlainBoard {
    /// Looks at the input pool: its places, lowest first.
    pub fn look_pool(&mut self, actor: u8) -> ArrayVec<u8, ROOM>
        requires actor { IsActor self.old.board actor }
        ensures step { AddsEntry self.old.board actor (LookPool result.items) self.new.board }
        ensures contents { self.new.contents ≡ self.old.contents }
    {
        self.pool.list()
    }

    /// Puts a buffer in hand into the input pool.
    pub fn pool(&mut self, actor: u8, place: u8)
        requires actor { IsActor self.old.board actor }
        requires in_hand { InHand self.old.board actor place }
        requires set_down { HasBuf self.old place }
        ensures step { AddsEntry self.old.board actor (Pool place) self.new.board }
        ensures contents { self.new.contents ≡ self.old.contents }
    {
        self.hands.remove(actor, place);
        self.pool.put(place);
    }

    /// Takes the pool's lowest place in hand; None where the pool is empty.
    pub fn claim(&mut self, actor: u8) -> Option<u8>
        requires actor { IsActor self.old.board actor }
        ensures step { AddsEntry self.old.board actor (Claim result) self.new.board }
        ensures in_hand { IfSome result (λ place. InHand self.new.board actor place) }
        ensures set_down { IfSome result (λ place. HasBuf self.new place) }
        ensures contents { self.new.contents ≡ self.old.contents }
    {
        let place = self.pool.first()?;
        self.pool.remove(place);
        self.hands.put(actor, place);
        Some(place)
    }

    /// Takes the whole pool in hand: its places, lowest first.
    pub fn sweep_pool(&mut self, actor: u8) -> ArrayVec<u8, ROOM>
        requires actor { IsActor self.old.board actor }
        ensures step { AddsEntry self.old.board actor (SweepPool result.items) self.new.board }
        ensures in_hand { CameToHand self.old.board actor result.items self.new.board }
        ensures set_down { HaveBufs self.new.contents result.items }
        ensures contents { self.new.contents ≡ self.old.contents }
    {
        let swept = self.pool.list();
        self.hands.put_each(actor, swept.as_slice());
        self.pool = Places::new();
        swept
    }
}
