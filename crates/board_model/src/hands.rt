ghost use Rattle.std.specs.Prelude.{◌≡◌, ℕ, ◌+◌, ◌<◌, ◌≤◌, ◌≢◌, ◌↔◌, [], ◌∷◌, ◌++◌, Some, IsTrue, length, slice_index_or, slice_set};
ghost use Rattle.gev_types.specs.Limits.{place_count};
ghost use Rattle.board_machine.specs.Places.{times, put_in, without, put_all};
ghost use Rattle.board_machine.specs.Machine.{held, no_actor, empty_hands};

use crate::places::Places;
use arrayvec::ArrayVec;
use std::marker::Model;

/// The places in each actor's hands, by the actor's number; None once the actor was joined.
#[derive(Drop)]
pub(crate) struct Hands {
    hands: ArrayVec<Option<Places>, 16>,
}

impl Model for Hands {
    ghost use Rattle.std.specs.Prelude.{ℕ, List, Option};

    ghost Value = { List (Option (List ℕ)) };

    ghost view = { λ h. h.hands.items };
}

impl Hands {
    /// Actor 0 with empty hands.
    pub(crate) fn new() -> Hands
        ensures { result ≡ empty_hands ∷ [] }
    {
        let mut hands = ArrayVec::new();
        hands.push(Some(Places::new()));
        Hands { hands }
    }

    pub(crate) fn is_actor(&self, actor: u8) -> bool
        ensures { IsTrue result ↔ slice_index_or self.now actor no_actor ≢ no_actor }
    {
        matches!(self.hands.get(actor as usize), Some(Some(_)))
    }

    pub(crate) fn are_empty(&self, actor: u8) -> bool
        ensures { IsTrue result ↔ (slice_index_or self.now actor no_actor ≡ empty_hands) }
    {
        match self.hands.get(actor as usize) {
            Some(Some(places)) => places.first().is_none(),
            _ => false,
        }
    }

    pub(crate) fn is_full(&self) -> bool
        ensures { IsTrue result ↔ (16 ≤ length self.now) }
    {
        self.hands.is_full()
    }

    pub(crate) fn has(&self, actor: u8, place: u8) -> bool
        ensures { IsTrue result ↔ (1 ≤ times place (held (slice_index_or self.now actor no_actor))) }
    {
        match self.hands.get(actor as usize) {
            Some(Some(places)) => places.has(place),
            _ => false,
        }
    }

    pub(crate) fn put(&mut self, actor: u8, place: u8)
        requires actor { slice_index_or self.old actor no_actor ≢ no_actor }
        requires in_range { place < place_count }
        requires missing { times place (held (slice_index_or self.old actor no_actor)) ≡ 0 }
        ensures { self.new ≡ slice_set self.old actor (Some (put_in place (held (slice_index_or self.old actor no_actor)))) }
    {
        if let Some(places) = &mut self.hands[actor as usize] {
            places.put(place);
        }
    }

    pub(crate) fn remove(&mut self, actor: u8, place: u8)
        requires { 1 ≤ times place (held (slice_index_or self.old actor no_actor)) }
        ensures { self.new ≡ slice_set self.old actor (Some (without place (held (slice_index_or self.old actor no_actor)))) }
    {
        if let Some(places) = &mut self.hands[actor as usize] {
            places.remove(place);
        }
    }

    /// Puts these places into the hands of an actor, each of them once.
    pub(crate) fn put_each(&mut self, actor: u8, places: &[u8])
        requires actor { slice_index_or self.old actor no_actor ≢ no_actor }
        requires in_range { (i : ℕ) → 1 ≤ times i places.now → i < place_count }
        requires missing { (i : ℕ) → times i places.now + times i (held (slice_index_or self.old actor no_actor)) ≤ 1 }
        ensures { self.new ≡ slice_set self.old actor (Some (put_all places.now (held (slice_index_or self.old actor no_actor)))) }
    {
        if let Some(hand) = &mut self.hands[actor as usize] {
            hand.put_each(places);
        }
    }

    /// Adds an actor with empty hands. The answer is its number.
    pub(crate) fn add(&mut self) -> u8
        requires { length self.old < 16 }
        ensures number { result ≡ length self.old }
        ensures after { self.new ≡ self.old ++ empty_hands ∷ [] }
    {
        let number = self.hands.len() as u8;
        self.hands.push(Some(Places::new()));
        number
    }

    /// Ends an actor.
    pub(crate) fn end(&mut self, actor: u8)
        requires { actor < length self.old }
        ensures { self.new ≡ slice_set self.old actor no_actor }
    {
        self.hands[actor as usize] = None;
    }
}
