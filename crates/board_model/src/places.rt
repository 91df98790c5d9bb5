ghost use Rattle.std.specs.Prelude.{◌≡◌, ℕ, ◌+◌, ◌<◌, ◌≤◌, ◌↔◌, [], ◌∷◌, IsTrue, MatchOption};
ghost use Rattle.gev_types.specs.Limits.{place_count};
ghost use Rattle.board_machine.specs.Places.{times, put_in, without, put_all, tail};

use arrayvec::ArrayVec;
use gev_types::PLACES;
use std::marker::Model;

/// The number of places, as a length.
pub(crate) const ROOM: usize = PLACES as usize;

/// A set of places, which contracts see as the rising list of its members.
#[derive(Drop)]
pub(crate) struct Places {
    flags: [bool; ROOM],
}

impl Model for Places {
    ghost use Rattle.std.specs.Prelude.{ℕ, List};
    ghost use Rattle.board_model.specs.Collected.{collect};

    ghost Value = { List ℕ };

    ghost view = { λ p. collect 0 p.flags };
}

impl Places {
    /// No places.
    pub(crate) fn new() -> Places
        ensures { result ≡ [] }
    {
        Places {
            flags: [false; ROOM],
        }
    }

    pub(crate) fn has(&self, place: u8) -> bool
        ensures { IsTrue result ↔ (1 ≤ times place self.now) }
    {
        place < PLACES && self.flags[place as usize]
    }

    pub(crate) fn put(&mut self, place: u8)
        requires in_range { place < place_count }
        requires missing { times place self.old ≡ 0 }
        ensures { self.new ≡ put_in place self.old }
    {
        self.flags[place as usize] = true;
    }

    pub(crate) fn remove(&mut self, place: u8)
        requires { 1 ≤ times place self.old }
        ensures { self.new ≡ without place self.old }
    {
        self.flags[place as usize] = false;
    }

    /// Puts these places in, each of them once.
    pub(crate) fn put_each(&mut self, places: &[u8])
        requires in_range { (i : ℕ) → 1 ≤ times i places.now → i < place_count }
        requires missing { (i : ℕ) → times i places.now + times i self.old ≤ 1 }
        ensures { self.new ≡ put_all places.now self.old }
    {
        for place in places {
            self.flags[*place as usize] = true;
        }
    }

    /// The lowest place.
    pub(crate) fn first(&self) -> Option<u8>
        ensures { MatchOption result (self.now ≡ []) (λ i. (i < place_count) × (self.now ≡ i ∷ tail self.now)) }
    {
        for place in 0..PLACES {
            if self.flags[place as usize] {
                return Some(place);
            }
        }
        None
    }

    /// The places, lowest first.
    pub(crate) fn list(&self) -> ArrayVec<u8, ROOM>
        ensures { result.items ≡ self.now }
    {
        let mut list = ArrayVec::new();
        for place in 0..PLACES {
            if self.flags[place as usize] {
                list.push(place);
            }
        }
        list
    }
}
